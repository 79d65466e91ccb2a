//! The line of a word in a listing.
pub(crate) mod line;
pub(crate) mod list;
pub(crate) mod operands;
pub(crate) mod whole;
