//! Markup that is well formed, and how any text stands in it.
//!
//! To the layers above, what `escaped` makes of a text is that of `specs/Escaped.antt`: it opens no element and ends no
//! attribute, whatever the text's bytes are.
#![tactic(auto)]

pub mod escaped;
pub mod laws;
pub mod markup;
pub mod tag;
