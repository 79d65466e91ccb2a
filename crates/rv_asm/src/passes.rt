//! The passes of the assembler over the lines of a source.

pub(crate) mod bytes;
pub(crate) mod cursor;
pub(crate) mod image;
pub(crate) mod labels;
pub(crate) mod layout;
pub(crate) mod lines;
pub(crate) mod place;
pub(crate) mod sections;
pub(crate) mod size;
pub(crate) mod source;
pub(crate) mod symbols;
