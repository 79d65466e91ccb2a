//! ELF32 images for RV32IMA guests: read, tested, written and read back.
//!
//! To the layer above, an `Image` is its entry, its segments and its symbols, with every fact that
//! `load` tests (`specs/Contents.antt`), and `load` is `loaded` of the file's bytes
//! (`specs/Loaded.antt`).
#![tactic(auto)]

mod fault;
mod header;
mod headers;
mod image;
pub mod laws;
mod layout;
mod loading;
mod names;
mod places;
mod put;
mod segments;
mod stretch;
mod symbol;
mod symbols;
mod writing;

pub use fault::LoadFault;
pub use image::Image;
pub use loading::load;
pub use symbol::Symbol;
pub use writing::write;
