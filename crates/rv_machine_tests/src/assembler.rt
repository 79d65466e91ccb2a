//! A file that is written, and the assembler's lines.
mod images;
mod lines;
