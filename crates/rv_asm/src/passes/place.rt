//! Where a line stands, and where a label does.

use crate::statement::{Line, Name, Section};

/// Where a line stands: how many lines stand before it, its section, how many bytes each section has
/// before it, and how many bytes are left for labels.
#[derive(Clone, Copy)]
pub struct Place {
    pub lines_before: u64,
    pub section: Section,
    pub text_size: u32,
    pub data_size: u32,
    pub label_room: u32,
}

/// A line at its place.
#[derive(Drop)]
pub struct PlacedLine<'s> {
    pub place: Place,
    pub line: Line<'s>,
}

/// Where a label stands: how many lines stand before its own, its section, and its address there.
#[derive(Clone, Copy)]
pub struct Spot {
    pub lines_before: u64,
    pub section: Section,
    pub address: u32,
}

/// A label: its name, and where it stands.
#[derive(Drop)]
pub struct Label<'s> {
    pub name: Name<'s>,
    pub spot: Spot,
}
