//! What stands at a place, and the place of the next line.
ghost use Rattle.std.specs.Prelude.{◌≡◌, ◌+◌, ◌^◌, ◌<◌, if◌then◌else◌, Some, None};
ghost use Rattle.rv_asm.specs.Layout as spec;
ghost use Rattle.rv_asm.specs.Size.{size_of, section_after};
ghost use Rattle.rv_asm.specs.internal.Within.{IsWithin};

use crate::passes::place::{Place, PlacedLine};
use crate::passes::size::{section_after, size_within};
use crate::reading::line::read_line;
use crate::statement::{Line, Name, Section, Statement};

/// The address of the first byte of `.text`.
pub const TEXT_START: u32 = 0x1_0000;

/// The address of the first byte of `.data`.
pub const DATA_START: u32 = 0x2_0000;

const TEXT_LIMIT: u32 = 65_536;

const DATA_LIMIT: u32 = 1_048_576;

/// How many bytes the labels of a source may need together.
const LABEL_LIMIT: u32 = 67_108_864;

/// Where a source begins.
pub fn first_place() -> Place
    ensures value { result ≡ spec.first_place }
    ensures within { IsWithin result }
{
    Place {
        lines_before: 0,
        section: Section::Text,
        text_size: 0,
        data_size: 0,
        label_room: LABEL_LIMIT,
    }
}

/// How many more bytes the section of the place may have.
pub fn bytes_left(place: Place) -> u32
    requires { IsWithin place }
    ensures { spec.bytes_before place.section place + result ≡ spec.limit_of place.section }
{
    match place.section {
        Section::Text => TEXT_LIMIT - place.text_size,
        Section::Data => DATA_LIMIT - place.data_size,
    }
}

/// The address of the place, in its section.
pub fn address_of(place: Place) -> u32
    requires { IsWithin place }
    ensures { result ≡ spec.address_of place }
{
    match place.section {
        Section::Text => TEXT_START + place.text_size,
        Section::Data => DATA_START + place.data_size,
    }
}

/// How many bytes the statement takes at the place. None where it would pass its section's limit.
fn size_at(place: Place, statement: Statement) -> Option<u32>
    requires { IsWithin place }
    ensures { result ≡ (if spec.has_room place statement.entry then Some (size_of statement.entry) else None) }
{
    size_within(statement, bytes_left(place))
}

/// The place after a statement.
fn after_statement(place: Place, statement: Statement) -> Place
    requires { IsWithin place }
    ensures value { result ≡ spec.after_statement place (spec.if_room place (Some statement.entry)) }
    ensures within { IsWithin result }
{
    let section = section_after(&statement, place.section);
    let Some(size) = size_at(place, statement) else {
        return place;
    };
    let mut after = place;
    match place.section {
        Section::Text => after.text_size += size,
        Section::Data => after.data_size += size,
    }
    after.section = section;
    after
}

/// How many bytes a label needs: 17, and its name.
pub fn label_size(label: &Option<Name>) -> u32
    ensures { result ≡ spec.label_size label.now }
{
    match label {
        None => 0,
        Some(name) => 17 + name.as_bytes().len() as u32,
    }
}

/// The place of the next line.
#[tactic(auto, unfolding(crate::specs::Layout::next_place))]
pub fn next_place(p: PlacedLine) -> Place
    requires within { IsWithin p.place }
    requires counted { p.place.lines_before + 1 < 2 ^ 64 }
    ensures value { result ≡ spec.next_place p.entry }
    ensures within { IsWithin result }
    ensures counted { result.lines_before ≡ p.entry.place.lines_before + 1 }
{
    let PlacedLine { place, line } = p;
    let Line { label, statement } = line;
    let mut next = match statement {
        Ok(Some(statement)) => after_statement(place, statement),
        _ => place,
    };
    next.lines_before = place.lines_before + 1;
    next.label_room = place.label_room.saturating_sub(label_size(&label));
    next
}

/// What a text says at a place.
#[tactic(auto, unfolding(crate::specs::Layout::line_at))]
pub fn line_at<'s>(place: Place, text: &'s [u8]) -> PlacedLine<'s>
    ensures value { result ≡ spec.line_at place text.now }
    ensures place { result.place ≡ place }
{
    let line = read_line(place.section, text);
    PlacedLine { place, line }
}
