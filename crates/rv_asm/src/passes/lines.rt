//! The bytes of a line, or its first fault.
ghost use Rattle.std.specs.Prelude.{◌≡◌, ◌+◌, ◌&&◌, nat_le, length, IfOk};
ghost use Rattle.rv_asm.specs.Assembled as spec;
ghost use Rattle.rv_asm.specs.Layout as layout;
ghost use Rattle.rv_asm.specs.internal.Listed.{listed};
ghost use Rattle.rv_asm.specs.internal.Within.{IsWithin};

use crate::passes::bytes::{Bytes, bytes_of};
use crate::passes::labels::Labels;
use crate::passes::layout::{address_of, bytes_left, label_size};
use crate::passes::place::{Place, PlacedLine};
use crate::statement::{AsmKind, Line, Name};
use rv_memory::store::NoMemory;
use std::alloc::Global;

/// Whether the first label of that name stands on an earlier line.
fn is_taken(labels: &Labels, lines_before: u64, label: &Option<Name>) -> bool
    ensures { result ≡ spec.is_taken labels.now lines_before label.now }
{
    let Some(name) = label else {
        return false;
    };
    match labels.spot_of(name.as_bytes()) {
        Some(spot) => spot.lines_before < lines_before,
        None => false,
    }
}

/// Whether a label and these bytes pass no limit at the place.
fn is_within(place: Place, label: &Option<Name>, bytes: &[u8]) -> bool
    requires { IsWithin place }
    ensures { result ≡ (nat_le (layout.label_size label.now) place.label_room
        && nat_le (layout.bytes_before place.section place + length bytes.now) (layout.limit_of place.section)) }
{
    label_size(label) <= place.label_room && bytes.len() <= bytes_left(place) as usize
}

/// The bytes of a line, or the fault that is told of it.
#[tactic(auto, unfolding(crate::specs::Assembled::line_bytes))]
pub fn line_bytes(alloc: Global, labels: &Labels, p: PlacedLine) -> Result<Bytes, NoMemory>
    requires { IsWithin p.place }
    ensures { IfOk result (λ bytes. listed bytes ≡ spec.line_bytes labels.now p.entry) }
{
    let PlacedLine { place, line } = p;
    let Line { label, statement } = line;
    if is_taken(labels, place.lines_before, &label) {
        return Ok(Err(AsmKind::LabelTwice));
    }
    let statement = match statement {
        Ok(statement) => statement,
        Err(kind) => return Ok(Err(kind)),
    };
    match bytes_of(alloc, labels, address_of(place), statement)? {
        Ok(bytes) => {
            if is_within(place, &label, &bytes) {
                Ok(Ok(bytes))
            } else {
                Ok(Err(AsmKind::TooLarge))
            }
        }
        Err(kind) => Ok(Err(kind)),
    }
}
