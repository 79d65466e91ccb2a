//! The lines of a source, each at its place, from its front on.
ghost use Rattle.std.specs.Prelude.{◌≡◌, ◌<◌, ◌^◌, ◌+◌, [], ◌∷◌, IfSome, MatchOption};
ghost use Rattle.rv_asm.specs.Layout as spec;
ghost use Rattle.rv_asm.specs.internal.Within.{IsWithin};

use crate::passes::layout::{first_place, line_at, next_place};
use crate::passes::place::{Place, PlacedLine};
use crate::passes::source::first_line;
use std::marker::Model;

/// The lines that are still to be taken.
#[derive(Drop)]
pub struct PlacedLines<'s> {
    rest: &'s [u8],
    place: Place,
}

impl<'s> Model for PlacedLines<'s> {
    ghost use Rattle.std.specs.Prelude.{List};
    ghost use Rattle.rv_asm.specs.declared.passes.place.PlacedLine.{PlacedLine};
    ghost use Rattle.rv_asm.specs.Layout.{placed, source_lines};
    ghost use Rattle.rv_asm.specs.internal.Within.{CanGoOn};

    ghost Value = { List PlacedLine };

    ghost view = { λ a. placed a.place (source_lines a.rest.now) };

    ghost invariant = { λ a. CanGoOn a.place a.rest.now };
}

impl<'s> PlacedLines<'s> {
    /// All lines of the source.
    pub fn of(source: &'s [u8]) -> PlacedLines<'s>
        ensures { result ≡ spec.lines_placed source.now }
    {
        PlacedLines {
            rest: source,
            place: first_place(),
        }
    }

    /// Takes the first line. None where there is no more.
    pub fn next_line(&mut self) -> Option<PlacedLine<'s>>
        ensures taken { MatchOption result ((self.old ≡ []) × (self.new ≡ []))
            (λ p. self.old ≡ p ∷ self.new) }
        ensures within { IfSome result (λ p. IsWithin p.place) }
        ensures counted { IfSome result (λ p. p.place.lines_before + 1 < 2 ^ 64) }
    {
        let (text, rest) = first_line(self.rest)?;
        // What a line says is read twice, since its size is found by taking its values.
        let p = line_at(self.place, text);
        self.place = next_place(line_at(self.place, text));
        self.rest = rest;
        Some(p)
    }
}
