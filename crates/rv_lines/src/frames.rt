//! The frames of an instruction.
ghost use Rattle.std.specs.Prelude.{◌≡◌, [], drop, option_map, slice_get};
ghost use Rattle.std.specs.Option.{option_copied};
ghost use Rattle.rv_lines.specs.SourceLines as spec;

use crate::checks::number_in;
use rv_text::decimal::read_decimal;
use rv_text::pieces::Pieces;
use std::marker::Model;

/// A function that an instruction was made of, and FILE:LINE, each as its file has it: `?` is what is unknown.
#[derive(Clone, Copy)]
pub struct Frame<'a> {
    pub function: &'a [u8],
    pub place: &'a [u8],
}

impl<'a> Frame<'a> {
    /// The function, where it is known.
    pub fn known_function(&self) -> Option<&'a [u8]>
        ensures { option_copied result ≡ spec.known_function (spec.frame_of self.now) }
    {
        if self.function == b"?".as_slice() {
            None
        } else {
            Some(self.function)
        }
    }

    /// The file, where it is known.
    pub fn file(&self) -> Option<&'a [u8]>
        ensures { option_copied result ≡ spec.file_in (spec.frame_of self.now) }
    {
        if self.place == b"?".as_slice() {
            return None;
        }
        let behind = number_in(self.place).len();
        let end = self.place.len().saturating_sub(behind).saturating_sub(1);
        Some(&self.place[..end])
    }

    /// The number of the line, where it is known.
    pub fn line(&self) -> Option<u32>
        ensures { result ≡ spec.line_number (spec.frame_of self.now) }
    {
        read_decimal(number_in(self.place), u32::MAX)
    }
}

/// The frames that are still to be taken, the innermost first.
#[derive(Drop)]
pub struct Frames<'a> {
    fields: Pieces<'a>,
}

impl<'a> Model for Frames<'a> {
    ghost use Rattle.std.specs.Prelude.{List};
    ghost use Rattle.rv_lines.specs.SourceLines.{SourceFrame, paired};

    ghost Value = { List SourceFrame };

    ghost view = { λ f. paired f.fields };
}

impl<'a> Frames<'a> {
    /// No frame.
    pub fn none() -> Frames<'a>
        ensures { result ≡ [] }
    {
        Frames {
            fields: Pieces::of(&[], b'\t'),
        }
    }

    /// The frames of a line.
    pub(crate) fn of_line(text: &'a [u8]) -> Frames<'a>
        ensures { result ≡ spec.frames_in text.now }
    {
        let mut fields = Pieces::of(text, b'\t');
        fields.next_piece();
        Frames { fields }
    }

    /// Takes the innermost. None where there is no more.
    pub fn next_frame(&mut self) -> Option<Frame<'a>>
        ensures first { option_map spec.frame_of result ≡ slice_get self.old 0 }
        ensures rest { self.new ≡ drop 1 self.old }
    {
        let function = self.fields.next_piece()?;
        let place = self.fields.next_piece()?;
        Some(Frame { function, place })
    }
}
