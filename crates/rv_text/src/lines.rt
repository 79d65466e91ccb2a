ghost use Rattle.std.specs.Prelude.{◌≡◌, ℕ, List, slice_get, drop};
ghost use Rattle.std.specs.Option.{option_copied};
ghost use Rattle.rv_text.specs.Lines.{lines_of};

use crate::pieces::cut;
use std::marker::Model;

const LINE_FEED: u8 = 10;

/// The lines of a text that are still to be taken, from its front on. An LF ends a line, and only the
/// last line may lack its own.
#[derive(Drop)]
pub struct Lines<'a> {
    rest: &'a [u8],
}

impl<'a> Model for Lines<'a> {
    ghost Value = { List (List ℕ) };

    ghost view = { λ l. lines_of l.rest.now };
}

impl<'a> Lines<'a> {
    /// All lines of the text.
    pub fn of(text: &'a [u8]) -> Lines<'a>
        ensures { result ≡ lines_of text.now }
    {
        Lines { rest: text }
    }

    /// Takes the first line, without its LF. None where there is no more.
    pub fn next_line(&mut self) -> Option<&'a [u8]>
        ensures first { option_copied result ≡ slice_get self.old 0 }
        ensures rest { self.new ≡ drop 1 self.old }
    {
        if self.rest.is_empty() {
            return None;
        }
        let text = self.rest;
        match cut(text, LINE_FEED) {
            Some((line, rest)) => {
                self.rest = rest;
                Some(line)
            }
            None => {
                self.rest = &[];
                Some(text)
            }
        }
    }
}
