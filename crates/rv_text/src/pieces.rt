ghost use Rattle.std.specs.Prelude.{◌≡◌, ℕ, ◌==◌, false, List, ◌∷◌, ◌++◌, All, MatchOption, slice_get, drop};
ghost use Rattle.std.specs.Option.{option_copied};
ghost use Rattle.rv_text.specs.Pieces.{pieces_of};
ghost use Rattle.rv_text.specs.internal.Pieces.{pieces_left};

use std::marker::Model;

/// The pieces of a text that are still to be taken, from its front on. A separator stands between
/// two pieces, so that an empty text is one empty piece.
#[derive(Drop)]
pub struct Pieces<'a> {
    rest: Option<&'a [u8]>,
    separator: u8,
}

impl<'a> Model for Pieces<'a> {
    ghost Value = { List (List ℕ) };

    ghost view = { λ p. pieces_left p.separator (option_copied p.rest) };
}

impl<'a> Pieces<'a> {
    /// All pieces of the text.
    pub fn of(text: &'a [u8], separator: u8) -> Pieces<'a>
        ensures { result ≡ pieces_of separator text.now }
    {
        Pieces {
            rest: Some(text),
            separator,
        }
    }

    /// Takes the first piece. None where there is no more.
    pub fn next_piece(&mut self) -> Option<&'a [u8]>
        ensures first { option_copied result ≡ slice_get self.old 0 }
        ensures rest { self.new ≡ drop 1 self.old }
    {
        let text = self.rest?;
        match cut(text, self.separator) {
            Some((piece, rest)) => {
                self.rest = Some(rest);
                Some(piece)
            }
            None => {
                self.rest = None;
                Some(text)
            }
        }
    }
}

/// The text before and after the first separator. None where there is none.
pub(crate) fn cut(text: &[u8], separator: u8) -> Option<(&[u8], &[u8])>
    ensures { MatchOption result (All (λ b. (b == separator) ≡ false) text.now)
        (λ parts. (All (λ b. (b == separator) ≡ false) parts.0.now)
        × (text.now ≡ parts.0.now ++ separator ∷ parts.1.now)) }
{
    let at = text.iter().position(|byte| *byte == separator)?;
    Some((&text[..at], &text[at + 1..]))
}
