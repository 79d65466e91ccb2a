//! A schedule's text is cut at its LFs.
ghost use Rattle.std.specs.Prelude.{◌≡◌, ◌==◌, true, false, ◌∷◌, ◌++◌, All, MatchOption, IfOk, IfErr, Ok, Err};
ghost use Rattle.rv_text.specs.Pieces.{pieces_of};
ghost use Rattle.rv_collide.specs.ScheduleRead as spec;

use crate::schedule::fault::ScheduleKind;
use rv_text::laws::pieces_are_cut;

/// The most bytes of a line, its LF not counted.
const MOST_LINE: usize = 64;

/// The text before and after the first LF. None where there is none.
fn cut(text: &[u8]) -> Option<(&[u8], &[u8])>
    ensures { MatchOption result (All (λ b. (b == 10) ≡ false) text.now)
        (λ parts. (All (λ b. (b == 10) ≡ false) parts.0.now)
        × (text.now ≡ parts.0.now ++ 10 ∷ parts.1.now)) }
{
    let at = text.iter().position(|byte| *byte == b'\n')?;
    Some((&text[..at], &text[at + 1..]))
}

/// The first line, without its LF, and the text after it.
pub(crate) fn first_line(text: &[u8]) -> Result<(&[u8], &[u8]), ScheduleKind>
    ensures line { IfOk result (λ parts. spec.first_line (pieces_of 10 text.now) ≡ Ok parts.0.now) }
    ensures rest { IfOk result (λ parts. pieces_of 10 text.now ≡ parts.0.now ∷ pieces_of 10 parts.1.now) }
    ensures whole { IfOk result (λ parts. text.now ≡ parts.0.now ++ 10 ∷ parts.1.now) }
    ensures err { IfErr result (λ kind. spec.first_line (pieces_of 10 text.now) ≡ Err kind) }
    ensures told { IfErr result (λ kind. spec.is_of_text kind ≡ true) }
{
    pieces_are_cut();
    match cut(text) {
        Some((line, rest)) if line.len() <= MOST_LINE => Ok((line, rest)),
        None if text.len() <= MOST_LINE => Err(ScheduleKind::NoEnd),
        _ => Err(ScheduleKind::TooLong),
    }
}
