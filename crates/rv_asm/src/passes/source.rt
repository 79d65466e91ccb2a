//! The lines of a source.
ghost use Rattle.std.specs.Prelude.{◌≡◌, ◌==◌, ◌<◌, false, length, All, MatchOption, [], ◌∷◌, ◌++◌};
ghost use Rattle.rv_asm.specs.Layout.{source_lines};
ghost use Rattle.rv_asm.specs.internal.Returns.{WithoutReturn};

const LINE_FEED: u8 = 10;

const CARRIAGE_RETURN: u8 = 13;

/// The text before and after the first LF. None where there is none.
fn cut(text: &[u8]) -> Option<(&[u8], &[u8])>
    ensures { MatchOption result (All (λ b. (b == 10) ≡ false) text.now)
        (λ parts. (All (λ b. (b == 10) ≡ false) parts.0.now)
        × (text.now ≡ parts.0.now ++ 10 ∷ parts.1.now)) }
{
    let at = text.iter().position(|byte| *byte == LINE_FEED)?;
    Some((&text[..at], &text[at + 1..]))
}

/// The line without the CR that belongs to the LF after it.
fn without_return(line: &[u8]) -> &[u8]
    ensures { WithoutReturn line.now result.now }
{
    let length = line.len();
    if length > 0 && line[length - 1] == CARRIAGE_RETURN {
        &line[..length - 1]
    } else {
        line
    }
}

/// The first line of a source and what comes after it. None where the source is empty.
pub fn first_line(source: &[u8]) -> Option<(&[u8], &[u8])>
    ensures { MatchOption result (source.now ≡ [])
        (λ parts. (source_lines source.now ≡ parts.0.now ∷ source_lines parts.1.now)
        × (length parts.1.now < length source.now)) }
{
    if source.is_empty() {
        return None;
    }
    match cut(source) {
        Some((line, rest)) => Some((without_return(line), rest)),
        None => Some((source, &[])),
    }
}
