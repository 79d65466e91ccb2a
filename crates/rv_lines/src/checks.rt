//! Whether a line has the shape of one.
ghost use Rattle.std.specs.Prelude.{◌≡◌, ◌&&◌, not, option_map};
ghost use Rattle.std.specs.Str.{is_utf8};
ghost use Rattle.rv_lines.specs.SourceLines as spec;
ghost use Rattle.rv_lines.specs.internal.Kept.{line_with};

use rv_text::decimal::read_decimal;
use rv_text::hexadecimal::read_word;
use rv_text::pieces::Pieces;
use std::str;

/// The most frames of a line.
const MOST_FRAMES: u32 = 64;

/// What stands behind the last colon of a place.
pub(crate) fn number_in(place: &[u8]) -> &[u8]
    ensures { result.now ≡ spec.number_in place.now }
{
    let mut pieces = Pieces::of(place, b':');
    let mut last: &[u8] = &[];
    while let Some(piece) = pieces.next_piece() {
        last = piece;
    }
    last
}

/// Whether a text is a line's number, or that it is unknown.
fn is_number(text: &[u8]) -> bool
    ensures { result ≡ spec.is_number text.now }
{
    text == b"?".as_slice() || read_decimal(text, u32::MAX).is_some()
}

/// Whether a text is FILE:LINE, or that the file is unknown.
fn is_place(place: &[u8]) -> bool
    ensures { result ≡ spec.is_place place.now }
{
    let number = number_in(place);
    place == b"?".as_slice() || is_number(number) && number.len() + 1 < place.len()
}

fn is_frame(function: &[u8], place: &[u8]) -> bool
    ensures { result ≡ spec.is_frame function.now place.now }
{
    !function.is_empty() && is_place(place)
}

/// Whether the pieces are frames, not too many.
fn are_frames(pieces: &mut Pieces<'_>) -> bool
    ensures { result ≡ spec.are_frames 64 pieces.old }
{
    let mut left = MOST_FRAMES;
    while left > 0 {
        let Some(function) = pieces.next_piece() else {
            return true;
        };
        let Some(place) = pieces.next_piece() else {
            return false;
        };
        if !is_frame(function, place) {
            return false;
        }
        left -= 1;
    }
    pieces.next_piece().is_none()
}

/// Whether a byte is a control character that is not a tab, or the last byte of one. The byte before it is given.
fn is_control(before: u8, byte: u8) -> bool
    ensures { result ≡ spec.is_control before byte }
{
    byte < b' ' && byte != b'\t' || byte == 0x7f || before == 0xc2 && byte < 0xa0
}

fn has_control(text: &[u8]) -> bool
    ensures { result ≡ spec.has_control text.now }
{
    let mut before = 0;
    for byte in text {
        if is_control(before, *byte) {
            return true;
        }
        before = *byte;
    }
    false
}

fn is_utf8(text: &[u8]) -> bool
    ensures { result ≡ is_utf8 text.now }
{
    str::from_utf8(text).is_ok()
}

/// The address of a line, where it has the shape of one.
#[tactic(auto, unfolding(crate::specs::SourceLines::line_in))]
pub(crate) fn address_of(text: &[u8]) -> Option<u32>
    ensures { option_map (line_with text.now) result ≡ spec.line_in text.now }
{
    if !is_utf8(text) || has_control(text) {
        return None;
    }
    let mut pieces = Pieces::of(text, b'\t');
    let word = pieces.next_piece()?;
    let address = read_word(word)?;
    if are_frames(&mut pieces) {
        Some(address)
    } else {
        None
    }
}
