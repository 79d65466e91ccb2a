//! What packets are made of, as `specs/Fields.antt` has it.
ghost use Rattle.std.specs.Prelude.{◌≡◌, ◌∷◌, []};
ghost use Rattle.std.specs.Option.{option_copied};
ghost use Rattle.std.specs.Str.{bytes_eq};
ghost use Rattle.rv_gdb.specs.Fields as spec;

use rv_text::numeral::read_number;
use rv_text::pieces::Pieces;

/// The most digits of a number.
const MOST_DIGITS: usize = 8;

/// A thread's number, from 1 on, or any thread.
#[derive(Clone, Copy)]
pub enum Id {
    Any,
    Thread(u32),
}

/// Some bytes: the first, and how many.
#[derive(Clone, Copy)]
pub struct Range {
    pub from: u32,
    pub length: u32,
}

/// Whether the text is the word. (A `match` on long words is a tree of tests of single bytes, which is costly to prove.)
pub(crate) fn is(text: &[u8], word: &[u8]) -> bool
    ensures { result ≡ bytes_eq text.now word.now }
{
    text == word
}

/// What stands behind a word, where the text begins with it.
pub(crate) fn behind<'t>(word: &[u8], text: &'t [u8]) -> Option<&'t [u8]>
    ensures { option_copied result ≡ spec.behind word.now text.now }
{
    text.strip_prefix(word)
}

/// A number of one to eight hexadecimal digits.
pub(crate) fn read_hexadecimal(text: &[u8]) -> Option<u32>
    ensures { result ≡ spec.number_in text.now }
{
    if text.len() > MOST_DIGITS {
        return None;
    }
    read_number(text, 16, u32::MAX)
}

/// A thread's number; `0` and `-1` are any thread.
pub(crate) fn read_id(text: &[u8]) -> Option<Id>
    ensures { result ≡ spec.id_in text.now }
{
    if is(text, b"-1") {
        return Some(Id::Any);
    }
    Some(id_of(read_hexadecimal(text)?))
}

fn id_of(number: u32) -> Id
    ensures { result ≡ spec.id_of number }
{
    if number == 0 {
        Id::Any
    } else {
        Id::Thread(number)
    }
}

/// Two numbers with a comma between them.
pub(crate) fn read_range(text: &[u8]) -> Option<Range>
    ensures { result ≡ spec.range_in text.now }
{
    let mut pieces = Pieces::of(text, b',');
    match (
        pieces.next_piece(),
        pieces.next_piece(),
        pieces.next_piece(),
    ) {
        (Some(from), Some(length), None) => range_of(from, length),
        _ => None,
    }
}

fn range_of(from: &[u8], length: &[u8]) -> Option<Range>
    ensures { result ≡ spec.range_of (from.now ∷ length.now ∷ []) }
{
    Some(Range {
        from: read_hexadecimal(from)?,
        length: read_hexadecimal(length)?,
    })
}
