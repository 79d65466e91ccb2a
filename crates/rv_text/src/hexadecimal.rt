ghost use Rattle.std.specs.Prelude.{◌≡◌, ◌<◌};
ghost use Rattle.std.specs.Char.{digit_char};
ghost use Rattle.rv_text.specs.Hexadecimal as spec;

use crate::numeral::read_number;

/// The digits of a word.
pub const WORD_DIGITS: usize = 8;

/// The digit that writes a number below 16, in lower case.
fn hex_digit(number: u8) -> u8
    requires { number < 16 }
    ensures { result ≡ digit_char number }
{
    if number < 10 {
        b'0' + number
    } else {
        b'a' + (number - 10)
    }
}

/// The word in eight lower-case digits, the most significant first.
#[tactic(auto, unfolding(crate::specs::Hexadecimal::word_digits))]
pub fn word_digits(word: u32) -> [u8; WORD_DIGITS]
    ensures { result ≡ spec.word_digits word }
{
    [
        hex_digit((word / 0x1000_0000) as u8),
        hex_digit((word / 0x100_0000 % 16) as u8),
        hex_digit((word / 0x10_0000 % 16) as u8),
        hex_digit((word / 0x1_0000 % 16) as u8),
        hex_digit((word / 0x1000 % 16) as u8),
        hex_digit((word / 0x100 % 16) as u8),
        hex_digit((word / 0x10 % 16) as u8),
        hex_digit((word % 16) as u8),
    ]
}

/// The byte in two lower-case digits, the most significant first.
#[tactic(auto, unfolding(crate::specs::Hexadecimal::byte_digits))]
pub fn byte_digits(byte: u8) -> [u8; 2]
    ensures { result ≡ spec.byte_digits byte }
{
    [hex_digit(byte / 16), hex_digit(byte % 16)]
}

/// The word that eight digits in either case write. None for any other text.
#[tactic(auto, using(crate::proofs::HexLemmas::word_fits), unfolding(crate::specs::Hexadecimal::word_of))]
pub fn read_word(text: &[u8]) -> Option<u32>
    ensures { result ≡ spec.word_of text.now }
{
    if text.len() == WORD_DIGITS {
        read_number(text, 16, u32::MAX)
    } else {
        None
    }
}
