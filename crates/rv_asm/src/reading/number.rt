//! Numbers as a source spells them.
ghost use Rattle.std.specs.Prelude.{◌≡◌, ◌≤◌, option_map};
ghost use Rattle.std.specs.List.{list_all};
ghost use Rattle.std.specs.Char.{is_digit};
ghost use Rattle.rv_text.specs.Numeral.{number_of, up_to};
ghost use Rattle.rv_asm.specs.Number as spec;

use rv_text::numeral::read_number;

/// The greatest magnitude of a number below 0.
const MOST_NEGATIVE: u32 = 0x8000_0000;

fn are_digits(text: &[u8], radix: u32) -> bool
    requires least { 2 ≤ radix }
    requires most { radix ≤ 36 }
    ensures { result ≡ list_all (λ c. is_digit c radix) text.now }
{
    text.iter().all(|byte| char::from(*byte).is_digit(radix))
}

/// The number that digits write, or None where they are none. It is None within where it is above the limit.
#[tactic(auto, unfolding(rv_text::specs::Numeral::number_of))]
fn read_up_to(text: &[u8], radix: u32, limit: u32) -> Option<Option<u32>>
    requires least { 2 ≤ radix }
    requires most { radix ≤ 36 }
    ensures { result ≡ option_map (λ n. up_to limit (Some n)) (number_of radix text.now) }
{
    if text.is_empty() || !are_digits(text, radix) {
        return None;
    }
    Some(read_number(text, radix, limit))
}

/// The number that a text without a sign writes. It is None within where it is above the limit.
fn read_magnitude(text: &[u8], limit: u32) -> Option<Option<u32>>
    ensures { result ≡ option_map (λ n. up_to limit (Some n)) (spec.magnitude text.now) }
{
    match text {
        [b'0', b'x', digits @ ..] => read_up_to(digits, 16, limit),
        _ => read_up_to(text, 10, limit),
    }
}

fn read_negative(text: &[u8]) -> Option<Option<i64>>
    ensures { result ≡ option_map spec.negative (spec.magnitude text.now) }
{
    let magnitude = read_magnitude(text, MOST_NEGATIVE)?;
    Some(magnitude.map(|number| -i64::from(number)))
}

fn read_positive(text: &[u8]) -> Option<Option<i64>>
    ensures { result ≡ option_map spec.positive (spec.magnitude text.now) }
{
    let magnitude = read_magnitude(text, u32::MAX)?;
    Some(magnitude.map(i64::from))
}

/// The number that a text writes. It is None within where it is below -2^31 or above 2^32 - 1.
pub(crate) fn read_number_of(text: &[u8]) -> Option<Option<i64>>
    ensures { result ≡ spec.number text.now }
{
    match text {
        [b'-', digits @ ..] => read_negative(digits),
        _ => read_positive(text),
    }
}
