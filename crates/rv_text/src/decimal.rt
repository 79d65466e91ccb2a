ghost use Rattle.std.specs.Prelude.{◌≡◌, ℕ, ◌≤◌, List, drop};
ghost use Rattle.std.specs.Fmt.{decimal};
ghost use Rattle.rv_text.specs.Decimal.{decimal_of};
ghost use Rattle.rv_text.specs.Numeral.{up_to};

use crate::numeral::read_number;
use std::marker::Model;

/// The most decimal digits of a `u64`.
const MOST_DIGITS: usize = 20;

/// The decimal digits of a number, without leading zeros. It takes no memory.
#[derive(Drop)]
pub struct Decimal {
    digits: [u8; MOST_DIGITS],
    first: usize,
}

impl Model for Decimal {
    ghost Value = { List ℕ };

    ghost view = { λ d. drop d.first d.digits };

    ghost invariant = { λ d. d.first ≤ 20 };
}

impl Decimal {
    /// The digits of the number.
    pub fn new(number: u64) -> Decimal
        ensures { result ≡ decimal number }
    {
        let mut digits = [b'0'; MOST_DIGITS];
        let mut first = MOST_DIGITS - 1;
        let mut rest = number;
        while rest >= 10 {
            digits[first] = b'0' + (rest % 10) as u8;
            first -= 1;
            rest /= 10;
        }
        digits[first] = b'0' + rest as u8;
        Decimal { digits, first }
    }

    /// The digits, one to twenty, the most significant first.
    pub fn as_bytes(&self) -> &[u8]
        ensures { result.now ≡ self.now }
    {
        &self.digits[self.first..]
    }
}

/// The number that the text writes in decimal digits without a leading zero. None for any other text,
/// and where the number is above the limit.
#[tactic(auto, unfolding(crate::specs::Decimal::decimal_of))]
pub fn read_decimal(text: &[u8], limit: u32) -> Option<u32>
    ensures { result ≡ up_to limit (decimal_of text.now) }
{
    match text {
        [b'0', _, ..] => None,
        _ => read_number(text, 10, limit),
    }
}
