//! Numbers in hexadecimal digits without leading zeros.
ghost use Rattle.std.specs.Prelude.{◌≡◌};
ghost use Rattle.rv_gdb.specs.Stops.{hexadecimal};

use rv_text::hexadecimal::{WORD_DIGITS, word_digits};
use std::marker::Model;

/// The hexadecimal digits of a word, without leading zeros. It takes no memory.
#[derive(Drop)]
pub(crate) struct Hexadecimal {
    digits: [u8; WORD_DIGITS],
    first: usize,
}

impl Model for Hexadecimal {
    ghost use Rattle.std.specs.Prelude.{ℕ, ◌≤◌, List, drop};

    ghost Value = { List ℕ };

    ghost view = { λ d. drop d.first d.digits };

    ghost invariant = { λ d. d.first ≤ 8 };
}

impl Hexadecimal {
    /// The digits of the number.
    #[tactic(auto, unfolding(crate::specs::Stops::hexadecimal))]
    pub(crate) fn new(number: u32) -> Hexadecimal
        ensures { result ≡ hexadecimal number }
    {
        let digits = word_digits(number);
        let mut first = 0;
        while first < WORD_DIGITS - 1 && digits[first] == b'0' {
            first += 1;
        }
        Hexadecimal { digits, first }
    }

    /// The digits, one to eight, the most significant first.
    pub(crate) fn as_bytes(&self) -> &[u8]
        ensures { result.now ≡ self.now }
    {
        &self.digits[self.first..]
    }
}
