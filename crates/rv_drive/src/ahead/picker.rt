//! Speed: the remainder of a word by a number that is kept, by two products. A division takes four times as long.
//! (D. Lemire, O. Kaser, N. Kurz: Faster remainder by direct computation, 2019.)
ghost use Rattle.std.specs.Prelude.{◌≡◌, ◌<◌, ◌%◌};

use std::marker::Model;

/// A number to divide by, at least 1, and the fraction that one of so many equal parts of 2^64 is, rounded up. To contracts
/// it is the number.
#[derive(Drop)]
pub(crate) struct Picker {
    count: u32,
    part: u64,
}

impl Model for Picker {
    ghost use Rattle.std.specs.Prelude.{◌≡◌, ℕ, ◌<◌};
    ghost use Rattle.rv_drive.specs.internal.Picker.{part_of};

    ghost Value = { ℕ };

    ghost view = { λ p. p.count };

    ghost invariant = { λ p. (0 < p.count) × (p.part ≡ part_of p.count) };
}

impl Picker {
    #[tactic(auto, unfolding(crate::specs::internal::Picker::part_of))]
    pub fn new(count: u32) -> Picker
        requires { 0 < count }
        ensures { result ≡ count }
    {
        Picker {
            count,
            part: (u64::MAX / u64::from(count)).wrapping_add(1),
        }
    }

    /// The remainder of a word: how far its multiple of the part is into a round of 2^64, in parts.
    #[inline(always)]
    pub fn pick(&self, word: u32) -> u32
        ensures { result ≡ word % self.now }
    {
        let round = self.part.wrapping_mul(u64::from(word));
        ((u128::from(round) * u128::from(self.count)) >> 64) as u32
    }
}
