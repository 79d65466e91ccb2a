ghost use Rattle.std.specs.Prelude.{◌≡◌, ℕ, List, replicate, slice_index};
ghost use Rattle.rv_hart.specs.Registers as spec;

use std::marker::Model;

/// A hart's 32 registers. What stands in x0's place is always 0, so that a read needs no test for it.
#[derive(Clone, Copy, PartialEq, Eq)]
pub struct Registers {
    values: [u32; 32],
}

impl Model for Registers {
    ghost Value = { List ℕ };

    ghost view = { λ r. r.values };

    ghost invariant = { λ r. slice_index r.values 0 ≡ 0 };

    ghost inverse = { λ values. record { values = values } };
}

impl Registers {
    /// Registers that are all 0.
    pub fn zeros() -> Registers
        ensures { result ≡ replicate 32 0 }
    {
        Registers { values: [0; 32] }
    }

    /// A register's value; x0's is 0.
    #[inline(always)]
    #[tactic(auto, using(crate::proofs::RegisterLemmas::read_at))]
    pub fn read(&self, register: u8) -> u32
        ensures { result ≡ spec.get self.now register }
    {
        if register < 32 {
            self.values[register as usize]
        } else {
            0
        }
    }

    /// Sets a register, but for x0.
    #[inline(always)]
    #[tactic(auto, using(crate::proofs::RegisterLemmas::zero_stays))]
    pub fn write(&mut self, register: u8, value: u32)
        ensures { self.new ≡ spec.set self.old register value }
    {
        if 0 < register && register < 32 {
            self.values[register as usize] = value;
        }
    }
}
