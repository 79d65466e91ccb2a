ghost use Rattle.std.specs.Prelude.{◌≡◌};
ghost use Rattle.rv_words.specs.declared.fault.WordsFault.TheVariants as variants;

use rv_hart::machine::StepFault;
use rv_memory::store::NoMemory;
use std::alloc::AllocFailed;

/// Why the text of a list of instruction words leads to no machine.
#[derive(Clone, Copy)]
pub enum WordsFault {
    /// The first malformed line, from 1 on.
    Line(u32),
    /// The first step that is refused, from 0 on, and why.
    Step { number: u32, fault: StepFault },
    NoMemory,
}

impl<T: Drop> From<AllocFailed<T>> for WordsFault {
    ghost from_gives = { λ _ made. made ≡ variants.NoMemory };

    fn from(_: AllocFailed<T>) -> WordsFault {
        WordsFault::NoMemory
    }
}

impl From<NoMemory> for WordsFault {
    ghost from_gives = { λ _ made. made ≡ variants.NoMemory };

    fn from(_: NoMemory) -> WordsFault {
        WordsFault::NoMemory
    }
}
