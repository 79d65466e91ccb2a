//! The formats of the text.
ghost use Rattle.std.specs.Prelude.{◌≡◌};
ghost use Rattle.rv_collide.specs.Grammar.{last_slot};

use crate::plan::{DEFAULT_SLOTS, MOST_SLOTS};

/// The formats. The second says the plan's slots and is the one that is written. The first doesn't, and is read as
/// `DEFAULT_SLOTS`.
#[derive(Clone, Copy)]
pub enum Format {
    First,
    Second,
}

impl Format {
    /// The greatest number of a slot.
    pub(crate) fn last_slot(self) -> u32
        ensures { result ≡ last_slot self }
    {
        let slots = match self {
            Format::First => DEFAULT_SLOTS,
            Format::Second => MOST_SLOTS,
        };
        u32::from(slots) - 1
    }
}
