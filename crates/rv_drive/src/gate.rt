//! What a caller may put before the work of threads.
ghost use Rattle.std.specs.Prelude.{IfErr};

use std::convert::Infallible;
use std::marker::{Send, Sync};

/// A caller's gate: a worker enters it before each piece of its work and leaves it afterwards. In a run by threads
/// there is a worker for each hart, and its pieces are turns; in a campaign a piece is a seeded run. It may hold a
/// worker up, or refuse it with a value of the caller's own. For contracts alone it names which values it refuses a
/// worker with.
pub trait Gate: Sync {
    ghost use Rattle.std.specs.Prelude.{ℕ};

    type Shut: Send + Drop;

    ghost shuts: { ℕ → Self.Shut → Type 0 };

    /// Lets a worker in, or refuses it. The number is that of its hart, or in a campaign its own.
    fn enter(&self, hart: u8) -> Result<(), Self::Shut>
        ensures { IfErr result (λ shut. shuts hart shut) };

    /// Follows each `enter` that let in.
    fn leave(&self, hart: u8);
}

/// The gate that always lets in.
#[derive(Clone, Copy, Drop)]
pub struct FreeGate;

impl Gate for FreeGate {
    type Shut = Infallible;

    ghost shuts = { λ _ _. ⊥ };

    fn enter(&self, _hart: u8) -> Result<(), Infallible> {
        Ok(())
    }

    fn leave(&self, _hart: u8) {}
}
