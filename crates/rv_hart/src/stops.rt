//! Addresses of instructions whose access a common step leaves alone.
ghost use Rattle.std.specs.Prelude.{◌≡◌, ℕ, ⊤, true};

/// What keeps a common step from its access, as a debugger's code breakpoints do.
pub trait Stops {
    /// No access of an instruction at this address is kept back.
    ghost passes: { Self → ℕ → Type 0 };

    /// Whether an instruction at an address may make its access. Where it may not, nothing is said: the address may only
    /// look like one at which an access is kept back.
    fn lets_by(&self, pc: u32) -> bool
        ensures { result ≡ true → passes self.now pc };
}

/// No access is kept back.
pub struct NoStops;

impl Stops for NoStops {
    ghost passes = { λ s pc. ⊤ };

    #[inline(always)]
    fn lets_by(&self, _pc: u32) -> bool {
        true
    }
}
