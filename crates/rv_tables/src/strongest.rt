//! Which of several reports a race is told by.
ghost use Rattle.std.specs.Prelude.{◌≡◌};
ghost use Rattle.rv_tables.specs.Strongest as spec;

/// Of two that a race may be told by, each with the rank of its class, the later only where its class is the stronger.
/// The stronger class has the lower rank.
pub(crate) fn first_strongest<T: Copy>(first: (T, u8), later: (T, u8)) -> T
    ensures { result ≡ spec.first_strongest first later }
{
    if later.1 < first.1 { later.0 } else { first.0 }
}
