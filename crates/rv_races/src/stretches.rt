//! Which entries are shown around the places that a report is about, as `specs/Stretches.antt` has it.
ghost use Rattle.std.specs.Prelude.{◌≡◌, ◌<◌};
ghost use Rattle.rv_races.specs.Stretches as spec;

fn is_close(around: u32, at: u32, place: u32) -> bool
    ensures { result ≡ spec.is_close around at place }
{
    u64::from(place) <= u64::from(at) + u64::from(around)
        && u64::from(at) <= u64::from(place) + u64::from(around)
}

fn is_near(around: u32, places: &[u32], at: u32) -> bool
    ensures { result ≡ spec.is_near around places.now at }
{
    places.iter().any(|place| is_close(around, at, *place))
}

/// Whether an entry is shown: near to one of the places, or alone between two that are.
pub fn is_shown(around: u32, places: &[u32], at: u32) -> bool
    requires { at < 4_294_967_295 }
    ensures { result ≡ spec.is_shown around places.now at }
{
    is_near(around, places, at)
        || is_near(around, places, at.saturating_sub(1)) && is_near(around, places, at + 1)
}
