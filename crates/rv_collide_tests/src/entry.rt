//! The room that an entry takes.
use crate::assertion::assert_is;
use rv_collide::entry::Entry;

/// Room is eight bytes an entry.
#[test]
fn is_small(rt: HostRuntime) {
    assert_is(&rt, size_of::<Entry>(), 8, "bytes");
}
