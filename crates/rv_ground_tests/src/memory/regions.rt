//! Copies of regions.
use crate::assertion::assert_is;
use rv_memory::region::Region;
use std::alloc::Global;
use std::process::Abort;

fn region(rt: &impl Abort, alloc: Global) -> Region {
    let bytes = Vec::from_slice(alloc, &[1, 2, 3]).expect(rt, "refused");
    Region {
        start: 0xFFFF_FFF0,
        bytes,
        len: 16,
        r: true,
        w: false,
        x: true,
    }
}

/// The copy of a region that is no more.
fn copied(rt: &impl Abort, alloc: Global) -> Region {
    let region = region(rt, alloc);
    region.copy(alloc).expect(rt, "refused")
}

#[test]
fn copies(rt: HostRuntime) {
    let copy = copied(&rt, rt.alloc());
    assert_is(&rt, (copy.start, copy.len), (0xFFFF_FFF0, 16), "the place");
    assert_is(&rt, copy.bytes.as_slice(), &[1, 2, 3], "the bytes");
    let permissions = (copy.r, copy.w, copy.x);
    assert_is(&rt, permissions, (true, false, true), "the permissions");
}
