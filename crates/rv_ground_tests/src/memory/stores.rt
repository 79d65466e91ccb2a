//! The stores of the tests, and what each kind of store is asked.
ghost use Rattle.std.specs.Prelude.{All};
ghost use Rattle.rv_memory.specs.Extent.{IsExtent};

use crate::assertion::{assert_at, assert_is};
use crate::parts::{Permissions, region};
use rv_memory::region::Region;
use rv_memory::store::{ByteStore, MemFault, Need};
use std::alloc::Global;
use std::process::Abort;

/// Where a region begins, its bytes, its length, and its permissions.
pub type Row = (u32, &'static [u8], u32, Permissions);

/// All that a region may be.
pub const RWX: Permissions = (true, true, true);

fn regions(rt: &impl Abort, alloc: Global, rows: &[Row]) -> Vec<Region>
    ensures { All IsExtent result.items }
{
    let mut regions = Vec::new(alloc);
    for (start, bytes, len, permissions) in rows {
        assert!(rt; 1 <= *len && bytes.len() <= *len as usize);
        let region = region(alloc, *start, bytes, *len, *permissions).expect(rt, "memory");
        regions.push(region).expect(rt, "memory");
    }
    regions
}

/// A store of regions.
pub fn store_of<S: ByteStore>(rt: &impl Abort, alloc: Global, rows: &[Row]) -> S {
    let regions = regions(rt, alloc, rows);
    S::make(alloc, &regions).expect(rt, "refused")
}

/// Which bytes are loaded, and the number that they are where they lie in one region.
pub type Loaded = (u32, u8, Option<u32>);

/// The bytes as a number, or none where they do not lie in one region.
pub fn load<S: ByteStore>(store: &S, address: u32, size: u8) -> Option<u32> {
    if matches!(size, 1 | 2 | 4) && store.permits(address, size, Need::Nothing) {
        Some(store.load(address, size))
    } else {
        None
    }
}

/// The same where the bytes are permitted, by one call.
pub fn load_permitted<S: ByteStore>(store: &S, address: u32, size: u8, need: Need) -> Option<u32> {
    if matches!(size, 1 | 2 | 4) {
        store.load_permitted(address, size, need)
    } else {
        None
    }
}

/// Asserts what is loaded, and that the one call gives it too.
pub fn assert_loads<S: ByteStore>(rt: &impl Abort, store: &S, rows: &[Loaded], need: Need) {
    for (address, size, wanted) in rows {
        let at = u64::from(*address);
        let found = (*size, load(store, *address, *size));
        assert_at(rt, found, (*size, *wanted), "a size at", at);
        let found = (*size, load_permitted(store, *address, *size, need));
        assert_at(rt, found, (*size, *wanted), "by one call, a size at", at);
    }
}

/// The places and lengths of two regions without given bytes, and the fault that they make.
pub type Faulty = ((u32, u32), (u32, u32), Option<MemFault>);

fn fault_of<S: ByteStore>(
    rt: &impl Abort,
    alloc: Global,
    one: (u32, u32),
    other: (u32, u32),
) -> Option<MemFault> {
    let regions = regions(
        rt,
        alloc,
        &[(one.0, &[], one.1, RWX), (other.0, &[], other.1, RWX)],
    );
    S::make(alloc, &regions).err()
}

pub fn assert_faults<S: ByteStore>(rt: &impl Abort, alloc: Global, rows: &[Faulty]) {
    for (one, other, wanted) in rows {
        let fault = fault_of::<S>(rt, alloc, *one, *other);
        let wanted = (*one, *other, *wanted);
        assert_is(rt, (*one, *other, fault), wanted, "two regions");
    }
}
