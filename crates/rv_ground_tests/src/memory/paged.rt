//! A store of shared pages.
use super::stores::{Faulty, Loaded, RWX, Row, assert_faults, assert_loads, store_of};
use crate::assertion::assert_is;
use rv_memory::paged::Paged;
use rv_memory::store::{ByteStore, MemFault, Need};
use std::process::Abort;

/// Two pages and a bit that begin and end within a page, one byte, the last page, and two regions of one page.
const ROWS: [Row; 5] = [
    (0x1FFE, &[1, 2, 3, 4], 0x1004, RWX),
    (0x8123, &[9], 1, RWX),
    (0xFFFF_F000, &[7], 0x1000, RWX),
    (0x5010, &[0x11], 4, RWX),
    (0x5014, &[0x22], 4, RWX),
];

const MADE: [Loaded; 13] = [
    (0x1FFE, 4, Some(0x0403_0201)),
    (0x1FFF, 2, Some(0x0302)),
    (0x2002, 4, Some(0)),
    (0x2FFE, 4, Some(0)),
    (0x2FFF, 4, None),
    (0x1FFD, 1, None),
    (0x8123, 1, Some(9)),
    (0x8123, 2, None),
    (0xFFFF_F000, 1, Some(7)),
    (0xFFFF_FFFC, 4, Some(0)),
    (0xFFFF_FFFD, 4, None),
    (0x5010, 4, Some(0x11)),
    (0x5012, 4, None),
];

#[test]
fn reads_what_it_is_made_of(rt: HostRuntime) {
    let store: Paged = store_of(&rt, rt.alloc(), &ROWS);
    assert_loads(&rt, &store, &MADE, Need::Read);
}

const OLD: [Loaded; 2] = [(0x1FFE, 4, Some(0x0403_0201)), (0xFFFF_FFFC, 4, Some(0))];

const NEW: [Loaded; 2] = [
    (0x1FFE, 4, Some(0xDDCC_BBAA)),
    (0xFFFF_FFFC, 4, Some(0x1234_5678)),
];

fn assert_stored(rt: &impl Abort, store: &mut Paged, address: u32, value: u32) {
    let stored = store.store_permitted(address, 4, value, Need::Write);
    assert_is(rt, stored, true, "there is memory for it");
}

fn assert_three(
    rt: &impl Abort,
    first: &Paged,
    second: &Paged,
    third: &Paged,
    of_first: &[Loaded],
) {
    assert_loads(rt, first, of_first, Need::Read);
    assert_loads(rt, second, &NEW, Need::Read);
    assert_loads(rt, third, &OLD, Need::Read);
}

/// A store across two pages that three stores share is seen by none of the others; then another writes.
fn store_into_shared(rt: &impl Abort, first: &mut Paged, second: &mut Paged, third: &Paged) {
    assert_stored(rt, second, 0x1FFE, 0xDDCC_BBAA);
    assert_stored(rt, second, 0xFFFF_FFFC, 0x1234_5678);
    assert_three(rt, first, second, third, &OLD);
    assert_is(rt, first.ready(0x1FFE, 4), Ok(()), "made ready");
    assert_stored(rt, first, 0x1FFE, 0);
    assert_three(rt, first, second, third, &[(0x1FFE, 4, Some(0))]);
}

#[test]
fn stores_into_shared_pages_alone(rt: HostRuntime) {
    let mut first: Paged = store_of(&rt, rt.alloc(), &ROWS);
    let mut second = first.share().expect(&rt, "refused");
    let third = second.share().expect(&rt, "refused");
    store_into_shared(&rt, &mut first, &mut second, &third);
}

const FAULTS: [Faulty; 4] = [
    // past the end, and shared
    ((0xFFFF_FFFF, 2), (0xFFFF_FFFF, 2), Some(MemFault::PastEnd)),
    // shared, and too large
    (
        (0x1000, 0x0100_0000),
        (0x1000, 0x0100_0000),
        Some(MemFault::Overlap),
    ),
    ((0, 17_825_792), (0x2000_0000, 1), Some(MemFault::TooLarge)),
    // two regions of one page
    ((0x1000, 4), (0x1004, 1), None),
];

#[test]
fn tells_the_first_fault(rt: HostRuntime) {
    assert_faults::<Paged>(&rt, rt.alloc(), &FAULTS);
}
