//! A store that keeps its bytes region by region.
use super::stores::{
    Faulty, Loaded, RWX, Row, assert_faults, assert_loads, load, load_permitted, store_of,
};
use crate::assertion::{assert_at, assert_is};
use rv_memory::flat::Flat;
use rv_memory::store::{ByteStore, MemFault, Need};
use std::process::Abort;

const NUMBER: [Row; 1] = [(0x1000, &[0x78, 0x56, 0x34, 0x12], 8, RWX)];

const LITTLE_ENDIAN: [Loaded; 7] = [
    (0x1000, 4, Some(0x1234_5678)),
    (0x1001, 2, Some(0x3456)),
    (0x1003, 1, Some(0x12)),
    (0x1002, 4, Some(0x1234)),
    (0x1004, 4, Some(0)),
    (0x1005, 4, None),
    (0x0FFF, 1, None),
];

#[test]
fn reads_little_endian_and_zeros(rt: HostRuntime) {
    let flat: Flat = store_of(&rt, rt.alloc(), &NUMBER);
    assert_loads(&rt, &flat, &LITTLE_ENDIAN, Need::Nothing);
}

/// Stores the number where the bytes lie in one region, and says whether they do.
fn store(store: &mut Flat, address: u32, size: u8, value: u32) -> bool {
    if matches!(size, 1 | 2 | 4)
        && store.permits(address, size, Need::Nothing)
        && store.ready(address, size).is_ok()
    {
        store.store(address, size, value);
        true
    } else {
        false
    }
}

/// A store's address, size and value, whether it is made, and the two words from 1000 on after it.
type Stored = (u32, u8, u32, bool, [u32; 2]);

const EIGHT: [Row; 1] = [(0x1000, &[0xEE; 8], 8, RWX)];

const STORES: [Stored; 4] = [
    (0x1001, 1, 0x0000_01FF, true, [0xEEEE_FFEE, 0xEEEE_EEEE]),
    (0x1002, 2, 0x7777_ABCD, true, [0xABCD_FFEE, 0xEEEE_EEEE]),
    (0x1003, 4, 0x0403_0201, true, [0x01CD_FFEE, 0xEE04_0302]),
    (0x1005, 4, 0, false, [0x01CD_FFEE, 0xEE04_0302]),
];

fn assert_stores(rt: &impl Abort, flat: &mut Flat, rows: &[Stored]) {
    for (address, size, value, made, words) in rows {
        let stored = store(flat, *address, *size, *value);
        let found = (stored, load(flat, 0x1000, 4), load(flat, 0x1004, 4));
        let wanted = (*made, Some(words[0]), Some(words[1]));
        assert_at(rt, found, wanted, "after", u64::from(*address));
    }
}

#[test]
fn stores_the_low_bytes_alone(rt: HostRuntime) {
    let mut flat: Flat = store_of(&rt, rt.alloc(), &EIGHT);
    assert_stores(&rt, &mut flat, &STORES);
}

/// Regions of four bytes at 1000, without W and X, at 1004, without R, and at the last word.
const GUARDED: [Row; 3] = [
    (0x1000, &[], 4, (true, false, false)),
    (0x1004, &[], 4, (false, true, true)),
    (0xFFFF_FFFC, &[9], 4, RWX),
];

const PERMITTED: [(u32, u8, Need, bool); 14] = [
    (0x1000, 4, Need::Read, true),
    (0x1004, 4, Need::Write, true),
    // across two regions
    (0x1002, 4, Need::Nothing, false),
    (0x1003, 2, Need::Nothing, false),
    (0x1003, 1, Need::Nothing, true),
    (0x1000, 1, Need::Write, false),
    (0x1000, 1, Need::ReadWrite, false),
    (0x1000, 1, Need::Execute, false),
    (0x1004, 1, Need::Read, false),
    (0x1004, 1, Need::ReadWrite, false),
    (0x1004, 1, Need::Execute, true),
    (0xFFFF_FFFC, 4, Need::ReadWrite, true),
    (0xFFFF_FFFF, 1, Need::ReadWrite, true),
    // past the last address
    (0xFFFF_FFFD, 4, Need::Nothing, false),
];

fn assert_permits(rt: &impl Abort, flat: &Flat, rows: &[(u32, u8, Need, bool)]) {
    for (address, size, need, wanted) in rows {
        let found = (*size, *need, flat.permits(*address, *size, *need));
        let wanted = (*size, *need, *wanted);
        assert_at(rt, found, wanted, "a size and need at", u64::from(*address));
    }
}

const LAST_WORD: [Loaded; 2] = [(0xFFFF_FFFC, 4, Some(9)), (0xFFFF_FFFF, 2, None)];

#[test]
fn permits_within_one_region(rt: HostRuntime) {
    let flat: Flat = store_of(&rt, rt.alloc(), &GUARDED);
    assert_permits(&rt, &flat, &PERMITTED);
    assert_loads(&rt, &flat, &LAST_WORD, Need::Nothing);
}

const FAULTS: [Faulty; 9] = [
    // past the end, and shared
    ((0xFFFF_FFFF, 2), (0xFFFF_FFFF, 2), Some(MemFault::PastEnd)),
    // past the end, and too large
    (
        (0, 0x0100_0000),
        (0xFF00_0000, 0x0100_0001),
        Some(MemFault::PastEnd),
    ),
    // shared, and too large
    (
        (0x1000, 0x0100_0000),
        (0x1000, 0x0100_0000),
        Some(MemFault::Overlap),
    ),
    // the last address, in either order
    ((0x1000, 4), (0x1003, 1), Some(MemFault::Overlap)),
    ((0x1003, 1), (0x1000, 4), Some(MemFault::Overlap)),
    // adjacent
    ((0x1000, 4), (0x1004, 1), None),
    // up to 2^32
    ((0xFFFF_FFFE, 2), (0, 1), None),
    ((0, 17_825_792), (0x2000_0000, 1), Some(MemFault::TooLarge)),
    // just the limit
    ((0, 17_825_791), (0x2000_0000, 1), None),
];

#[test]
fn tells_the_first_fault(rt: HostRuntime) {
    assert_faults::<Flat>(&rt, rt.alloc(), &FAULTS);
}

/// Four given bytes and two zeros, without W.
const CODE: [Row; 1] = [(0x1000, &[0x78, 0x56, 0x34, 0x92], 6, (true, false, true))];

/// What the code gives to each need that it permits.
const GIVEN: [Loaded; 4] = [
    (0x1000, 4, Some(0x9234_5678)),
    (0x1002, 2, Some(0x9234)),
    (0x1003, 1, Some(0x92)),
    (0x1003, 4, None),
];

fn assert_refused(rt: &impl Abort, flat: &Flat, need: Need) {
    let given = load_permitted(flat, 0x1000, 4, need);
    assert_is(rt, (need, given), (need, None), "a need");
}

#[test]
fn loads_where_permitted(rt: HostRuntime) {
    let flat: Flat = store_of(&rt, rt.alloc(), &CODE);
    assert_loads(&rt, &flat, &GIVEN, Need::Nothing);
    assert_loads(&rt, &flat, &GIVEN, Need::Read);
    assert_loads(&rt, &flat, &GIVEN, Need::Execute);
    assert_refused(&rt, &flat, Need::Write);
    assert_refused(&rt, &flat, Need::ReadWrite);
}

const MANY: [Row; 8] = [
    (0xFFFF_FFFC, &[1, 2, 3, 4], 4, RWX),
    (0, &[0xA0], 0x4000, RWX),
    (0x8000, &[0xA1], 0x4000, RWX),
    (0x1_8000, &[0xA2], 0x4000, RWX),
    (0x1_0000, &[0xA3], 0x4000, RWX),
    (0x1FF_FFFE, &[5, 6, 7, 8], 4, RWX),
    (0x300_0000, &[9], 0x2_0001, RWX),
    (0x302_0001, &[10], 1, RWX),
];

const AMONG_MANY: [Loaded; 23] = [
    (0, 4, Some(0xA0)),
    (0x3FFE, 2, Some(0)),
    (0x3FFE, 4, None),
    (0x4000, 1, None),
    (0x8000, 4, Some(0xA1)),
    (0xBFFE, 2, Some(0)),
    (0xBFFE, 4, None),
    (0xC000, 1, None),
    (0x1_8000, 4, Some(0xA2)),
    (0x1_BFFE, 2, Some(0)),
    (0x1_BFFE, 4, None),
    (0x1_C000, 1, None),
    (0x1_0000, 4, Some(0xA3)),
    (0x1_3FFE, 2, Some(0)),
    (0x1_3FFE, 4, None),
    (0x1_4000, 1, None),
    (0xFFFF_FFFC, 4, Some(0x0403_0201)),
    (0xFFFF_FFFD, 4, None),
    (0x1FF_FFFE, 4, Some(0x0807_0605)),
    (0x1FF_FFFF, 2, Some(0x0706)),
    (0x302_0000, 1, Some(0)),
    (0x302_0001, 1, Some(10)),
    (0x302_0000, 2, None),
];

fn assert_among_many(rt: &impl Abort, flat: &mut Flat) {
    assert_loads(rt, flat, &AMONG_MANY, Need::Nothing);
    let stored = store(flat, 0x301_0000, 4, 0x1234_5678);
    let found = (stored, load(flat, 0x301_0000, 4));
    assert_is(rt, found, (true, Some(0x1234_5678)), "in a region's middle");
}

#[test]
fn finds_the_region_among_many(rt: HostRuntime) {
    let mut flat: Flat = store_of(&rt, rt.alloc(), &MANY);
    assert_among_many(&rt, &mut flat);
}

/// Four bytes EE at 1000, without W, and eight at 1004, without R.
const FIXED_AND_HIDDEN: [Row; 2] = [
    (0x1000, &[0xEE; 4], 4, (true, false, true)),
    (0x1004, &[0xEE; 8], 8, (false, true, true)),
];

/// What is stored where, by which need, and whether it may be.
const STORED: [((u32, u8, u32), Need, bool); 6] = [
    ((0x1004, 4, 0x0403_0201), Need::Write, true),
    ((0x100A, 2, 0x7777_ABCD), Need::Write, true),
    ((0x1000, 1, 0x11), Need::Read, true),
    ((0x1001, 1, 0), Need::Write, false),
    ((0x1004, 4, 0), Need::ReadWrite, false),
    ((0x100B, 2, 0), Need::Write, false),
];

const AFTER_SIX: [Loaded; 3] = [
    (0x1000, 4, Some(0xEEEE_EE11)),
    (0x1004, 4, Some(0x0403_0201)),
    (0x1008, 4, Some(0xABCD_EEEE)),
];

fn assert_stored(rt: &impl Abort, flat: &mut Flat, rows: &[((u32, u8, u32), Need, bool)]) {
    for (stored, need, wanted) in rows {
        let (address, size, value) = *stored;
        assert!(rt; matches!(size, 1 | 2 | 4));
        let found = flat.store_permitted(address, size, value, *need);
        assert_is(rt, (stored, found), (stored, *wanted), "a store");
    }
}

#[test]
fn stores_where_permitted(rt: HostRuntime) {
    let mut flat: Flat = store_of(&rt, rt.alloc(), &FIXED_AND_HIDDEN);
    assert_stored(&rt, &mut flat, &STORED);
    assert_loads(&rt, &flat, &AFTER_SIX, Need::Nothing);
}

/// Data at 1000, code at 2000 and more code at 3000.
const DATA_AND_CODE: [Row; 3] = [
    (0x1000, &[0xEE; 8], 8, (true, true, false)),
    (0x2000, &[0x13, 0x05, 0xA0, 0x02], 8, RWX),
    (0x3000, &[1], 4, RWX),
];

const FETCHED: [(u32, Option<u32>); 5] = [
    (0x2000, Some(0x02A0_0513)),
    (0x2004, Some(0)),
    (0x2005, None),
    (0x1000, None),
    (0x3000, None),
];

fn assert_fetches(rt: &impl Abort, flat: &Flat, rows: &[(u32, Option<u32>)]) {
    for (address, word) in rows {
        assert_at(
            rt,
            flat.fetch_at_once(*address),
            *word,
            "at",
            u64::from(*address),
        );
    }
}

/// A word is found at once in the first executable region alone.
#[test]
fn fetches_at_once(rt: HostRuntime) {
    let flat: Flat = store_of(&rt, rt.alloc(), &DATA_AND_CODE);
    assert_fetches(&rt, &flat, &FETCHED);
}
