//! Stores that are forked, and then written on each side.
use super::stores::{Loaded, RWX, Row, assert_loads, store_of};
use crate::assertion::assert_is;
use rv_memory::flat::Flat;
use rv_memory::paged::Paged;
use rv_memory::store::{Fork, Need};
use std::process::Abort;

/// Two pages and a bit that begin and end within a page, code that may not be written, and the last page.
const ROWS: [Row; 3] = [
    (0x1FFE, &[1, 2, 3, 4], 0x1004, (true, true, false)),
    (0x8000, &[0x13, 0x05, 0xA0, 0x02], 8, (true, false, true)),
    (0xFFFF_F000, &[7], 0x1000, RWX),
];

/// What may be read of them, given and zeros, to where each ends.
const READ: [Loaded; 8] = [
    (0x1FFE, 4, Some(0x0403_0201)),
    (0x2FFE, 4, Some(0)),
    (0x2FFF, 4, None),
    (0x8000, 4, Some(0x02A0_0513)),
    (0x8004, 4, Some(0)),
    (0x8008, 1, None),
    (0xFFFF_F000, 1, Some(7)),
    (0xFFFF_FFFC, 4, Some(0)),
];

/// Which words may be run.
const RUN: [(u32, Option<u32>); 3] = [
    (0x1FFE, None),
    (0x8000, Some(0x02A0_0513)),
    (0xFFFF_F000, Some(7)),
];

/// Which words may be read and written.
const WRITTEN: [(u32, Option<u32>); 3] = [
    (0x1FFE, Some(0x0403_0201)),
    (0x8000, None),
    (0xFFFF_F000, Some(7)),
];

fn assert_permits<S: Fork>(rt: &impl Abort, store: &S, rows: &[(u32, Option<u32>)], need: Need) {
    for (address, wanted) in rows {
        let found = store.load_permitted(*address, 4, need);
        assert_is(rt, (*address, found), (*address, *wanted), "a word");
    }
}

/// The contents and the permissions are those of the rows.
fn assert_is_whole<S: Fork>(rt: &impl Abort, store: &S) {
    assert_loads(rt, store, &READ, Need::Read);
    assert_permits(rt, store, &RUN, Need::Execute);
    assert_permits(rt, store, &WRITTEN, Need::ReadWrite);
    let fetched = store.fetch_at_once(0x8000);
    assert_is(rt, fetched, Some(0x02A0_0513), "the code at once");
}

fn write<S: Fork>(rt: &impl Abort, store: &mut S, address: u32, value: u32) {
    let is_stored = store.store_permitted(address, 4, value, Need::Write);
    assert_is(rt, is_stored, true, "there is memory for it");
}

/// What three stores have where they write, before and after.
const OLD: [Loaded; 2] = [(0x1FFE, 4, Some(0x0403_0201)), (0xFFFF_FFFC, 4, Some(0))];

const BY_THE_SECOND: [Loaded; 2] = [
    (0x1FFE, 4, Some(0xDDCC_BBAA)),
    (0xFFFF_FFFC, 4, Some(0x1234_5678)),
];

const BY_THE_FIRST: [Loaded; 2] = [(0x1FFE, 4, Some(0x1111_1111)), (0xFFFF_FFFC, 4, Some(0))];

const BY_THE_THIRD: [Loaded; 2] = [
    (0x1FFE, 4, Some(0x0403_0201)),
    (0xFFFF_FFFC, 4, Some(0x3333_3333)),
];

/// A store of a word across two pages, or of one in the last page, is seen by the store that makes it and by none of the
/// other two: the middle one of three writes, then the one that it is a fork of, and then its own fork.
fn write_on_each_side<S: Fork>(rt: &impl Abort, first: &mut S, second: &mut S, third: &mut S) {
    write(rt, second, 0x1FFE, 0xDDCC_BBAA);
    write(rt, second, 0xFFFF_FFFC, 0x1234_5678);
    assert_three(rt, (first, &OLD), (second, &BY_THE_SECOND), (third, &OLD));
    write(rt, first, 0x1FFE, 0x1111_1111);
    assert_three(
        rt,
        (first, &BY_THE_FIRST),
        (second, &BY_THE_SECOND),
        (third, &OLD),
    );
    write(rt, third, 0xFFFF_FFFC, 0x3333_3333);
    assert_three(
        rt,
        (first, &BY_THE_FIRST),
        (second, &BY_THE_SECOND),
        (third, &BY_THE_THIRD),
    );
}

fn assert_three<S: Fork>(
    rt: &impl Abort,
    first: (&S, &[Loaded]),
    second: (&S, &[Loaded]),
    third: (&S, &[Loaded]),
) {
    assert_loads(rt, first.0, first.1, Need::Read);
    assert_loads(rt, second.0, second.1, Need::Read);
    assert_loads(rt, third.0, third.1, Need::Read);
}

fn fork<S: Fork>(rt: &impl Abort, store: &mut S) -> S {
    let fork = store.fork().expect(rt, "refused");
    assert_is_whole(rt, store);
    assert_is_whole(rt, &fork);
    fork
}

fn fork_twice<S: Fork>(rt: &impl Abort, first: &mut S) {
    let mut second = fork(rt, first);
    let mut third = fork(rt, &mut second);
    write_on_each_side(rt, first, &mut second, &mut third);
}

/// A fork stays where the store that it is of is no more.
fn fork_of_one_that_is_gone<S: Fork>(rt: &impl Abort, mut first: S) {
    let second = fork(rt, &mut first);
    write(rt, &mut first, 0x1FFE, 0);
    drop(first);
    assert_is_whole(rt, &second);
}

#[test]
fn flat_forks_go_on_apart(rt: HostRuntime) {
    let mut first: Flat = store_of(&rt, rt.alloc(), &ROWS);
    fork_twice(&rt, &mut first);
    fork_of_one_that_is_gone(&rt, store_of::<Flat>(&rt, rt.alloc(), &ROWS));
}

#[test]
fn paged_forks_go_on_apart(rt: HostRuntime) {
    let mut first: Paged = store_of(&rt, rt.alloc(), &ROWS);
    fork_twice(&rt, &mut first);
    fork_of_one_that_is_gone(&rt, store_of::<Paged>(&rt, rt.alloc(), &ROWS));
}
