//! Writers that gather small pieces.
use super::devices::Sink;
use crate::assertion::{assert_at, assert_is};
use rv_memory::buffered::Buffered;
use rv_memory::flagged::{Flagged, WriteFault};
use rv_memory::output::Output;
use std::alloc::Global;
use std::process::Abort;

fn over(alloc: Global, most: usize, fails_at: u64) -> Buffered<Sink> {
    Buffered::new(alloc, Sink::new(alloc, most, fails_at))
}

fn assert_puts<O: Output>(rt: &impl Abort, writer: &mut O, piece: &[u8]) {
    let put = writer.put(piece);
    assert_is(rt, put, Ok(()), "a piece");
}

/// The writer finishes, and its device has not failed.
fn assert_finishes(rt: &impl Abort, writer: &mut Buffered<Sink>) {
    let finished = writer.finish();
    let found = (finished, writer.failed());
    assert_is(rt, found, (Ok(()), false), "the end");
}

#[test]
fn gathers_pieces_for_one_write(rt: HostRuntime) {
    let mut writer = over(rt.alloc(), 100, 0);
    assert_puts(&rt, &mut writer, &[1, 2]);
    assert_puts(&rt, &mut writer, &[]);
    assert_puts(&rt, &mut writer, &[3]);
    assert_finishes(&rt, &mut writer);
    let device = writer.into_inner();
    assert_is(&rt, device.taken.as_slice(), &[1, 2, 3], "taken");
    assert_is(&rt, device.calls, 2, "one write and the flush");
}

#[test]
fn sends_nothing_before_it_has_to(rt: HostRuntime) {
    let mut writer = over(rt.alloc(), 100, 0);
    assert_puts(&rt, &mut writer, &[1, 2]);
    assert_is(&rt, writer.into_inner().calls, 0, "calls");
}

/// The byte that a piece is made of, and the piece's length.
const PIECES: [(u8, usize); 7] = [
    (1, 4000),
    (2, 96),
    (3, 1),
    (4, 5000),
    (5, 4095),
    (6, 2),
    (7, 4097),
];

/// Puts a piece, and notes its bytes among all that was put.
fn put_one(rt: &impl Abort, writer: &mut Buffered<Sink>, piece: &[u8], wanted: &mut Vec<u8>) {
    assert_puts(rt, writer, piece);
    wanted.extend_from_slice(piece).expect(rt, "refused");
}

/// Puts all pieces, and notes what was put.
fn put_all(rt: &impl Abort, alloc: Global, writer: &mut Buffered<Sink>, wanted: &mut Vec<u8>) {
    for (byte, length) in &PIECES {
        let piece = vec![in alloc; *byte; *length].expect(rt, "refused");
        put_one(rt, writer, &piece, wanted);
    }
}

fn assert_keeps_the_order(rt: &impl Abort, alloc: Global, most: usize) {
    let mut wanted = Vec::new(alloc);
    let mut writer = over(alloc, most, 0);
    put_all(rt, alloc, &mut writer, &mut wanted);
    assert_finishes(rt, &mut writer);
    let device = writer.into_inner();
    assert_is(rt, device.taken.as_slice(), wanted.as_slice(), "taken");
}

/// The pieces reach the device in order, however many bytes it takes a call, and also where a piece is longer
/// than what is gathered.
#[test]
fn keeps_the_order(rt: HostRuntime) {
    for most in [999, 4096, 100_000] {
        assert_keeps_the_order(&rt, rt.alloc(), most);
    }
}

/// What three pieces and the flush answer, over a device whose call of that number fails. It is a fault just
/// where the device has failed.
fn outcome_of(rt: &impl Abort, alloc: Global, fails_at: u64) -> Result<(), WriteFault> {
    let mut writer = over(alloc, 3000, fails_at);
    let piece = [9; 3000];
    let mut outcome = Ok(());
    for _ in 0..3 {
        outcome = outcome.and_then(|()| writer.put(&piece));
    }
    outcome = outcome.and_then(|()| writer.finish());
    assert_at(
        rt,
        writer.failed(),
        outcome.is_err(),
        "failed at call",
        fails_at,
    );
    outcome
}

/// Three writes and a flush; each that fails is told, and none else.
#[test]
fn tells_each_failure(rt: HostRuntime) {
    let alloc = rt.alloc();
    for fails_at in 1..5 {
        let outcome = outcome_of(&rt, alloc, fails_at);
        assert_at(&rt, outcome, Err(WriteFault), "at call", fails_at);
    }
    let outcome = outcome_of(&rt, alloc, 5);
    assert_is(&rt, outcome, Ok(()), "four calls are all");
}

#[test]
fn takes_pieces_unbuffered_too(rt: HostRuntime) {
    let mut writer = Flagged::new(Sink::new(rt.alloc(), 2, 0));
    assert_puts(&rt, &mut writer, &[1, 2, 3]);
    assert_puts(&rt, &mut writer, &[4]);
    assert_is(&rt, writer.failed(), false, "failed");
    let device = writer.into_inner();
    assert_is(&rt, device.taken.as_slice(), &[1, 2, 3, 4], "taken");
}
