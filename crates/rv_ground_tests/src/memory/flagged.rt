//! Readers and writers that remember a failure.
use super::devices::{Sink, Trickle};
use crate::assertion::{assert_at, assert_is};
use rv_memory::flagged::{
    Flagged, INPUT_LIMIT, ReadFault, WriteFault, flush, read_whole, write_whole,
};
use std::alloc::Global;
use std::io::{Read, Write};
use std::process::Abort;

fn of_bytes(bytes: u64, fails_at: u64) -> Flagged<Trickle> {
    Flagged::new(Trickle::new(bytes, fails_at))
}

fn assert_reads<R: Read>(
    rt: &impl Abort,
    alloc: Global,
    reader: &mut Flagged<R>,
    limit: usize,
    wanted: &[u8],
) {
    let bytes = read_whole(alloc, reader, limit).ok().expect(rt, "refused");
    assert_is(rt, bytes.as_slice(), wanted, "the bytes");
}

#[test]
fn reads_whole(rt: HostRuntime) {
    let mut reader = of_bytes(3, 0);
    assert_reads(&rt, rt.alloc(), &mut reader, 3, &[7, 7, 7]);
    assert_is(&rt, reader.failed(), false, "failed");
}

const TEXT: &[u8] = &[1, 2, 3, 4, 5];

#[test]
fn reads_a_slice_whole(rt: HostRuntime) {
    let mut reader = Flagged::new(TEXT);
    assert_reads(&rt, rt.alloc(), &mut reader, 5, TEXT);
    assert_is(&rt, reader.into_inner().len(), 0, "bytes left");
    assert_reads(&rt, rt.alloc(), &mut Flagged::new(TEXT), INPUT_LIMIT, TEXT);
}

#[test]
fn reads_more_than_a_buffer(rt: HostRuntime) {
    let alloc = rt.alloc();
    let bytes = vec![in alloc; 7; 10_000].expect(&rt, "refused");
    assert_reads(&rt, alloc, &mut of_bytes(10_000, 0), INPUT_LIMIT, &bytes);
}

/// The refusal of `read_whole`, or none.
fn refusal<R: Read>(alloc: Global, reader: &mut Flagged<R>, limit: usize) -> Option<ReadFault> {
    read_whole(alloc, reader, limit).err()
}

/// The byte after the limit is seen, and no more.
#[test]
fn refuses_a_byte_past_the_limit(rt: HostRuntime) {
    let mut endless = of_bytes(u64::MAX, 0);
    let refused = refusal(rt.alloc(), &mut endless, 9);
    assert_is(&rt, refused, Some(ReadFault::TooLong), "a tenth byte");
    assert_is(&rt, endless.failed(), false, "failed");
    assert_is(&rt, endless.into_inner().reads, 10, "reads");
}

#[test]
fn refuses_a_slice_past_the_limit(rt: HostRuntime) {
    let refused = refusal(rt.alloc(), &mut Flagged::new(TEXT), 4);
    assert_is(&rt, refused, Some(ReadFault::TooLong), "a fifth byte");
    let empty: &[u8] = &[];
    let refused = refusal(rt.alloc(), &mut Flagged::new(empty), 0);
    assert_is(&rt, refused, None, "no byte");
}

/// Of three bytes, with a read that fails: whether the reader has failed before, its refusal, and whether it
/// has failed after.
fn failures(alloc: Global, fails_at: u64) -> (bool, Option<ReadFault>, bool) {
    let mut reader = of_bytes(3, fails_at);
    let before = reader.failed();
    let refused = refusal(alloc, &mut reader, 100);
    (before, refused, reader.failed())
}

/// Four reads suffice for three bytes. Each that fails is told, and none else.
#[test]
fn refuses_a_failed_read(rt: HostRuntime) {
    for fails_at in 1..6 {
        let fails = fails_at < 5;
        let want = (false, fails.then_some(ReadFault::Read), fails);
        let found = failures(rt.alloc(), fails_at);
        assert_at(&rt, found, want, "at read", fails_at);
    }
}

fn taking(alloc: Global, most: usize, fails_at: u64) -> Flagged<Sink> {
    Flagged::new(Sink::new(alloc, most, fails_at))
}

/// What a write answers, and whether the writer has failed after it.
fn assert_written(
    rt: &impl Abort,
    writer: &mut Flagged<Sink>,
    bytes: &[u8],
    wanted: (Result<(), WriteFault>, bool),
    what: &str,
) {
    let written = write_whole(writer, bytes);
    assert_is(rt, (written, writer.failed()), wanted, what);
}

/// What a flush answers, and whether the writer has failed after it.
fn assert_flushed(
    rt: &impl Abort,
    writer: &mut Flagged<Sink>,
    wanted: (Result<(), WriteFault>, bool),
) {
    let flushed = flush(writer);
    assert_is(rt, (flushed, writer.failed()), wanted, "the flush");
}

/// Six bytes in two pieces and a flush, by writes of at most so many.
fn assert_writes(rt: &impl Abort, alloc: Global, most: usize) {
    let mut writer = taking(alloc, most, 0);
    assert_written(rt, &mut writer, TEXT, (Ok(()), false), "five bytes");
    assert_written(rt, &mut writer, &[6], (Ok(()), false), "a sixth");
    assert_flushed(rt, &mut writer, (Ok(()), false));
    let taken = writer.into_inner().taken;
    assert_is(rt, taken.as_slice(), &[1, 2, 3, 4, 5, 6], "taken");
}

#[test]
fn writes_whole(rt: HostRuntime) {
    for most in [1, 2, 5, 9] {
        assert_writes(&rt, rt.alloc(), most);
    }
}

#[test]
fn writes_nothing_of_no_bytes(rt: HostRuntime) {
    let mut writer = taking(rt.alloc(), 0, 1);
    assert_written(&rt, &mut writer, &[], (Ok(()), false), "no bytes");
}

/// Of a write that fails: its refusal, whether the writer has failed, and how many bytes were taken before it.
fn refused_write(alloc: Global, fails_at: u64) -> (Result<(), WriteFault>, bool, usize) {
    let mut writer = taking(alloc, 1, fails_at);
    let written = write_whole(&mut writer, &[1, 2, 3]);
    let failed = writer.failed();
    (written, failed, writer.into_inner().taken.len())
}

/// Each write that fails is told, with what was taken before it.
#[test]
fn refuses_a_failed_write(rt: HostRuntime) {
    for taken in 0..3 {
        let fails_at = taken as u64 + 1;
        let found = refused_write(rt.alloc(), fails_at);
        assert_at(
            &rt,
            found,
            (Err(WriteFault), true, taken),
            "at write",
            fails_at,
        );
    }
}

#[test]
fn refuses_a_writer_that_takes_none(rt: HostRuntime) {
    let mut full = taking(rt.alloc(), 0, 0);
    assert_written(&rt, &mut full, &[1], (Err(WriteFault), true), "a byte");
}

/// What follows goes on to the writer, and the failure stays.
#[test]
fn refuses_a_failed_flush(rt: HostRuntime) {
    let mut writer = taking(rt.alloc(), 1, 1);
    assert_flushed(&rt, &mut writer, (Err(WriteFault), true));
    assert_written(&rt, &mut writer, &[1], (Ok(()), true), "a write after it");
}

/// Whether a read is answered, and whether the reader has failed then.
fn read_once(reader: &mut Flagged<Trickle>) -> (bool, bool) {
    let answered = reader.read(&mut [0; 4]).is_ok();
    (answered, reader.failed())
}

#[test]
fn notes_a_failed_read_through_the_trait(rt: HostRuntime) {
    let mut reader = of_bytes(3, 2);
    let first = read_once(&mut reader);
    assert_is(&rt, first, (true, false), "the first read");
    let second = read_once(&mut reader);
    assert_is(&rt, second, (false, true), "the failed read");
    let third = read_once(&mut reader);
    assert_is(&rt, third, (true, true), "the failure stays");
}

/// Whether a write is answered, and whether the writer has failed then.
fn write_once(writer: &mut Flagged<Sink>, bytes: &[u8]) -> (bool, bool) {
    let answered = writer.write(bytes).is_ok();
    (answered, writer.failed())
}

#[test]
fn notes_a_refused_write_through_the_trait(rt: HostRuntime) {
    let mut writer = taking(rt.alloc(), 0, 0);
    let none = write_once(&mut writer, &[]);
    assert_is(&rt, none, (true, false), "no bytes to take");
    let one = write_once(&mut writer, &[1]);
    assert_is(&rt, one, (true, true), "it took none");
}
