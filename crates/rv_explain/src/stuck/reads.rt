//! What the rounds of harts read, and who wrote it last, as `specs/StuckReads.antt` has it.
ghost use Rattle.std.specs.Prelude.{◌≡◌, Some, [], ◌∷◌, IfOk, OnOk, length, map};
ghost use Rattle.std.specs.Option.{option_to_list};
ghost use Rattle.rv_collide.specs.Entries.{stepped_hart};
ghost use Rattle.rv_explain.specs.StuckReads as spec;
ghost use Rattle.rv_explain.specs.internal.Writers as internal;
ghost use Rattle.rv_hart.specs.NextAccess.{accessed, next_access};
ghost use Rattle.rv_hart.specs.Run.{run};
ghost use Rattle.rv_stuck.specs.Acts.{conduct_in};

use super::{ReadBytes, Writer};
use crate::meeting::wrote;
use crate::told::{bytes_in, stepped};
use rv_collide::entry::Entry;
use rv_hart::access::{Access, Event};
use rv_hart::machine::Machine;
use rv_memory::paged::Paged;
use rv_memory::store::NoMemory;
use rv_stuck::Act;
use rv_waits::touched::Range;
use std::alloc::Global;
use std::marker::Model;

/// What the round of a hart reads; nothing of one that doesn't wait.
#[derive(Drop)]
pub(crate) struct RoundReads {
    bytes: Vec<ReadBytes>,
}

impl Model for RoundReads {
    ghost use Rattle.std.specs.Prelude.{List};
    ghost use Rattle.rv_explain.specs.declared.stuck.ReadBytes.{ReadBytes};

    ghost Value = { List ReadBytes };

    ghost view = { λ r. r.bytes.items };
}

impl RoundReads {
    pub(crate) fn bytes(&self) -> &[ReadBytes]
        ensures { result.now ≡ self.now }
    {
        &self.bytes
    }

    /// Names the writer of those bytes that its access writes.
    fn note(&mut self, access: &Access, writer: Writer)
        ensures { self.new ≡ map (internal.noted (Some writer) (Some access.now)) self.old }
    {
        note(&mut self.bytes, access, writer);
    }
}

/// The bytes as an access that reads them.
fn reading(first: u32, size: u8) -> Access
    ensures { result ≡ spec.reading first size }
{
    Access {
        pc: 0,
        first,
        size,
        read: true,
        write: false,
    }
}

/// What each hart reads whose acts these are, with no writer yet.
pub(crate) fn reads_of(
    alloc: Global,
    machine: &Machine<Paged>,
    acts: &[Act],
) -> Result<Vec<RoundReads>, NoMemory>
    ensures { IfOk result (λ reads. reads.items
        ≡ map (internal.reads_unwritten machine.now.state.memory) (map conduct_in acts.now)) }
{
    let mut reads = Vec::new(alloc);
    for h in 0..acts.len() {
        let bytes = reads_in(alloc, machine, &acts[h])?;
        reads.push(RoundReads { bytes })?;
    }
    Ok(reads)
}

fn reads_in(alloc: Global, machine: &Machine<Paged>, act: &Act) -> Result<Vec<ReadBytes>, NoMemory>
    ensures { IfOk result (λ reads. reads.items ≡ internal.reads_unwritten machine.now.state.memory (conduct_in act.now)) }
{
    match act {
        Act::Exited | Act::Stopped | Act::Parked => Ok(Vec::new(alloc)),
        Act::Polls(polled) => reads_by(alloc, machine, &polled.reads),
    }
}

fn reads_by(
    alloc: Global,
    machine: &Machine<Paged>,
    ranges: &[Range],
) -> Result<Vec<ReadBytes>, NoMemory>
    ensures { IfOk result (λ found. found.items ≡ map (internal.unwritten machine.now.state.memory) ranges.now) }
{
    let mut found = Vec::new(alloc);
    for k in 0..ranges.len() {
        found.push(unwritten(machine, ranges[k]))?;
    }
    Ok(found)
}

fn unwritten(machine: &Machine<Paged>, range: Range) -> ReadBytes
    ensures { result ≡ internal.unwritten machine.now.state.memory range }
{
    ReadBytes {
        first: range.first,
        size: range.size,
        value: bytes_in(machine, &reading(range.first, range.size)),
        writer: None,
    }
}

/// Makes a schedule's steps from its start, and names the last writer of all that is read.
pub(crate) fn find_writers(
    machine: &mut Machine<Paged>,
    entries: &[Entry],
    reads: &mut [RoundReads],
) -> Result<(), NoMemory>
    requires { reads.old ≡ map (map (internal.with_writer machine.old.state entries.now 0)) reads.old }
    ensures { OnOk result (reads.new
        ≡ map (map (internal.with_writer machine.old.state entries.now (length entries.now))) reads.old) }
{
    for place in 0..entries.len() {
        note_entry(machine, entries[place], place, reads)?;
    }
    Ok(())
}

/// Makes the step of the entry at a place, if it is one.
fn note_entry(
    machine: &mut Machine<Paged>,
    entry: Entry,
    place: usize,
    reads: &mut [RoundReads],
) -> Result<(), NoMemory>
    ensures state { OnOk result (run machine.old.state (option_to_list (stepped_hart entry)) ≡ Some machine.new.state) }
    ensures reads { OnOk result (reads.new
        ≡ map (map (internal.noted (spec.writer_by place entry (spec.access_by entry machine.old.state))
        (spec.access_by entry machine.old.state))) reads.old) }
{
    match stepped(entry) {
        None => Ok(()),
        Some(hart) => {
            note_step(machine, hart, place, reads)?;
            Ok(())
        }
    }
}

/// Makes a step of a hart, whose entry is at the place.
fn note_step(
    machine: &mut Machine<Paged>,
    hart: u8,
    place: usize,
    reads: &mut [RoundReads],
) -> Result<(), NoMemory>
    ensures state { OnOk result (run machine.old.state (hart ∷ []) ≡ Some machine.new.state) }
    ensures reads { OnOk result (reads.new
        ≡ map (map (internal.noted (spec.written_by hart place (next_access machine.old.state hart))
        (next_access machine.old.state hart))) reads.old) }
{
    let Ok(event) = machine.step(hart) else {
        // The steps were made once: nothing but memory refuses one.
        return Err(NoMemory);
    };
    note_access(hart, place, access_in(event), reads);
    Ok(())
}

fn access_in(event: Event) -> Option<Access>
    ensures { result ≡ accessed event }
{
    match event {
        Event::Moved(access) => access,
        Event::Exited(_) | Event::Stopped(_) => None,
    }
}

/// Names the writer of the bytes that the access of a step writes, if it makes one.
fn note_access(hart: u8, place: usize, access: Option<Access>, reads: &mut [RoundReads])
    ensures { reads.new ≡ map (map (internal.noted (spec.written_by hart place access) access)) reads.old }
{
    match access {
        None => {}
        Some(made) => note_made(hart, place, made, reads),
    }
}

fn note_made(hart: u8, place: usize, made: Access, reads: &mut [RoundReads])
    ensures { reads.new ≡ map (map (internal.noted (spec.written_by hart place (Some made)) (Some made))) reads.old }
{
    if made.write {
        let writer = Writer {
            hart,
            entry: place.min(u32::MAX as usize) as u32,
            pc: made.pc,
        };
        note_all(reads, &made, writer);
    }
}

fn note_all(reads: &mut [RoundReads], access: &Access, writer: Writer)
    ensures { reads.new ≡ map (map (internal.noted (Some writer) (Some access.now))) reads.old }
{
    for of_hart in reads.iter_mut() {
        of_hart.note(access, writer);
    }
}

fn note(reads: &mut [ReadBytes], access: &Access, writer: Writer)
    ensures { reads.new ≡ map (internal.noted (Some writer) (Some access.now)) reads.old }
{
    for read in reads.iter_mut() {
        note_one(read, access, writer);
    }
}

fn note_one(read: &mut ReadBytes, access: &Access, writer: Writer)
    ensures { read.new ≡ internal.noted (Some writer) (Some access.now) read.old }
{
    if wrote(&reading(read.first, read.size), &Some(*access)) {
        read.writer = Some(writer);
    }
}
