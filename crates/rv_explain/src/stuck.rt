//! What is shown of the end of a schedule that is stuck, as `specs/Stuck.antt` has it: what each hart does, what its round
//! reads, and who wrote that last.
ghost use Rattle.std.specs.Prelude.{◌≡◌, ◌≤◌, List, [], IfOk, IfSome, length, map, slice_get};
ghost use Rattle.std.specs.Option.{unwrap_or};
ghost use Rattle.rv_collide.specs.Entries.{steps};
ghost use Rattle.rv_explain.specs.Stuck as spec;
ghost use Rattle.rv_explain.specs.declared.stuck.ReadBytes.{ReadBytes};
ghost use Rattle.rv_hart.specs.State.{start as first_state};
ghost use Rattle.rv_stuck.specs.declared.stuck.Doing.{Doing};

use crate::told::stepped;
use after::machine_after;
use called::caller_of;
use reads::{RoundReads, find_writers, reads_of};
use rv_collide::collider::machine_of;
use rv_collide::entry::Entry;
use rv_hart::hart::Status;
use rv_hart::machine::{MOST_HARTS, Machine, OUTPUT_LIMIT};
use rv_memory::paged::Paged;
use rv_memory::store::NoMemory;
use rv_stuck::{Doing, RoundStep, StuckEnd, acts_of, stuck_end};
use rv_symbols::symbol_table::SymbolTable;
use std::alloc::Global;

pub(crate) mod after;
mod called;
mod reads;
mod text;

pub(crate) use called::least_pc;
pub use text::{stuck_lines, stuck_text};

/// A step that wrote: its hart, its place among the schedule's entries, and its instruction's address.
#[derive(Clone, Copy)]
pub struct Writer {
    pub hart: u8,
    pub entry: u32,
    pub pc: u32,
}

/// 1, 2 or 4 bytes that a round reads: what they are, as a little-endian number, and the last step that wrote one of them, where
/// there was one.
#[derive(Clone, Copy)]
pub struct ReadBytes {
    pub first: u32,
    pub size: u8,
    pub value: u32,
    pub writer: Option<Writer>,
}

/// A hart that waits: the steps of its round, from the one that is next; what they read, each range once, in ascending order;
/// and where the function at the round's least address returns to, where that is certain. One that reads nothing is parked.
#[derive(Drop)]
pub struct Waiting {
    pub steps: Vec<RoundStep>,
    pub reads: Vec<ReadBytes>,
    pub caller: Option<u32>,
}

/// What a hart does at a stuck end.
#[derive(Drop)]
pub enum StuckHart {
    Exited,
    Stopped,
    Waits(Waiting),
}

/// How a hart is at a stuck end: whether it runs, and the address of its next instruction.
#[derive(Clone, Copy)]
pub struct HartLeft {
    pub status: Status,
    pub pc: u32,
}

/// What is shown of a stuck end: what each hart does and how it is left, in the order of the harts, and after how many steps.
#[derive(Drop)]
pub struct StuckBlock {
    pub harts: Vec<StuckHart>,
    pub left: Vec<HartLeft>,
    pub steps: u32,
}

impl StuckBlock {
    /// Whether some hart polls: its round reads data.
    pub fn polls(&self) -> bool
        ensures { result ≡ spec.some_polls self.now.harts.items }
    {
        self.harts.iter().any(polls)
    }
}

fn polls(hart: &StuckHart) -> bool
    ensures { result ≡ spec.polls hart.now }
{
    match hart {
        StuckHart::Exited | StuckHart::Stopped => false,
        StuckHart::Waits(waiting) => !waiting.reads.is_empty(),
    }
}

/// What is shown of the end of a schedule from an image's start, with so many harts, where that is stuck. None says that this
/// wasn't seen, or that the schedule's steps can't be made. It makes them twice.
pub fn stuck_block(
    alloc: Global,
    symbols: &SymbolTable,
    harts: u8,
    entries: &[Entry],
) -> Result<Option<StuckBlock>, NoMemory>
    requires some { 1 ≤ harts }
    requires within { harts ≤ MOST_HARTS }
    ensures stuck { IfOk result (λ block. IfSome block (λ it.
        spec.IsShownEnd symbols.now.image (first_state symbols.now.image.segments symbols.now.image.entry harts) entries.now it)) }
    ensures steps { IfOk result (λ block. IfSome block (λ it. it.steps ≡ spec.step_count entries.now)) }
{
    let image = symbols.image();
    let Some(mut machine) = machine_after(alloc, image, harts, entries)? else {
        return Ok(None);
    };
    let Some(end) = stuck_end(alloc, &mut machine)? else {
        return Ok(None);
    };
    Ok(Some(block_of(alloc, symbols, harts, &mut machine, &end, entries)?))
}

/// What is shown of a stuck end, by a machine that stands there after a schedule.
fn block_of(
    alloc: Global,
    symbols: &SymbolTable,
    harts: u8,
    machine: &mut Machine<Paged>,
    end: &StuckEnd,
    entries: &[Entry],
) -> Result<StuckBlock, NoMemory>
    requires some { 1 ≤ harts }
    requires within { harts ≤ MOST_HARTS }
    requires count { length end.now.harts.items ≡ length machine.old.state.harts }
    ensures called { IfOk result (λ block. spec.AreCalled symbols.now.image machine.old.state block.harts.items) }
    ensures harts { IfOk result (λ block. map spec.shown_as block.harts.items
        ≡ map (spec.does_after (first_state symbols.now.image.segments symbols.now.image.entry harts) entries.now machine.old.state.memory) end.now.harts.items) }
    ensures steps { IfOk result (λ block. block.steps ≡ spec.step_count entries.now) }
{
    let mut reads = reads_of(alloc, machine, &acts_of(alloc, end)?)?;
    let mut again = machine_of(alloc, symbols.image(), harts, OUTPUT_LIMIT)?;
    find_writers(&mut again, entries, &mut reads)?;
    let left = left_of(alloc, machine)?;
    Ok(StuckBlock {
        harts: harts_of(alloc, symbols, machine, end, &reads)?,
        left,
        steps: count_steps(entries),
    })
}

/// How each hart is.
fn left_of(alloc: Global, machine: &Machine<Paged>) -> Result<Vec<HartLeft>, NoMemory> {
    let mut left = Vec::new(alloc);
    for h in 0..machine.harts() {
        left.push(HartLeft {
            status: machine.status(h),
            pc: machine.pc(h),
        })?;
    }
    Ok(left)
}

/// How many entries are steps, as far as a number of 32 bits says it.
fn count_steps(entries: &[Entry]) -> u32
    ensures { result ≡ spec.step_count entries.now }
{
    let count = count_all_steps(entries);
    count.min(u32::MAX as usize) as u32
}

#[tactic(auto, unfolding(rv_collide::specs::Entries::steps))]
fn count_all_steps(entries: &[Entry]) -> usize
    ensures { result ≡ length (steps entries.now) }
{
    entries.iter().filter_map(|entry| stepped(*entry)).count()
}

/// What each hart does, by a machine that stands at the end. What each round reads is given.
fn harts_of(
    alloc: Global,
    symbols: &SymbolTable,
    machine: &mut Machine<Paged>,
    end: &StuckEnd,
    reads: &[RoundReads],
) -> Result<Vec<StuckHart>, NoMemory>
    requires { length end.now.harts.items ≡ length machine.old.state.harts }
    ensures called { IfOk result (λ harts. spec.AreCalled symbols.now.image machine.old.state harts.items) }
    ensures shown { IfOk result (λ harts. (of : Doing → List ReadBytes) → reads.now ≡ map of end.now.harts.items
        → map spec.shown_as harts.items ≡ map (λ doing. spec.does doing (of doing)) end.now.harts.items) }
{
    let mut harts = Vec::new(alloc);
    for h in 0..machine.harts() {
        let doing = &end.harts[usize::from(h)];
        harts.push(hart_of(alloc, symbols, machine, h, doing, reads)?)?;
    }
    Ok(harts)
}

/// What a hart does.
fn hart_of(
    alloc: Global,
    symbols: &SymbolTable,
    machine: &mut Machine<Paged>,
    h: u8,
    doing: &Doing,
    reads: &[RoundReads],
) -> Result<StuckHart, NoMemory>
    ensures same { machine.new ≡ machine.old }
    ensures called { IfOk result (spec.IsCalled symbols.now.image machine.old.state h) }
    ensures shown { IfOk result (λ hart. spec.shown_as hart ≡ spec.does doing.now (unwrap_or (slice_get reads.now h) [])) }
{
    match doing {
        Doing::Exited => Ok(StuckHart::Exited),
        Doing::Stopped => Ok(StuckHart::Stopped),
        Doing::Waits(steps) => Ok(StuckHart::Waits(Waiting {
            steps: Vec::from_slice(alloc, steps)?,
            reads: copy_at(alloc, reads, usize::from(h))?,
            caller: caller_of(symbols, machine, h, steps)?,
        })),
    }
}

/// What a hart reads.
fn copy_at(alloc: Global, reads: &[RoundReads], h: usize) -> Result<Vec<ReadBytes>, NoMemory>
    ensures { IfOk result (λ copy. copy.items ≡ unwrap_or (slice_get reads.now h) []) }
{
    match reads.get(h) {
        Some(reads) => Ok(Vec::from_slice(alloc, reads.bytes())?),
        None => Ok(Vec::new(alloc)),
    }
}
