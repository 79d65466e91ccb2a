//! What difference the order of a race's two accesses makes, as `specs/Order.antt` has it: from the state before the second access
//! both orders are tried.
ghost use Rattle.std.specs.Prelude.{◌≡◌, ℕ, ◌+◌, ◌≤◌, None, IfOk, IfSome, OnOk, length};
ghost use Rattle.rv_explain.specs.Order as spec;
ghost use Rattle.rv_explain.specs.declared.order.TrialNumbers.{TrialNumbers};
ghost use Rattle.rv_hart.specs.State.{State, start as first_state};
ghost use Rattle.rv_orders.specs.Trial.{IsTrial};

use crate::block::Block;
use crate::stuck::after::machine_after;
use rv_collide::entry::Entry;
use rv_collide::plan::MOST_STEPS;
use rv_debug::word::word_at;
use rv_hart::machine::{MOST_HARTS, Machine, OUTPUT_LIMIT};
use rv_memory::paged::Paged;
use rv_memory::store::NoMemory;
use rv_orders::{Difference, Trial, trial};
use rv_symbols::symbol_table::SymbolTable;
use std::alloc::Global;

mod text;

pub use text::{CopyText, cause_words, copies_of, copy_line, counted_rows, order_rows};

/// The numbers of trials: so many from one on, of 32 bits.
#[derive(Clone, Copy)]
pub struct TrialNumbers {
    pub first: u32,
    pub count: u32,
}

/// The first eight.
pub const EIGHT_TRIALS: TrialNumbers = TrialNumbers { first: 0, count: 8 };

/// The most steps of a copy.
const MOST_TRIED: u32 = 20_000;

/// How many trials there were, and by how many what differs, as in `OrderTrials`; and the address by the first of which a byte of memory
/// differed.
#[derive(Clone, Copy)]
pub struct OrderCounts {
    pub trials: u64,
    pub ends: u64,
    pub prints: u64,
    pub memory: u64,
    pub memory_at: Option<u32>,
}

/// What came of the trials of both orders of a race's two accesses: how many there were; by how many some hart ended otherwise, by
/// how many of the others the harts printed otherwise, and by how many of the rest a byte of memory differed; the first of the
/// first kind, and the address by the first of the third. Hart `first` made the second access of the report, and steps first in the
/// first copy of each; hart `second` was paused. `sc_fails` says that the one is at an SC, which fails once the other has stepped.
#[derive(Drop)]
pub struct OrderTrials {
    pub trials: u64,
    pub ends: u64,
    pub prints: u64,
    pub memory: u64,
    pub ends_by: Option<Trial>,
    pub memory_at: Option<u32>,
    pub first: u8,
    pub second: u8,
    pub sc_fails: bool,
}

impl OrderTrials {
    /// No trial yet.
    fn begin(first: u8, second: u8) -> OrderTrials
        ensures ends { result.ends_by ≡ None }
        ensures memory { result.memory_at ≡ None }
        ensures first { result.first ≡ first }
        ensures second { result.second ≡ second }
    {
        OrderTrials {
            trials: 0,
            ends: 0,
            prints: 0,
            memory: 0,
            ends_by: None,
            memory_at: None,
            first,
            second,
            sc_fails: false,
        }
    }

    /// One trial more from where a machine stands. Whether there is one.
    fn try_more(
        &mut self,
        alloc: Global,
        machine: &mut Machine<Paged>,
        number: u32,
        most: u32,
    ) -> Result<bool, NoMemory>
        requires two_steps { 2 ≤ most }
        requires room { length machine.old.state.output + most ≤ OUTPUT_LIMIT }
        ensures same { machine.new ≡ machine.old }
        ensures first { self.new.first ≡ self.old.first }
        ensures second { self.new.second ≡ self.old.second }
        ensures kept { OnOk result ((numbers : TrialNumbers) → spec.IsAmong numbers number
            → spec.AreKept machine.old.state numbers self.old → spec.AreKept machine.old.state numbers self.new) }
    {
        match trial(alloc, machine, self.first, self.second, number, most)? {
            None => Ok(false),
            Some(trial) => {
                self.note(trial);
                Ok(true)
            }
        }
    }

    /// Counts a trial, and keeps the first that differs in ends, and of the first that differs in memory the address.
    fn note(&mut self, trial: Trial)
        ensures first { self.new.first ≡ self.old.first }
        ensures second { self.new.second ≡ self.old.second }
        ensures kept { (s : State) (numbers : TrialNumbers) (number : ℕ) → spec.IsAmong numbers number
            → IsTrial s self.old.first self.old.second number trial → spec.AreKept s numbers self.old → spec.AreKept s numbers self.new }
    {
        self.trials = self.trials.saturating_add(1);
        match trial.difference {
            Difference::Ends => {
                self.ends = self.ends.saturating_add(1);
                if self.ends_by.is_none() {
                    self.ends_by = Some(trial);
                }
            }
            Difference::Prints => self.prints = self.prints.saturating_add(1),
            Difference::Memory(address) => {
                self.memory = self.memory.saturating_add(1);
                if self.memory_at.is_none() {
                    self.memory_at = Some(address);
                }
            }
            Difference::None => {}
        }
    }
}

impl OrderTrials {
    /// Their counts.
    pub fn counts(&self) -> OrderCounts {
        OrderCounts {
            trials: self.trials,
            ends: self.ends,
            prints: self.prints,
            memory: self.memory,
            memory_at: self.memory_at,
        }
    }
}

/// The trials of these numbers of both orders of the two accesses of a block's report: of hart h, which was paused, and of hart g, which made the
/// second access. They are from the state before that, which the schedule's steps lead to. None says that there are none: the report
/// has no second access, the instruction at which hart h was paused was written over since, a copy has no room for two steps, or
/// one of the two would write over the other's instruction.
pub fn order_of(
    alloc: Global,
    symbols: &SymbolTable,
    harts: u8,
    entries: &[Entry],
    block: &Block,
    numbers: TrialNumbers,
) -> Result<Option<OrderTrials>, NoMemory>
    requires some { 1 ≤ harts }
    requires within { harts ≤ MOST_HARTS }
    ensures { IfOk result (λ found. IfSome found (spec.IsOrder
        (first_state symbols.now.image.segments symbols.now.image.entry harts) entries.now block.now.second
        numbers block.now.other.hart block.now.paused.hart)) }
{
    let place = block.second as usize;
    if place > entries.len() {
        return Ok(None);
    }
    let image = symbols.image();
    let Some(mut machine) = machine_after(alloc, image, harts, &entries[..place])? else {
        return Ok(None);
    };
    match order_at(alloc, &mut machine, block, numbers)? {
        None => Ok(None),
        Some(order) => Ok(Some(order)),
    }
}

/// The trials from where a machine stands, before the second access of a block's report.
fn order_at(
    alloc: Global,
    machine: &mut Machine<Paged>,
    block: &Block,
    numbers: TrialNumbers,
) -> Result<Option<OrderTrials>, NoMemory>
    ensures first { IfOk result (λ found. IfSome found (λ order. order.first ≡ block.now.other.hart)) }
    ensures second { IfOk result (λ found. IfSome found (λ order. order.second ≡ block.now.paused.hart)) }
    ensures kept { IfOk result (λ found. IfSome found (spec.AreKept machine.old.state numbers)) }
{
    let most = most_steps(machine, block.second);
    let paused = &block.paused;
    if most < 2 || !is_as_paused(machine, paused.access.pc, paused.word) {
        return Ok(None);
    }
    let mut order = OrderTrials::begin(block.other.hart, block.paused.hart);
    for n in 0..numbers.count {
        let number = numbers.first.wrapping_add(n);
        if !order.try_more(alloc, machine, number, most)? {
            return Ok(None);
        }
    }
    order.sc_fails = fails_after(machine, order.first, order.second)?;
    Ok(Some(order))
}

/// How many steps a copy may make at a place of a schedule: no more than a schedule may have in all, and than there is room to print
/// a byte at each.
pub fn most_steps(machine: &Machine<Paged>, place: u32) -> u32
    ensures { 2 ≤ result → length machine.now.state.output + result ≤ OUTPUT_LIMIT }
{
    let room = (OUTPUT_LIMIT as usize).saturating_sub(machine.output().len());
    let most = MOST_TRIED.min(MOST_STEPS.saturating_sub(place));
    (most as usize).min(room) as u32
}

/// Whether memory has the word at the paused hart's instruction that it had at the pause.
pub fn is_as_paused(machine: &Machine<Paged>, pc: u32, word: Option<u32>) -> bool {
    word_at(machine, pc) == word
}

/// Whether a hart is at an SC that fails once another hart has stepped.
fn fails_after(machine: &mut Machine<Paged>, first: u8, second: u8) -> Result<bool, NoMemory> {
    if !machine.runs(first) || !machine.at_conditional(first) {
        return Ok(false);
    }
    // The trials made this step: nothing but memory refuses it.
    if machine.step(second).is_err() {
        return Err(NoMemory);
    }
    Ok(machine.runs(first) && machine.next_access(first).is_none())
}
