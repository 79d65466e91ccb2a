//! What each hart of a stuck end does, as two stuck ends are compared.
ghost use Rattle.std.specs.Prelude.{◌≡◌, ◌≤◌, ◌++◌, true, false, IfOk, IfSome, IsSomeAnd, OnOk, length, map, slice_get};
ghost use Rattle.std.specs.List.{flat_map, prefix_len};
ghost use Rattle.rv_stuck.specs.Acts as spec;
ghost use Rattle.rv_stuck.specs.Key as key;

use crate::stuck::{Doing, RoundStep, StuckEnd};
use rv_hart::access::Access;
use rv_memory::store::NoMemory;
use rv_waits::touched::Range;
use std::alloc::Global;

/// What a hart does: it has exited or stopped, it goes round and reads no data, or it polls.
#[derive(Drop)]
pub enum Act {
    Exited,
    Stopped,
    Parked,
    Polls(Polled),
}

/// Of a hart that polls: the least address of an instruction of its round, and the bytes that the round reads, each range once, in
/// ascending order of their first addresses, then of their sizes.
#[derive(Drop)]
pub struct Polled {
    pub pc: u32,
    pub reads: Vec<Range>,
}

/// The acts of a stuck end, in the order of the harts.
pub fn acts_of(alloc: Global, end: &StuckEnd) -> Result<Vec<Act>, NoMemory>
    ensures { IfOk result (λ acts. map spec.conduct_in acts.items ≡ map spec.conduct_of end.now.harts.items) }
{
    let mut acts = Vec::new(alloc);
    for h in 0..end.harts.len() {
        acts.push(act_of(alloc, &end.harts[h])?)?;
    }
    Ok(acts)
}

fn act_of(alloc: Global, doing: &Doing) -> Result<Act, NoMemory>
    ensures { IfOk result (λ act. spec.conduct_in act ≡ spec.conduct_of doing.now) }
{
    match doing {
        Doing::Exited => Ok(Act::Exited),
        Doing::Stopped => Ok(Act::Stopped),
        Doing::Waits(steps) => act_of_round(alloc, steps),
    }
}

fn act_of_round(alloc: Global, steps: &[RoundStep]) -> Result<Act, NoMemory>
    ensures { IfOk result (λ act. spec.conduct_in act ≡ spec.conduct_of_round steps.now) }
{
    if !polls(steps) {
        return Ok(Act::Parked);
    }
    Ok(Act::Polls(Polled {
        pc: least_pc(steps),
        reads: reads(alloc, steps)?,
    }))
}

/// Whether one of the steps loads data.
fn polls(steps: &[RoundStep]) -> bool
    ensures { result ≡ spec.polls steps.now }
{
    steps.iter().any(|step| read_by(step.access).is_some())
}

fn least_pc(steps: &[RoundStep]) -> u32
    ensures { result ≡ spec.least_pc steps.now }
{
    steps
        .iter()
        .fold(u32::MAX, |least, step| least.min(step.pc))
}

/// What the steps read.
fn reads(alloc: Global, steps: &[RoundStep]) -> Result<Vec<Range>, NoMemory>
    ensures { IfOk result (λ ranges. ranges.items ≡ spec.reads steps.now) }
{
    let mut ranges = Vec::new(alloc);
    for k in 0..steps.len() {
        put_read(&mut ranges, read_by(steps[k].access))?;
    }
    Ok(ranges)
}

/// The bytes that an access reads, if it reads.
fn read_by(access: Option<Access>) -> Option<Range>
    ensures { result ≡ spec.read_by access }
{
    match access {
        Some(access) if access.read => Some(Range {
            first: access.first,
            size: access.size,
        }),
        Some(_) | None => None,
    }
}

fn put_read(ranges: &mut Vec<Range>, range: Option<Range>) -> Result<(), NoMemory>
    ensures { OnOk result (ranges.new.items ≡ spec.with_read range ranges.old.items) }
{
    match range {
        Some(range) => put(ranges, range),
        None => Ok(()),
    }
}

/// One more range, where it isn't there.
fn put(ranges: &mut Vec<Range>, range: Range) -> Result<(), NoMemory>
    ensures { OnOk result (ranges.new.items ≡ spec.with_range range ranges.old.items) }
{
    let place = place_for(ranges, range);
    if is_there(ranges, place, range) {
        return Ok(());
    }
    ranges.insert(place, range)?;
    Ok(())
}

/// Whether the range at its place is this one: it isn't before it.
fn is_there(ranges: &[Range], place: usize, range: Range) -> bool
    ensures there { result ≡ true → IsSomeAnd (slice_get ranges.now place) (λ there. spec.is_before range there ≡ false) }
    ensures not_there { result ≡ false → IfSome (slice_get ranges.now place) (λ there. spec.is_before range there ≡ true) }
{
    match ranges.get(place) {
        Some(there) => !is_before(range, *there),
        None => false,
    }
}

/// How many of the ranges are before this one, up to the first that isn't.
fn place_for(ranges: &[Range], range: Range) -> usize
    ensures place { result ≡ prefix_len (λ other. spec.is_before other range) ranges.now }
    ensures within { result ≤ length ranges.now }
{
    ranges
        .iter()
        .take_while(|other| is_before(**other, range))
        .count()
}

fn is_before(one: Range, other: Range) -> bool
    ensures { result ≡ spec.is_before one other }
{
    one.first < other.first || (one.first == other.first && one.size < other.size)
}

/// Two stuck ends are one where their acts have the same key. Of each hart it has a word for what it does: 0 exited, 1 stopped,
/// 2 parked, 3 polls; and of one that polls its address, and each range as 4, its first address and its size.
pub fn key_of(alloc: Global, acts: &[Act]) -> Result<Vec<u32>, NoMemory>
    ensures { IfOk result (λ words. words.items ≡ key.key (map spec.conduct_in acts.now)) }
{
    let mut words = Vec::new(alloc);
    for h in 0..acts.len() {
        put_act(&mut words, &acts[h])?;
    }
    Ok(words)
}

fn put_act(words: &mut Vec<u32>, act: &Act) -> Result<(), NoMemory>
    ensures { OnOk result (words.new.items ≡ words.old.items ++ key.words_of (spec.conduct_in act.now)) }
{
    match act {
        Act::Exited => words.push(0)?,
        Act::Stopped => words.push(1)?,
        Act::Parked => words.push(2)?,
        Act::Polls(polled) => {
            words.extend_from_slice(&[3, polled.pc])?;
            put_ranges(words, &polled.reads)?;
        }
    }
    Ok(())
}

fn put_ranges(words: &mut Vec<u32>, ranges: &[Range]) -> Result<(), NoMemory>
    ensures { OnOk result (words.new.items ≡ words.old.items ++ flat_map key.words_of_range ranges.now) }
{
    for k in 0..ranges.len() {
        let range = ranges[k];
        words.extend_from_slice(&[4, range.first, u32::from(range.size)])?;
    }
    Ok(())
}
