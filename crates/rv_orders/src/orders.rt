//! Two orders of two steps are tried.
ghost use Rattle.std.specs.Prelude.{◌≡◌, ◌≢◌, ◌+◌, ◌≤◌, ◌<◌, true, IfOk, IfSome, is_some, length};
ghost use Rattle.rv_waits.specs.Stuck.{Runs};
ghost use Rattle.rv_orders.specs.Trial as spec;

use crate::difference::difference_of;
use crate::end::ends_of;
use crate::runner::Runner;
use crate::tried::{Ended, Trial, Tried};
use rv_hart::machine::{Machine, OUTPUT_LIMIT};
use rv_memory::store::{ByteStore, Fork, NoMemory};
use std::alloc::Global;

/// Tries both orders of the next steps of two harts, by two copies of a machine: in the first copy `first` steps before `second`, and in
/// the second after it. Then both go on without pauses, in bursts, by the words of the generator of state 0 and the trial's number, until no
/// hart goes, or they have made `most` steps in all. None where they are one hart, one of them doesn't run, or one's next access writes over
/// a byte of the other's instruction.
pub fn trial<S: Fork>(
    alloc: Global,
    machine: &mut Machine<S>,
    first: u8,
    second: u8,
    number: u32,
    most: u32,
) -> Result<Option<Trial>, NoMemory>
    requires two_steps { 2 ≤ most }
    requires room { length machine.old.state.output + most ≤ OUTPUT_LIMIT }
    ensures same { machine.new ≡ machine.old }
    ensures tried { IfOk result (λ it. is_some it ≡ spec.may_try machine.old.state first second) }
    ensures trial { IfOk result (λ it. IfSome it (spec.IsTrial machine.old.state first second number)) }
    ensures far { IfOk result (λ it. IfSome it (spec.GoAsFar machine.old.state most)) }
{
    if !may_try(machine, first, second) {
        return Ok(None);
    }
    let one = copy_at_end(alloc, machine, first, second, number, most)?;
    let other = copy_at_end(alloc, machine, second, first, number, most)?;
    let difference = difference_of(&one, &other)?;
    Ok(Some(Trial {
        first: one.tried,
        second: other.tried,
        difference,
    }))
}

/// Whether they are two harts, both run, and neither is about to write over the other's instruction.
fn may_try<S: ByteStore>(machine: &Machine<S>, one: u8, other: u8) -> bool
    ensures { result ≡ spec.may_try machine.now.state one other }
{
    one != other
        && machine.runs(one)
        && machine.runs(other)
        && !writes_over(machine, one, other)
        && !writes_over(machine, other, one)
}

/// Whether the next access of a hart writes over a byte of the instruction at another's pc.
fn writes_over<S: ByteStore>(machine: &Machine<S>, h: u8, other: u8) -> bool
    requires hart { h < length machine.now.state.harts }
    requires other { other < length machine.now.state.harts }
    ensures { result ≡ spec.writes_over machine.now.state h other }
{
    let pc = u64::from(machine.pc(other));
    match machine.next_access(h) {
        Some(access) => {
            let first = u64::from(access.first);
            access.write && first < pc + 4 && pc < first + u64::from(access.size)
        }
        None => false,
    }
}

/// A copy in which one hart steps before the other, at its end.
fn copy_at_end<S: Fork>(
    alloc: Global,
    machine: &mut Machine<S>,
    one: u8,
    other: u8,
    number: u32,
    most: u32,
) -> Result<Ended<S>, NoMemory>
    requires two { other ≢ one }
    requires one_runs { Runs machine.old.state one }
    requires other_runs { Runs machine.old.state other }
    requires two_steps { 2 ≤ most }
    requires room { length machine.old.state.output + most ≤ OUTPUT_LIMIT }
    ensures same { machine.new ≡ machine.old }
    ensures tried { IfOk result (λ it. spec.LeadsTo machine.old.state one other number it.tried it.machine.state) }
    ensures far { IfOk result (λ it. spec.GoesAsFar machine.old.state most it.tried) }
{
    let printed = machine.output().len() as u32;
    let copy = machine.share(printed + most)?;
    let mut runner = Runner::begin(alloc, copy, most)?;
    runner.step(one)?;
    runner.step(other)?;
    let rests = runner.go(number)?;
    let mut left = runner.finish();
    let ends = ends_of(alloc, &mut left.machine, rests)?;
    Ok(Ended {
        tried: Tried {
            harts: left.harts,
            is_over: ends.is_over,
            ends: ends.ends,
        },
        machine: left.machine,
        written: left.written,
    })
}
