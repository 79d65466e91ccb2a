//! What each hart came to at the end of a copy.
ghost use Rattle.std.specs.Prelude.{◌≡◌, ◌<◌, true, false, IfOk, IfSome, length};
ghost use Rattle.rv_stuck.specs.Acts.{conduct_in};
ghost use Rattle.rv_stuck.specs.StuckEnd.{SomeRuns};
ghost use Rattle.rv_orders.specs.Trial.{AreEnds, IsEnd};
ghost use Rattle.rv_orders.specs.internal.Ends.{AreActs, Does};

use rv_hart::hart::{Cause, Status};
use rv_hart::machine::Machine;
use rv_memory::store::{ByteStore, Fork, NoMemory};
use rv_stuck::{Act, acts_of, stuck_end};
use std::alloc::Global;

/// What a hart came to: it exited with a code; it stopped, for a cause and at an address; in a copy that is over it polls, from the
/// least address of its round on, or is parked; in one that is cut off it is running.
#[derive(Clone, Copy, PartialEq, Eq)]
pub enum HartEnd {
    Exited(u32),
    Stopped { cause: Cause, pc: u32 },
    Polls(u32),
    Parked,
    Running,
}

/// What each hart came to, and whether the copy is over: no hart runs, or each that runs waits.
#[derive(Drop)]
pub(crate) struct Ends {
    pub is_over: bool,
    pub ends: Vec<HartEnd>,
}

/// What the harts of a copy came to. Where no hart of it goes, `rests`, it is asked which rounds they go.
pub(crate) fn ends_of<S: Fork>(
    alloc: Global,
    machine: &mut Machine<S>,
    rests: bool,
) -> Result<Ends, NoMemory>
    ensures same { machine.new ≡ machine.old }
    ensures ends { IfOk result (λ it. AreEnds it.is_over machine.old.state it.ends.items) }
{
    if rests {
        if let Some(acts) = acts_in(alloc, machine)? {
            return Ok(Ends {
                is_over: true,
                ends: ends_by_acts(alloc, machine, &acts)?,
            });
        }
    }
    ends_by_status(alloc, machine)
}

/// What the harts do, where some run, and all that run are seen to wait.
fn acts_in<S: Fork>(alloc: Global, machine: &mut Machine<S>) -> Result<Option<Vec<Act>>, NoMemory>
    ensures same { machine.new ≡ machine.old }
    ensures acts { IfOk result (λ acts. IfSome acts (λ it. AreActs machine.old.state it.items)) }
{
    let Some(end) = stuck_end(alloc, machine)? else {
        return Ok(None);
    };
    Ok(Some(acts_of(alloc, &end)?))
}

/// What the harts came to that do so, of which those that run wait.
fn ends_by_acts<S: ByteStore>(
    alloc: Global,
    machine: &Machine<S>,
    acts: &[Act],
) -> Result<Vec<HartEnd>, NoMemory>
    requires { AreActs machine.now.state acts.now }
    ensures { IfOk result (λ ends. AreEnds true machine.now.state ends.items) }
{
    let mut ends = Vec::new(alloc);
    for h in 0..machine.harts() {
        ends.push(end_by_act(machine, h, &acts[h as usize]))?;
    }
    Ok(ends)
}

fn end_by_act<S: ByteStore>(machine: &Machine<S>, h: u8, act: &Act) -> HartEnd
    requires hart { h < length machine.now.state.harts }
    requires act { Does machine.now.state h (conduct_in act.now) }
    ensures { IsEnd true machine.now.state h result }
{
    match act {
        Act::Exited | Act::Stopped => end_by_status(machine, h),
        Act::Polls(polled) => HartEnd::Polls(polled.pc),
        Act::Parked => HartEnd::Parked,
    }
}

/// What the harts came to, where those that run are running still. It is over where none does.
fn ends_by_status<S: ByteStore>(alloc: Global, machine: &Machine<S>) -> Result<Ends, NoMemory>
    ensures { IfOk result (λ it. AreEnds it.is_over machine.now.state it.ends.items) }
{
    let is_over = !some_runs(machine);
    let mut ends = Vec::new(alloc);
    for h in 0..machine.harts() {
        ends.push(end_by_status(machine, h))?;
    }
    Ok(Ends { is_over, ends })
}

fn some_runs<S: ByteStore>(machine: &Machine<S>) -> bool
    ensures { result ≡ false → ¬ SomeRuns machine.now.state }
{
    for h in 0..machine.harts() {
        if machine.runs(h) {
            return true;
        }
    }
    false
}

fn end_by_status<S: ByteStore>(machine: &Machine<S>, h: u8) -> HartEnd
    requires { h < length machine.now.state.harts }
    ensures { IsEnd false machine.now.state h result }
{
    match machine.status(h) {
        Status::Exited(code) => HartEnd::Exited(code),
        Status::Stopped(cause) => HartEnd::Stopped {
            cause,
            pc: machine.pc(h),
        },
        Status::Running => HartEnd::Running,
    }
}
