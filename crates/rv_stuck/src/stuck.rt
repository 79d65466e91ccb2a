//! What each hart of a stuck machine does, by steps of copies.
ghost use Rattle.std.specs.Prelude.{◌≡◌, ◌<◌, true, IfOk, IfSome, length};
ghost use Rattle.rv_stuck.specs.StuckEnd.{AreStepsOf, IsDoing, IsNext, IsRoundOf, IsStepOf, IsStuckEnd, SomeRuns};

use rv_hart::access::Access;
use rv_hart::hart::Status;
use rv_hart::machine::{Machine, OUTPUT_LIMIT};
use rv_memory::store::{ByteStore, Fork, NoMemory};
use rv_waits::round::round_of;
use std::alloc::Global;

/// The most steps of a round that is looked for.
pub const MOST_ROUND: u32 = 4096;

/// One step of a round: the instruction's address, its word, which is None where the four bytes do not lie wholly in one
/// region, and the access that it makes, if any.
#[derive(Clone, Copy)]
pub struct RoundStep {
    pub pc: u32,
    pub word: Option<u32>,
    pub access: Option<Access>,
}

/// What a hart does at a stuck end. A hart that waits goes round these steps for ever.
#[derive(Drop)]
pub enum Doing {
    Exited,
    Stopped,
    Waits(Vec<RoundStep>),
}

/// What each hart of a stuck machine does, in the order of the harts.
#[derive(Drop)]
pub struct StuckEnd {
    pub harts: Vec<Doing>,
}

/// What each hart does, where some hart runs and each that runs is seen to wait within `MOST_ROUND` of its own steps. None
/// says that this wasn't seen: a hart that has yet to come to its round, as one that looks at a taken lock for the first time, is not
/// seen to wait. The machine stays as it is (its store may share pages).
pub fn stuck_end<S: Fork>(
    alloc: Global,
    machine: &mut Machine<S>,
) -> Result<Option<StuckEnd>, NoMemory>
    ensures same { machine.new ≡ machine.old }
    ensures stuck { IfOk result (λ end. IfSome end (λ it. IsStuckEnd machine.old.state it)) }
{
    if !some_runs(machine) {
        return Ok(None);
    }
    let mut harts = Vec::new(alloc);
    for h in 0..machine.harts() {
        let Some(doing) = doing_of(alloc, machine, h)? else {
            return Ok(None);
        };
        harts.push(doing)?;
    }
    Ok(Some(StuckEnd { harts }))
}

fn some_runs<S: ByteStore>(machine: &Machine<S>) -> bool
    ensures { result ≡ true → SomeRuns machine.now.state }
{
    for h in 0..machine.harts() {
        if machine.runs(h) {
            return true;
        }
    }
    false
}

/// What a hart does, where it doesn't run or is seen to wait.
fn doing_of<S: Fork>(
    alloc: Global,
    machine: &mut Machine<S>,
    h: u8,
) -> Result<Option<Doing>, NoMemory>
    requires { h < length machine.old.state.harts }
    ensures same { machine.new ≡ machine.old }
    ensures doing { IfOk result (λ doing. IfSome doing (λ it. IsDoing machine.old.state h it)) }
{
    match machine.status(h) {
        Status::Exited(_) => Ok(Some(Doing::Exited)),
        Status::Stopped(_) => Ok(Some(Doing::Stopped)),
        Status::Running => match round_steps(alloc, machine, h)? {
            Some(steps) => Ok(Some(Doing::Waits(steps))),
            None => Ok(None),
        },
    }
}

/// The steps of a hart's round, where it is seen to wait. One copy of the machine shows how many they are, another what they are.
fn round_steps<S: Fork>(
    alloc: Global,
    machine: &mut Machine<S>,
    h: u8,
) -> Result<Option<Vec<RoundStep>>, NoMemory>
    requires { h < length machine.old.state.harts }
    ensures same { machine.new ≡ machine.old }
    ensures round { IfOk result (λ steps. IfSome steps (λ it. IsRoundOf machine.old.state h it.items)) }
{
    let Some(mut copy) = copy_of(machine)? else {
        return Ok(None);
    };
    let Some(round) = round_of(&mut copy, h, MOST_ROUND) else {
        return Ok(None);
    };
    let Some(mut copy) = copy_of(machine)? else {
        return Ok(None);
    };
    Ok(Some(steps_of(alloc, &mut copy, h, round.steps)?))
}

/// A second machine of the same state, which may print nothing more: a step that prints is none of a round.
fn copy_of<S: Fork>(machine: &mut Machine<S>) -> Result<Option<Machine<S>>, NoMemory>
    ensures same { machine.new ≡ machine.old }
    ensures equal { IfOk result (λ copy. IfSome copy (λ it. it.state ≡ machine.old.state)) }
{
    let printed = machine.output().len();
    // No machine has printed more.
    if printed > OUTPUT_LIMIT as usize {
        return Ok(None);
    }
    Ok(Some(machine.share(printed as u32)?))
}

/// The next steps of a hart, made by a copy that is used up.
fn steps_of<S: ByteStore>(
    alloc: Global,
    copy: &mut Machine<S>,
    h: u8,
    count: u32,
) -> Result<Vec<RoundStep>, NoMemory>
    requires { h < length copy.old.state.harts }
    ensures count { IfOk result (λ steps. length steps.items ≡ count) }
    ensures steps { IfOk result (λ steps. AreStepsOf h steps.items copy.old.state) }
{
    let mut steps = Vec::new(alloc);
    for _made in 0..count {
        steps.push(step_made(copy, h)?)?;
    }
    Ok(steps)
}

/// The next step of a hart, which is made.
fn step_made<S: ByteStore>(copy: &mut Machine<S>, h: u8) -> Result<RoundStep, NoMemory>
    requires { h < length copy.old.state.harts }
    ensures step { IfOk result (λ step. IsStepOf h step copy.old.state copy.new.state) }
    ensures harts { length copy.new.state.harts ≡ length copy.old.state.harts }
{
    let step = next_step(copy, h);
    // The other copy made it, so nothing but memory refuses it.
    if copy.step(h).is_err() {
        return Err(NoMemory);
    }
    Ok(step)
}

/// The next step of a hart.
fn next_step<S: ByteStore>(machine: &Machine<S>, h: u8) -> RoundStep
    requires { h < length machine.now.state.harts }
    ensures { IsNext machine.now.state h result }
{
    let pc = machine.pc(h);
    RoundStep {
        pc,
        word: machine.number(pc, 4),
        access: machine.next_access(h),
    }
}
