//! Runs by threads: that the workers run side by side, that they end, and what is told of them.
use super::gates::{Counts, Holds, Keeps, Meets, Shut};
use crate::assertion::assert_is;
use crate::campaigns::images::{ONE_STORE, P, image, plan};
use rv_collide::collider::{Collider, Finished};
use rv_collide::entry::Entry::{self, Paused, Stepped};
use rv_collide::plan::Plan;
use rv_collide::replay::replay;
use rv_elf::Image;
use rv_hart::hart::Status;
use rv_locked::threads::{RunFault, run_threads};
use rv_memory::flat::Flat;
use std::alloc::Global;
use std::process::Abort;
use std::sync::Wait;
use std::thread::Threads;

/// A run told again has stopped each hart by an environment call, and has the same entries, endings and output.
fn assert_same(rt: &impl Abort, told: &Finished, again: Collider<Flat>) {
    let stopped = all_stopped(&again);
    let again = again.finish();
    assert_is(rt, stopped, true, "each hart has stopped");
    assert_is(
        rt,
        again.entries.as_slice(),
        told.entries.as_slice(),
        "entries",
    );
    assert_is(
        rt,
        again.endings.as_slice(),
        told.endings.as_slice(),
        "endings",
    );
    assert_is(
        rt,
        again.output.as_slice(),
        told.output.as_slice(),
        "output",
    );
}

/// Replays a run's schedule, to where an environment call has stopped each hart and to the same endings and
/// output.
fn assert_told_again(rt: &impl Abort, alloc: Global, image: &Image, plan: Plan, told: &Finished) {
    let again: Collider<Flat> = replay(alloc, image, plan, &told.entries).expect(rt, "a replay");
    assert_same(rt, told, again);
}

/// How many turns a schedule has.
fn turns(entries: &[Entry]) -> usize {
    entries
        .iter()
        .filter(|entry| matches!(entry, Stepped(_) | Paused(_, _)))
        .count()
}

/// Whether each hart was stopped by an environment call.
fn all_stopped(collider: &Collider<Flat>) -> bool {
    let machine = collider.machine();
    for h in 0..machine.harts() {
        match machine.status(h) {
            Status::Stopped(cause) => {
                if cause.number() != 8 {
                    return false;
                }
            }
            Status::Running | Status::Exited(_) => return false,
        }
    }
    true
}

/// A run of workers that meet before each turn.
fn run_meeting<R: Threads + Wait + Sync + Abort>(
    rt: &R,
    alloc: Global,
    image: &Image,
    plan: Plan,
) -> Finished {
    let gate = Meets::new(alloc, plan.harts).expect(rt, "memory");
    run_threads(rt, alloc, image, plan, 7, &gate).expect(rt, "a run")
}

/// Each of so many harts makes its four turns.
fn assert_meets<R: Threads + Wait + Sync + Abort>(
    rt: &R,
    alloc: Global,
    image: &Image,
    harts: u8,
    steps: u32,
) {
    let plan = plan(rt, harts, steps, 0, 5);
    let told = run_meeting(rt, alloc, image, plan);
    assert_is(rt, turns(&told.entries), 4 * usize::from(harts), "turns");
    assert_told_again(rt, alloc, image, plan, &told);
}

/// Workers that meet before each turn: as many threads as harts, since fewer would wait for one another.
#[test]
fn each_of_two_harts_has_a_thread_of_its_own(rt: HostRuntime) {
    let image = image(&rt, rt.alloc(), &P);
    assert_meets(&rt, rt.alloc(), &image, 2, 20);
}

#[test]
fn each_of_sixteen_harts_has_a_thread_of_its_own(rt: HostRuntime) {
    let image = image(&rt, rt.alloc(), &P);
    assert_meets(&rt, rt.alloc(), &image, 16, 64);
}

/// Four steps of hart 0, then four of hart 1.
const FOUR_AND_FOUR: [Entry; 8] = [
    Stepped(0),
    Stepped(0),
    Stepped(0),
    Stepped(0),
    Stepped(1),
    Stepped(1),
    Stepped(1),
    Stepped(1),
];

/// Four steps of hart 1, then four of hart 0.
const THE_OTHER_FIRST: [Entry; 8] = [
    Stepped(1),
    Stepped(1),
    Stepped(1),
    Stepped(1),
    Stepped(0),
    Stepped(0),
    Stepped(0),
    Stepped(0),
];

/// A gate that keeps one of two harts till the other has left four times.
fn assert_holds<R: Threads + Wait + Sync + Abort>(
    rt: &R,
    alloc: Global,
    image: &Image,
    plan: Plan,
    held: u8,
    entries: &[Entry],
) {
    let gate = Holds::new(held, 4, 4);
    let told = run_threads(rt, alloc, image, plan, 7, &gate).expect(rt, "a run");
    assert_is(rt, told.entries.as_slice(), entries, "entries");
    assert_is(rt, gate.counts(), (4, 4), "counts");
}

#[test]
fn a_gate_orders_the_turns(rt: HostRuntime) {
    let alloc = rt.alloc();
    let image = image(&rt, alloc, &P);
    let plan = plan(&rt, 2, 20, 0, 5);
    assert_holds(&rt, alloc, &image, plan, 0, &THE_OTHER_FIRST);
    assert_holds(&rt, alloc, &image, plan, 1, &FOUR_AND_FOUR);
}

/// A worker leaves its gate after its turn: hart 1 comes in once hart 0 leaves after its last turn, and has
/// made its own before that call returns.
#[test]
fn a_worker_leaves_after_its_turn(rt: HostRuntime) {
    let alloc = rt.alloc();
    let image = image(&rt, alloc, &P);
    let plan = plan(&rt, 2, 20, 0, 5);
    let gate = Keeps::new();
    let told = run_threads(&rt, alloc, &image, plan, 7, &gate).expect(&rt, "a run");
    assert_is(&rt, told.entries.as_slice(), &FOUR_AND_FOUR, "entries");
    assert_is(&rt, gate.counts(), (4, 4), "counts");
}

/// What a gate leaves that lets so many calls in: from eight on the whole run, or else the hart that was
/// refused, after at most one more call of each.
fn assert_shut_after(rt: &impl Abort, most: u64, answer: &Result<Finished, RunFault<Shut>>) {
    match answer {
        Ok(told) => {
            assert_is(rt, most >= 8, true, "open for the whole run");
            assert_is(rt, turns(&told.entries), 8, "turns");
        }
        Err(RunFault::GateClosed(hart, shut)) => {
            assert_is(rt, most < 8, true, "shut before the end");
            assert_is(rt, *hart, shut.hart, "the hart that was refused");
            let late = shut.number.saturating_sub(most);
            assert_is(rt, late == 1 || late == 2, true, "the refused call");
        }
        Err(_) => assert_is(rt, "another fault", "a run or a shut gate", "the answer"),
    }
}

/// A gate that shuts after so many calls, or stays open. Whoever was let in has left once.
fn assert_shuts<R: Threads + Wait + Sync + Abort>(
    rt: &R,
    alloc: Global,
    image: &Image,
    plan: Plan,
    most: u64,
) {
    let gate = Counts::new(most);
    let answer = run_threads(rt, alloc, image, plan, most, &gate);
    assert_shut_after(rt, most, &answer);
    let (let_in, left) = gate.counts();
    assert_is(rt, left, let_in, "calls that have left");
}

/// Gates that shut at each of the eight calls in turn, and one that stays open.
#[test]
fn a_gate_shuts_at_each_call(rt: HostRuntime) {
    let alloc = rt.alloc();
    let image = image(&rt, alloc, &P);
    let plan = plan(&rt, 2, 20, 0, 5);
    for most in 0..10u64 {
        assert_shuts(&rt, alloc, &image, plan, most);
    }
}

/// Which hart a gate refused, and with what.
fn closed(answer: Result<Finished, RunFault<Shut>>) -> Option<(u8, Shut)> {
    match answer {
        Err(RunFault::GateClosed(hart, shut)) => Some((hart, shut)),
        Err(_) | Ok(_) => None,
    }
}

/// Hart 0 is paused at the store, and hart 1 has made one step, when hart 1's gate shuts. Hart 0 is woken.
#[test]
fn a_gate_shuts_while_a_hart_is_paused(rt: HostRuntime) {
    let alloc = rt.alloc();
    let image = image(&rt, alloc, &ONE_STORE);
    let plan = plan(&rt, 2, 20, 1, 5);
    let gate = Holds::new(1, 2, 1);
    let closed = closed(run_threads(&rt, alloc, &image, plan, 3, &gate));
    let wanted = Shut { hart: 1, number: 2 };
    assert_is(&rt, closed, Some((1, wanted)), "what the gate refused");
    assert_is(&rt, gate.counts(), (2, 2), "counts");
}
