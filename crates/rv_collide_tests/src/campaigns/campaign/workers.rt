//! Campaigns by several workers.
use super::gates::{Meets, Shut, Shuts};
use crate::assertion::assert_is;
use crate::campaigns::images::{P, image, plan};
use rv_campaign::{CampaignFault, campaign};
use rv_collide::collider::Finished;
use rv_collide::entry::Entry;
use rv_drive::gate::{FreeGate, Gate};
use std::alloc::Global;
use std::process::Abort;
use std::sync::Wait;
use std::thread::Threads;

/// What a campaign of two harts over `P` tells.
fn made<R: Threads + Wait + Abort, G: Gate>(
    rt: &R,
    alloc: Global,
    runs: u32,
    workers: u32,
    gate: &G,
) -> Result<Vec<Finished>, CampaignFault<G::Shut>> {
    let plan = plan(rt, 2, 100, 8, 3);
    let image = image(rt, alloc, &P);
    campaign(rt, alloc, &image, plan, 5, runs, workers, &[], gate)
}

/// The runs' schedules, without what else they leave.
fn schedules(rt: &impl Abort, alloc: Global, told: Vec<Finished>) -> Vec<Vec<Entry>> {
    let mut schedules = Vec::new(alloc);
    for one in told {
        schedules.push(one.entries).expect(rt, "memory");
    }
    schedules
}

fn schedules_by<R: Threads + Wait + Abort, G: Gate>(
    rt: &R,
    alloc: Global,
    runs: u32,
    workers: u32,
    gate: &G,
) -> Vec<Vec<Entry>> {
    let told = made(rt, alloc, runs, workers, gate)
        .ok()
        .expect(rt, "a campaign");
    schedules(rt, alloc, told)
}

/// How many runs, and by how many workers.
const SPLITS: [(u32, u32); 6] = [(7, 2), (7, 3), (7, 16), (1, 16), (16, 1), (16, 16)];

#[test]
fn one_answer_whatever_the_number_of_workers(rt: HostRuntime) {
    for (runs, workers) in &SPLITS {
        let alone = schedules_by(&rt, rt.alloc(), *runs, 1, &FreeGate);
        let told = schedules_by(&rt, rt.alloc(), *runs, *workers, &FreeGate);
        assert_is(&rt, told.len(), *runs as usize, "runs");
        assert_is(&rt, told, alone, "schedules");
    }
}

/// Workers that meet before each run: as many threads as workers, since fewer would wait for one another.
fn assert_meets<R: Threads + Wait + Abort>(rt: &R, alloc: Global, workers: u8) {
    let gate = Meets::new(alloc, workers).expect(rt, "memory");
    let runs = u32::from(workers);
    let told = schedules_by(rt, alloc, runs, runs, &gate);
    let free = schedules_by(rt, alloc, runs, runs, &FreeGate);
    assert_is(rt, told, free, "schedules");
}

#[test]
fn each_worker_is_a_thread_of_its_own(rt: HostRuntime) {
    assert_meets(&rt, rt.alloc(), 2);
    assert_meets(&rt, rt.alloc(), 16);
}

#[test]
fn one_worker_meets_no_other(rt: HostRuntime) {
    let gate = Meets::new(rt.alloc(), 2).expect(&rt, "memory");
    let fault = made(&rt, rt.alloc(), 2, 1, &gate).err();
    let shut = Shut {
        worker: 0,
        calls: 1,
    };
    let wanted = Some(CampaignFault::GateClosed(0, shut));
    assert_is(&rt, fault, wanted, "a closed gate");
}

/// How many runs and workers there are, which call of which worker is refused (of worker 16 none), and how often each
/// worker then comes and has left.
const CALLS: [(u32, u8, u8, u64, &[u64], &[u64]); 5] = [
    (7, 3, 16, 0, &[3, 2, 2], &[3, 2, 2]),
    (8, 5, 16, 0, &[2, 2, 2, 1, 1], &[2, 2, 2, 1, 1]),
    (2, 4, 16, 0, &[1, 1, 0, 0], &[1, 1, 0, 0]),
    (7, 3, 1, 2, &[3, 2, 2], &[3, 1, 2]),
    (7, 3, 0, 1, &[1, 2, 2], &[0, 2, 2]),
];

fn assert_counted(rt: &impl Abort, alloc: Global, gate: &Shuts, came: &[u64], left: &[u64]) {
    let calls = gate.came(alloc).expect(rt, "memory");
    assert_is(rt, calls.as_slice(), came, "calls");
    let leaves = gate.left(alloc).expect(rt, "memory");
    assert_is(rt, leaves.as_slice(), left, "leaves");
}

/// The runs are split among the workers, and each leaves the gate as often as it was let in, where another is refused
/// too.
#[test]
fn each_worker_enters_and_leaves_for_each_of_its_runs(rt: HostRuntime) {
    for (runs, workers, refused, call, came, left) in &CALLS {
        let gate = Shuts::new(rt.alloc(), *workers, *refused, *call).expect(&rt, "memory");
        let fault = made(&rt, rt.alloc(), *runs, u32::from(*workers), &gate).err();
        let shut = Shut {
            worker: *refused,
            calls: *call,
        };
        let wanted = (*refused < 16).then_some(CampaignFault::GateClosed(*refused, shut));
        assert_is(&rt, fault, wanted, "a closed gate");
        assert_counted(&rt, rt.alloc(), &gate, *came, *left);
    }
}
