ghost use Rattle.std.specs.Prelude.{◌≡◌, ◌<◌, Some, None, IfOk, IfErr, OnOk};
ghost use Rattle.rv_campaign.specs.Campaign.{AreKeptOf, AreRuns, IsToldBy, fault_of, number_fault};
ghost use Rattle.rv_campaign.specs.declared.runs.CampaignFault.TheVariants.{NoMemory as OutOfMemory};
ghost use Rattle.rv_campaign.specs.internal.Whole.{IsLeftBy};
ghost use Rattle.rv_collide.specs.Numbers.{numbers};

use crate::kept::Keep;
use crate::workers::{Work, pieces};
use rv_collide::collider::{Collider, Finished};
use rv_collide::plan::Plan;
use rv_drive::gate::Gate;
use rv_elf::Image;
use rv_memory::flat::Flat;
use rv_memory::store::NoMemory;
use rv_sample::Sampler;
use std::alloc::{AllocError, AllocFailed, Global};
use std::sync::Wait;
use std::thread::Threads;

/// Why a campaign is refused. `Runs` (not 1 to 1000), `Workers` (not 1 to 16) and `TooLarge` (its runs could
/// have more than 16,777,216 entries together) are tested in this order, before any worker starts. Then growth was
/// refused, a worker could not be started, or the gate refused a worker, with its value: the fault of the lowest of
/// the workers that met one is told.
#[derive(Debug, Drop, PartialEq)]
pub enum CampaignFault<S> {
    NoMemory,
    TooLarge,
    Runs,
    Workers,
    NoThread,
    GateClosed(u8, S),
}

/// Why the numbers of a campaign are refused.
#[derive(Clone, Copy, PartialEq, Eq)]
pub enum NumberFault {
    TooLarge,
    Runs,
    Workers,
}

impl<S> From<NumberFault> for CampaignFault<S> {
    ghost from_gives = { λ number fault. number_fault fault ≡ Some number };

    fn from(fault: NumberFault) -> CampaignFault<S> {
        match fault {
            NumberFault::TooLarge => CampaignFault::TooLarge,
            NumberFault::Runs => CampaignFault::Runs,
            NumberFault::Workers => CampaignFault::Workers,
        }
    }
}

impl<S> From<NoMemory> for CampaignFault<S> {
    ghost from_gives = { λ _ fault. fault ≡ OutOfMemory };

    fn from(_: NoMemory) -> CampaignFault<S> {
        CampaignFault::NoMemory
    }
}

impl<S> From<AllocError> for CampaignFault<S> {
    ghost from_gives = { λ _ fault. fault ≡ OutOfMemory };

    fn from(_: AllocError) -> CampaignFault<S> {
        CampaignFault::NoMemory
    }
}

impl<S, T: Drop> From<AllocFailed<T>> for CampaignFault<S> {
    ghost from_gives = { λ _ fault. fault ≡ OutOfMemory };

    fn from(_: AllocFailed<T>) -> CampaignFault<S> {
        CampaignFault::NoMemory
    }
}

/// The most entries that the runs of a campaign may have together.
pub const MOST_ENTRIES: u64 = 16_777_216;

/// The most runs of a campaign.
pub const MOST_RUNS: u32 = 1000;

/// The most workers of a campaign.
pub const MOST_WORKERS: u32 = 16;

/// What the runs of a campaign are made of: an image, a plan, a seed, and the addresses that are no sites.
#[derive(Clone, Copy, Drop)]
pub struct Hunt<'a> {
    pub image: &'a Image,
    pub plan: Plan,
    pub seed: u64,
    pub excluded: &'a [u32],
}

/// What is kept of the runs of a campaign, numbered from 0 on: of each number the one run, whatever the number of
/// workers. Each worker is a thread of its own, makes the runs of consecutive numbers, and enters the gate before each
/// of them. It leaves the gate once the run is kept, or is refused. All have ended before the answer.
pub fn kept_campaign<R: Threads + Wait, G: Gate, K: Keep>(
    rt: &R,
    alloc: Global,
    hunt: &Hunt<'_>,
    runs: u32,
    workers: u32,
    gate: &G,
    keep: &K,
) -> Result<Vec<K::Kept>, CampaignFault<G::Shut>>
    ensures ok { IfOk result (λ kept. AreKeptOf (K.keeps keep.now) (record {
      image = hunt.now.image.now;
      plan = numbers hunt.now.plan;
      seed = hunt.now.seed;
      excluded = hunt.now.excluded.now;
    }) runs kept.items) }
    ensures accepted { OnOk result (fault_of (numbers hunt.now.plan) runs workers ≡ None) }
    ensures err { IfErr result (λ fault. (fault_of (numbers hunt.now.plan) runs workers ≡ number_fault fault) × IsToldBy G.shuts fault) }
{
    if let Some(fault) = fault_of_numbers(hunt.plan, runs, workers) {
        return Err(fault.into());
    }
    let sampler = Sampler::sites(alloc, hunt.image, hunt.excluded)?;
    let work = Work {
        alloc,
        image: hunt.image,
        plan: hunt.plan,
        seed: hunt.seed,
        sampler: &sampler,
        count: runs,
        workers: workers as u8,
        gate,
        keep,
    };
    pieces(rt, &work, 0)
}

/// Keeps whole runs.
struct KeepRun;

impl Keep for KeepRun {
    type Kept = Finished;

    ghost keeps = { λ _ core told. IsLeftBy core told };

    fn keep(&self, _alloc: Global, core: Collider<Flat>) -> Result<Finished, NoMemory> {
        Ok(core.finish())
    }
}

/// The runs of a campaign, numbered from 0 on: of each number the one run, whatever the number of workers. Each
/// worker is a thread of its own, makes the runs of consecutive numbers, and enters the gate before each of them. All
/// have ended before the answer.
pub fn campaign<R: Threads + Wait, G: Gate>(
    rt: &R,
    alloc: Global,
    image: &Image,
    plan: Plan,
    seed: u64,
    runs: u32,
    workers: u32,
    excluded: &[u32],
    gate: &G,
) -> Result<Vec<Finished>, CampaignFault<G::Shut>>
    ensures ok { IfOk result (λ told. AreRuns (record {
      image = image.now;
      plan = numbers plan;
      seed = seed;
      excluded = excluded.now;
    }) runs told.items) }
    ensures accepted { OnOk result (fault_of (numbers plan) runs workers ≡ None) }
    ensures err { IfErr result (λ fault. (fault_of (numbers plan) runs workers ≡ number_fault fault) × IsToldBy G.shuts fault) }
{
    let hunt = Hunt {
        image,
        plan,
        seed,
        excluded,
    };
    kept_campaign(rt, alloc, &hunt, runs, workers, gate, &KeepRun)
}

/// The first test that the numbers of a campaign fail, if there is one.
fn fault_of_numbers(plan: Plan, runs: u32, workers: u32) -> Option<NumberFault>
    ensures { result ≡ fault_of (numbers plan) runs workers }
{
    if !(1 <= runs && runs <= MOST_RUNS) {
        return Some(NumberFault::Runs);
    }
    if !(1 <= workers && workers <= MOST_WORKERS) {
        return Some(NumberFault::Workers);
    }
    if u64::from(runs) * u64::from(plan.most_entries()) > MOST_ENTRIES {
        return Some(NumberFault::TooLarge);
    }
    None
}
