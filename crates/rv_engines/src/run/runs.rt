//! The runs of a campaign, of each of which its endings are kept.
ghost use Rattle.std.specs.Prelude.{◌≡◌, None, IfOk, IfErr, OnOk};
ghost use Rattle.rv_campaign.specs.Campaign.{fault_of, number_fault};
ghost use Rattle.rv_collide.specs.Numbers.{numbers};
ghost use Rattle.rv_collide.specs.Stored.{setting_of};
ghost use Rattle.rv_collide.specs.Verdict as verdict;
ghost use Rattle.rv_engines.specs.internal.KeptRuns.{AreOfRuns, IsKeptRun, IsSmall};

use crate::run::options::Options;
use rv_campaign::{CampaignFault, Hunt, Keep, kept_campaign};
use rv_collide::collider::Collider;
use rv_collide::ending::Ending;
use rv_drive::gate::FreeGate;
use rv_elf::Image;
use rv_memory::flat::Flat;
use rv_memory::store::NoMemory;
use std::alloc::Global;
use std::convert::Infallible;
use std::sync::Wait;
use std::thread::Threads;

/// Keeps the endings of each run, in order. Its schedule, which is far larger, is let go.
struct KeepEndings;

impl Keep for KeepEndings {
    type Kept = Vec<Ending>;

    ghost keeps = { λ _ core kept. IsKeptRun core kept };

    fn keep(&self, alloc: Global, core: Collider<Flat>) -> Result<Vec<Ending>, NoMemory> {
        small(&core);
        endings(alloc, &core)
    }
}

/// What a run leaves has room in memory.
fn small(core: &Collider<Flat>)
    ensures { IsSmall core.now }
{
    let _entries = core.entries();
    let _printed = core.machine().output().len();
}

/// The endings of a run.
fn endings(alloc: Global, core: &Collider<Flat>) -> Result<Vec<Ending>, NoMemory>
    ensures { IfOk result (λ kept. kept.items ≡ verdict.endings (setting_of core.now).start core.now.entries) }
{
    let mut kept = Vec::with_capacity(alloc, core.endings() as usize)?;
    for n in 0..core.endings() {
        kept.push(core.ending(n))?;
    }
    Ok(kept)
}

/// The endings of the runs of a campaign, run by run.
pub fn endings_of_campaign(
    rt: &(impl Threads + Wait),
    alloc: Global,
    options: &Options<'_>,
    image: &Image,
    excluded: &[u32],
) -> Result<Vec<Vec<Ending>>, CampaignFault<Infallible>>
    ensures ok { IfOk result (λ kept. AreOfRuns (record {
      image = image.now;
      plan = numbers options.now.plan;
      seed = options.now.seed;
      excluded = excluded.now;
    }) options.now.runs kept.items) }
    ensures accepted { OnOk result (fault_of (numbers options.now.plan) options.now.runs options.now.workers ≡ None) }
    ensures err { IfErr result (λ fault. fault_of (numbers options.now.plan) options.now.runs options.now.workers
        ≡ number_fault fault) }
{
    let hunt = Hunt {
        image,
        plan: options.plan,
        seed: u64::from(options.seed),
        excluded,
    };
    kept_campaign(
        rt,
        alloc,
        &hunt,
        options.runs,
        options.workers,
        &FreeGate,
        &KeepEndings,
    )
}
