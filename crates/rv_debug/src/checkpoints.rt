//! Machines at some of a schedule's places, from which any other is near.
ghost use Rattle.std.specs.Prelude.{◌≡◌, ◌⊎◌, ◌≤◌, ◌+◌, ◌*◌, ◌/◌, ◌<◌, [], IfOk, IfErr, OnOk, length};
ghost use Rattle.rv_collide.specs.Legal.{IsLegal};
ghost use Rattle.rv_collide.specs.Numbers.{numbers};
ghost use Rattle.rv_collide.specs.Replays.{IsReplayFault};
ghost use Rattle.rv_collide.specs.Stored.{setting_of, stored};
ghost use Rattle.rv_collide.specs.Verdict.{endings};
ghost use Rattle.rv_debug.specs.internal.Session.{AreCheckpoints, HasOneMore, StandsAt};

use crate::schedule::Schedule;
use rv_collide::collider::Collider;
use rv_collide::ending::Ending;
use rv_collide::entry::Entry;
use rv_collide::plan::Plan;
use rv_collide::replay::{ReplayFault, replay_up_to};
use rv_collide::walk_laws::steps_of_legal_schedules;
use rv_elf::Image;
use rv_hart::machine::Machine;
use rv_memory::paged::Paged;
use rv_memory::store::NoMemory;
use std::alloc::Global;

/// How many entries stand between a checkpoint and the next.
pub(crate) const CHECKPOINT_ENTRIES: u32 = 1024;

/// What one pass over a list of entries leaves: the checkpoints, the endings of its pauses, and how many entries there are.
#[derive(Drop)]
pub(crate) struct Passed {
    pub(crate) checkpoints: Vec<Machine<Paged>>,
    pub(crate) endings: Vec<Ending>,
    pub(crate) count: u32,
}

/// One pass over a list of entries, each of which is what its call adds.
pub(crate) fn pass_over(
    alloc: Global,
    image: &Image,
    plan: Plan,
    entries: &[Entry],
) -> Result<Passed, ReplayFault>
    ensures ok { IfOk result (λ passed. AreCheckpoints (stored image.now (numbers plan) entries.now) passed.checkpoints.items) }
    ensures endings { IfOk result (λ passed. passed.endings.items ≡ endings (setting_of (stored image.now (numbers plan) entries.now)).start entries.now) }
    ensures counted { IfOk result (λ passed. passed.count ≡ length entries.now) }
    ensures legal { OnOk result (IsLegal (setting_of (stored image.now (numbers plan) [])) entries.now) }
    ensures err { IfErr result (λ fault. IsReplayFault (setting_of (stored image.now (numbers plan) [])) entries.now fault) }
{
    let count = entries.len() / CHECKPOINT_ENTRIES as usize + 1;
    let Ok(mut checkpoints) = Vec::with_capacity(alloc, count) else {
        return Err(ReplayFault::NoMemory);
    };
    let Ok(mut collider) = Collider::new(alloc, image, plan) else {
        return Err(ReplayFault::NoMemory);
    };
    add_checkpoints(&mut checkpoints, &mut collider, entries, count)?;
    collider.facts();
    Ok(Passed {
        checkpoints,
        count: collider.entries(),
        endings: collider.finish().endings,
    })
}

/// Makes the calls of a list of entries on a new core, and adds the checkpoints on the way.
fn add_checkpoints(
    checkpoints: &mut Vec<Machine<Paged>>,
    collider: &mut Collider<Paged>,
    entries: &[Entry],
    count: usize,
) -> Result<(), ReplayFault>
    requires new { collider.old ≡ stored collider.old.image collider.old.plan [] }
    requires none { checkpoints.old.items ≡ [] }
    requires count { count ≡ length entries.now / CHECKPOINT_ENTRIES + 1 }
    ensures core { OnOk result (collider.new ≡ stored collider.old.image collider.old.plan entries.now) }
    ensures held { OnOk result (AreCheckpoints (stored collider.old.image collider.old.plan entries.now) checkpoints.new.items) }
    ensures err { IfErr result (λ fault. IsReplayFault (setting_of collider.old) entries.now fault) }
{
    for c in 0..count {
        let Ok(()) = add_checkpoint(checkpoints, collider) else {
            return Err(ReplayFault::NoMemory);
        };
        replay_up_to(collider, entries, next_checkpoint(c, entries.len()))?;
    }
    Ok(())
}

/// The place of the checkpoint after one, or how many entries there are, if that is less.
fn next_checkpoint(c: usize, entries: usize) -> usize
    requires { CHECKPOINT_ENTRIES * c ≤ entries }
    ensures forwards { CHECKPOINT_ENTRIES * c ≤ result }
    ensures within { result ≤ entries }
    ensures next { (result ≡ CHECKPOINT_ENTRIES * (c + 1)) ⊎ ((result ≡ entries) × (entries ≤ CHECKPOINT_ENTRIES * (c + 1))) }
{
    let every = CHECKPOINT_ENTRIES as usize;
    let place = every * c;
    if entries - place < every {
        entries
    } else {
        place + every
    }
}

/// Adds a checkpoint of the core as it is now.
fn add_checkpoint(
    checkpoints: &mut Vec<Machine<Paged>>,
    collider: &mut Collider<Paged>,
) -> Result<(), NoMemory>
    ensures same { collider.new ≡ collider.old }
    ensures added { OnOk result (HasOneMore collider.old checkpoints.old.items checkpoints.new.items) }
{
    let checkpoint = collider.share_machine()?;
    checkpoints.push(checkpoint)?;
    Ok(())
}

/// The nearest checkpoint at or before a place, from which fewer than `CHECKPOINT_ENTRIES` entries lead there.
pub(crate) fn nearest(place: u32) -> u32
    ensures before { CHECKPOINT_ENTRIES * result ≤ place }
    ensures near { place < CHECKPOINT_ENTRIES * (result + 1) }
{
    place / CHECKPOINT_ENTRIES
}

/// The machine at a place, from the nearest checkpoint at or before it. The checkpoints stay, also where memory is
/// refused.
pub(crate) fn machine_at(
    schedule: &Schedule,
    checkpoints: &mut Vec<Machine<Paged>>,
    place: u32,
) -> Result<Machine<Paged>, NoMemory>
    requires checkpoints { AreCheckpoints schedule.now checkpoints.old.items }
    requires within { place ≤ length schedule.now.entries }
    ensures same { checkpoints.new.items ≡ checkpoints.old.items }
    ensures at { IfOk result (λ machine. StandsAt schedule.now place machine) }
{
    let checkpoint = nearest(place);
    let mut machine = second(schedule, checkpoints, checkpoint)?;
    schedule.walk(&mut machine, CHECKPOINT_ENTRIES * checkpoint, place)?;
    Ok(machine)
}

/// A second machine as a checkpoint is, which may print as many bytes as the plan allows steps.
fn second(
    schedule: &Schedule,
    checkpoints: &mut Vec<Machine<Paged>>,
    c: u32,
) -> Result<Machine<Paged>, NoMemory>
    requires checkpoints { AreCheckpoints schedule.now checkpoints.old.items }
    requires within { CHECKPOINT_ENTRIES * c ≤ length schedule.now.entries }
    ensures same { checkpoints.new.items ≡ checkpoints.old.items }
    ensures at { IfOk result (λ machine. StandsAt schedule.now (CHECKPOINT_ENTRIES * c) machine) }
{
    steps_of_legal_schedules();
    schedule.facts();
    let limit = schedule.steps();
    let checkpoint = &mut checkpoints[c as usize];
    checkpoint.share(limit)
}
