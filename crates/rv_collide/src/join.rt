//! A run that went on from the middle of another is told from that other's start.
ghost use Rattle.std.specs.Prelude.{◌≡◌, ℕ, ◌+◌, ◌<◌, ◌^◌, ◌++◌, ◌∷◌, All, List, IfOk, count_by, length, map, max, min};
ghost use Rattle.rv_collide.specs.Armed.{arms};
ghost use Rattle.rv_collide.specs.Joined.{Fork, GoesOnFrom, IsNarrowed, IsWhole, ending_later, steps_needed};
ghost use Rattle.rv_collide.specs.declared.entry.Entry.{Entry};
ghost use Rattle.rv_collide.specs.Legal.{IsLegal};
ghost use Rattle.rv_collide.specs.Numbers.{numbers};
ghost use Rattle.rv_collide.specs.declared.plan.TheConstants.{MOST_ARMS, MOST_STEPS};
ghost use Rattle.rv_collide.specs.internal.Joins.{IsPlaced, IsMovedBy};
ghost use Rattle.rv_hart.specs.State.{State};

use crate::collider::Finished;
use crate::ending::{Ending, Verdict};
use crate::entry::Entry;
use crate::plan::{MOST_ARMS, MOST_STEPS, Plan};
use rv_break::claim::Seen;
use rv_memory::store::NoMemory;
use std::alloc::Global;

/// What a run leaves that went on from the end of a prefix, told from the prefix's start: the entries of both, the endings with
/// places among them, and a plan with just the steps and arms that these need. `told` are the prefix's endings; what the run
/// leaves tells its places from the fork on.
pub fn joined(
    alloc: Global,
    prefix: &[Entry],
    told: &[Ending],
    own: Finished,
) -> Result<Finished, NoMemory>
    requires { length prefix.now + length own.entries.items < 2 ^ 32 }
    ensures entries { IfOk result (λ whole. whole.entries.items ≡ prefix.now ++ own.entries.items) }
    ensures output { IfOk result (λ whole. whole.output.items ≡ own.output.items) }
    ensures whole { IfOk result (λ whole. (fork : Fork)
        → GoesOnFrom fork prefix.now told.now (numbers own.plan) own.entries.items own.endings.items
        → IsWhole fork (numbers own.plan) (numbers whole.plan) whole.entries.items whole.endings.items) }
{
    let Finished {
        plan,
        entries: made,
        endings: ended,
        output,
    } = own;
    let entries = entries_joined(alloc, prefix, &made)?;
    let endings = endings_joined(alloc, told, prefix.len() as u32, &ended)?;
    let plan = plan_needed(plan, &entries);
    Ok(Finished {
        plan,
        entries,
        endings,
        output,
    })
}

/// What a run leaves, under a plan with just the steps and arms that its entries need.
pub fn narrowed(told: Finished) -> Finished
    ensures entries { result.entries.items ≡ told.entries.items }
    ensures endings { result.endings.items ≡ told.endings.items }
    ensures output { result.output.items ≡ told.output.items }
    ensures plan { (start : State) → IsLegal (record { start = start; plan = numbers told.plan }) told.entries.items
        → IsNarrowed start (numbers told.plan) (numbers result.plan) told.entries.items }
{
    let Finished {
        plan,
        entries,
        endings,
        output,
    } = told;
    let plan = plan_needed(plan, &entries);
    Finished {
        plan,
        entries,
        endings,
        output,
    }
}

fn entries_joined(alloc: Global, prefix: &[Entry], made: &[Entry]) -> Result<Vec<Entry>, NoMemory>
    requires { length prefix.now + length made.now < 2 ^ 32 }
    ensures { IfOk result (λ entries. entries.items ≡ prefix.now ++ made.now) }
{
    let mut entries = Vec::with_capacity(alloc, prefix.len() + made.len())?;
    entries.extend_from_slice(prefix)?;
    entries.extend_from_slice(made)?;
    Ok(entries)
}

/// The endings told before, and then those of the fork, whose places count from it.
fn endings_joined(
    alloc: Global,
    told: &[Ending],
    by: u32,
    ended: &[Ending],
) -> Result<Vec<Ending>, NoMemory>
    ensures { IfOk result (λ endings. All (IsPlaced by) ended.now
        → endings.items ≡ told.now ++ map (ending_later by) ended.now) }
{
    let mut endings = Vec::from_slice(alloc, told)?;
    for ending in ended {
        endings.push(later(by, *ending))?;
    }
    Ok(endings)
}

/// The ending at places that are greater. No place of a schedule comes near to where this would stop.
fn later(by: u32, told: Ending) -> Ending
    ensures { IsPlaced by told → result ≡ ending_later by told }
{
    Ending {
        hart: told.hart,
        paused_at: by.saturating_add(told.paused_at),
        resumed_at: by.saturating_add(told.resumed_at),
        access: told.access,
        slot: told.slot,
        verdict: verdict_later(by, told.verdict),
        old: told.old,
        new: told.new,
    }
}

fn verdict_later(by: u32, verdict: Verdict) -> Verdict
    ensures { IsMovedBy by verdict result }
{
    match verdict {
        Verdict::Hit(seen) => Verdict::Hit(Seen {
            place: by.saturating_add(seen.place),
            hart: seen.hart,
            access: seen.access,
        }),
        Verdict::Changed => Verdict::Changed,
        Verdict::Quiet => Verdict::Quiet,
    }
}

/// The plan with just the steps and arms that a list needs; at least one step, as each plan has.
fn plan_needed(plan: Plan, entries: &[Entry]) -> Plan
    ensures { numbers result ≡ record (numbers plan) {
      steps = max 1 (min MOST_STEPS (steps_needed entries.now));
      arms = min MOST_ARMS (count_by arms entries.now);
    } }
{
    Plan {
        harts: plan.harts,
        steps: steps_needed(entries).max(1),
        arms: arms_made(entries),
        pause: plan.pause,
        slots: plan.slots,
    }
}

/// How many steps a plan must have for the list, counted from its end, up to the most that a plan may have.
fn steps_needed(entries: &[Entry]) -> u32
    ensures { result ≡ min MOST_STEPS (steps_needed entries.now) }
{
    let mut needed = 0;
    let mut place = entries.len();
    while place > 0 {
        place -= 1;
        needed = needed_before(entries[place], needed);
    }
    needed
}

/// The same with one entry more before.
fn needed_before(entry: Entry, needed: u32) -> u32
    ensures { (later : List Entry) → needed ≡ min MOST_STEPS (steps_needed later)
        → result ≡ min MOST_STEPS (steps_needed (entry ∷ later)) }
{
    match entry {
        Entry::Stepped(_) => needed.saturating_add(1).min(MOST_STEPS),
        Entry::Paused(_, _) => needed.max(1),
        Entry::Resumed(_) => needed,
        Entry::Armed(_) => needed,
        Entry::Disarmed(_) => needed,
    }
}

/// How many addresses the list arms, up to the most that a plan may arm.
fn arms_made(entries: &[Entry]) -> u32
    ensures { result ≡ min MOST_ARMS (count_by arms entries.now) }
{
    let mut made = 0;
    for entry in entries {
        if let Entry::Armed(_) = entry {
            made = (made + 1).min(MOST_ARMS);
        }
    }
    made
}
