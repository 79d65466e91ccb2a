//! The races that are shown in full: each run that their rows name is made again by the workers, and its schedule saved.
ghost use Rattle.std.specs.Prelude.{◌≡◌, ◌≤◌, ◌<◌, ◌≢◌, All, IfOk, List, None, OnOk, Some, is_some, length, replicate, slice_get, slice_set, ℕ};
ghost use Rattle.rv_remade.specs.Saved.{IfSaved};
ghost use Rattle.rv_remade.specs.Shown.{AreShown};
ghost use Rattle.rv_remade.specs.internal.Showing as spec;

use crate::folder::{Folder, FolderFault};
use crate::shown::{InFull, Showers, ShownPart};
use rv_campaign::{PoolFault, all_made};
use rv_memory::store::NoMemory;
use rv_search::hunt::Watch;
use rv_shown::shown::ShownRace;
use std::alloc::Global;
use std::sync::Wait;
use std::thread::Threads;

/// How many runs are made together for each worker. Their schedules are held until they are saved.
const RUNS_OF_A_WORKER: usize = 2;

/// A place for each row, which holds its race once that was shown.
type Slots = Vec<Option<ShownRace>>;

fn empty_slots(alloc: Global, count: usize) -> Result<Slots, NoMemory>
    ensures { IfOk result (λ slots. slots.items ≡ replicate count None) }
{
    let mut slots = Vec::with_capacity(alloc, count)?;
    for _ in 0..count {
        slots.push(None)?;
    }
    Ok(slots)
}

/// Puts a race into its slot, where there is one.
fn put(slots: &mut Slots, place: usize, shown: ShownRace)
    ensures { slots.new.items ≡ slice_set slots.old.items place (Some shown) }
{
    if place < slots.len() {
        slots[place] = Some(shown);
    }
}

/// Makes the file of that number, where a folder is given. Where it can't be made the folder has that noted.
fn save<D: Folder>(folder: &mut Option<D>, number: u64, schedule: &[u8]) -> Result<(), NoMemory>
    ensures saved { OnOk result (IfSaved D.has_failed D.Holds folder.new number schedule.now) }
    ensures kept { (n : ℕ) (text : List ℕ) → n ≢ number
        → IfSaved D.has_failed D.Holds folder.old n text → IfSaved D.has_failed D.Holds folder.new n text }
    ensures wanted { is_some folder.new ≡ is_some folder.old }
{
    let Some(made) = folder else {
        return Ok(());
    };
    match made.make(number, schedule) {
        Ok(()) | Err(FolderFault::Write) => Ok(()),
        Err(FolderFault::NoMemory) => Err(NoMemory),
    }
}

/// Saves the schedule of a race and puts the race into its slot.
fn save_and_put<D: Folder>(
    slots: &mut Slots,
    folder: &mut Option<D>,
    place: u32,
    shown: ShownRace,
    schedule: &[u8],
) -> Result<(), NoMemory>
    ensures slots { OnOk result ((full : spec.Full) → spec.IsOfSchedule full schedule.now place shown
        → spec.AreSlots full (IfSaved D.has_failed D.Holds folder.old) slots.old.items
        → spec.AreSlots full (IfSaved D.has_failed D.Holds folder.new) slots.new.items) }
    ensures count { length slots.new.items ≡ length slots.old.items }
    ensures wanted { is_some folder.new ≡ is_some folder.old }
{
    save(folder, u64::from(place) + 1, schedule)?;
    put(slots, place as usize, shown);
    Ok(())
}

/// Takes in what is shown of a part of a run.
fn take_part<D: Folder>(
    slots: &mut Slots,
    folder: &mut Option<D>,
    part: ShownPart,
) -> Result<(), NoMemory>
    ensures slots { OnOk result ((full : spec.Full) → spec.IsShownIn full part
        → spec.AreSlots full (IfSaved D.has_failed D.Holds folder.old) slots.old.items
        → spec.AreSlots full (IfSaved D.has_failed D.Holds folder.new) slots.new.items) }
    ensures count { length slots.new.items ≡ length slots.old.items }
    ensures wanted { is_some folder.new ≡ is_some folder.old }
{
    let ShownPart {
        mut races,
        schedule,
    } = part;
    while let Some((place, shown)) = races.pop() {
        save_and_put(slots, folder, place, shown, &schedule)?;
    }
    Ok(())
}

/// Takes in what is shown of the parts of a run.
fn take_parts<D: Folder>(
    slots: &mut Slots,
    folder: &mut Option<D>,
    mut parts: Vec<ShownPart>,
) -> Result<(), NoMemory>
    ensures slots { OnOk result ((full : spec.Full) → All (spec.IsShownIn full) parts.items
        → spec.AreSlots full (IfSaved D.has_failed D.Holds folder.old) slots.old.items
        → spec.AreSlots full (IfSaved D.has_failed D.Holds folder.new) slots.new.items) }
    ensures count { length slots.new.items ≡ length slots.old.items }
    ensures wanted { is_some folder.new ≡ is_some folder.old }
{
    while let Some(part) = parts.pop() {
        take_part(slots, folder, part)?;
    }
    Ok(())
}

/// Takes in what is shown of runs.
fn take_runs<D: Folder>(
    slots: &mut Slots,
    folder: &mut Option<D>,
    mut runs: Vec<Vec<ShownPart>>,
) -> Result<(), NoMemory>
    ensures slots { OnOk result ((full : spec.Full) → All (spec.AreShown full) runs.items
        → spec.AreSlots full (IfSaved D.has_failed D.Holds folder.old) slots.old.items
        → spec.AreSlots full (IfSaved D.has_failed D.Holds folder.new) slots.new.items) }
    ensures count { length slots.new.items ≡ length slots.old.items }
    ensures wanted { is_some folder.new ≡ is_some folder.old }
{
    while let Some(parts) = runs.pop() {
        take_parts(slots, folder, parts)?;
    }
    Ok(())
}

/// Takes what a slot holds.
fn take(slots: &mut Slots, place: usize) -> Option<ShownRace>
    requires { place < length slots.old.items }
    ensures value { slice_get slots.old.items place ≡ Some result }
    ensures rest { slots.new.items ≡ slice_set slots.old.items place None }
{
    slots[place].take()
}

/// The races that the slots hold. Each row's was shown, so that none is missing.
fn races_in(alloc: Global, mut slots: Slots) -> Result<Vec<ShownRace>, NoMemory>
    ensures count { IfOk result (λ shown. length shown.items ≡ length slots.items) }
    ensures races { IfOk result (λ shown. spec.AreHeld slots.items shown.items) }
{
    let mut shown = Vec::with_capacity(alloc, slots.len())?;
    for place in 0..slots.len() {
        match take(&mut slots, place) {
            Some(race) => shown.push(race)?,
            None => return Err(NoMemory),
        }
    }
    Ok(shown)
}

/// In how many shares each of so many runs is made again, so that each worker has one.
fn shares_of(runs: usize, workers: u8) -> u32 {
    (usize::from(workers) / runs.max(1)).max(1) as u32
}

impl<'a, 'h, 's> InFull<'a, 'h, 's> {
    /// The numbers of the next runs: at most so many, which rows from a place on name whose slots are empty.
    fn next(
        &self,
        alloc: Global,
        slots: &[Option<ShownRace>],
        from: usize,
        most: usize,
    ) -> Result<Vec<u32>, NoMemory>
        requires { length slots.now ≡ length self.now.rows.now }
    {
        let mut runs: Vec<u32> = Vec::new(alloc);
        for place in from..slots.len() {
            let run = self.rows[place].1.run;
            let is_next = slots[place].is_none() && runs.len() < most;
            if is_next && !runs.iter().any(|other| *other == run) {
                runs.push(run)?;
            }
        }
        Ok(runs)
    }

    /// What is shown of runs, which the workers make.
    fn made<R: Threads + Wait>(
        &self,
        rt: &R,
        alloc: Global,
        runs: &[u32],
        workers: u8,
    ) -> Result<Vec<Vec<ShownPart>>, PoolFault>
        requires workers { workers ≤ 16 }
        requires image { self.now.symbols.now.image ≡ self.now.hunt.now.source.image }
        ensures { IfOk result (λ runs. All (spec.AreShown (spec.of_full self.now)) runs.items) }
    {
        let shares = shares_of(runs.len(), workers);
        // There are far fewer runs than 2^32.
        let Ok(count) = u32::try_from(runs.len()) else {
            return Err(PoolFault::NoMemory);
        };
        let showers = Showers {
            full: *self,
            runs,
            shares,
            count: count.saturating_mul(shares),
        };
        all_made(rt, alloc, &showers, workers)
    }

    /// Where the slot at a place is empty, makes the next runs that rows from there on name, and takes in what is shown of them.
    fn fill<R: Threads + Wait, D: Folder, W: Watch>(
        &self,
        rt: &R,
        alloc: Global,
        workers: u8,
        place: usize,
        slots: &mut Slots,
        folder: &mut Option<D>,
        watch: &mut W,
    ) -> Result<(), PoolFault>
        requires workers { workers ≤ 16 }
        requires image { self.now.symbols.now.image ≡ self.now.hunt.now.source.image }
        requires place { place < length self.now.rows.now }
        requires count { length slots.old.items ≡ length self.now.rows.now }
        ensures slots { OnOk result (spec.AreSlots (spec.of_full self.now) (IfSaved D.has_failed D.Holds folder.old) slots.old.items
            → spec.AreSlots (spec.of_full self.now) (IfSaved D.has_failed D.Holds folder.new) slots.new.items) }
        ensures count { length slots.new.items ≡ length slots.old.items }
        ensures wanted { is_some folder.new ≡ is_some folder.old }
    {
        if slots[place].is_some() {
            return Ok(());
        }
        watch.shows(place, slots.len());
        let most = RUNS_OF_A_WORKER * usize::from(workers.max(1));
        let numbers = self.next(alloc, slots, place, most)?;
        let runs = self.made(rt, alloc, &numbers, workers)?;
        take_runs(slots, folder, runs)?;
        Ok(())
    }

    /// Shows the races and saves the schedules of their runs, where a folder is given.
    pub fn show<R: Threads + Wait, D: Folder, W: Watch>(
        &self,
        rt: &R,
        alloc: Global,
        workers: u8,
        folder: &mut Option<D>,
        watch: &mut W,
    ) -> Result<Vec<ShownRace>, PoolFault>
        requires workers { workers ≤ 16 }
        requires image { self.now.symbols.now.image ≡ self.now.hunt.now.source.image }
        ensures shown { IfOk result (λ shown. AreShown self.now.hunt.now
            (IfSaved D.has_failed D.Holds folder.new) self.now.rows.now shown.items) }
        ensures wanted { is_some folder.new ≡ is_some folder.old }
    {
        let count = self.rows.len();
        let mut slots = empty_slots(alloc, count)?;
        for place in 0..count {
            self.fill(rt, alloc, workers, place, &mut slots, folder, watch)?;
        }
        Ok(races_in(alloc, slots)?)
    }
}
