//! The machine after a schedule.
ghost use Rattle.std.specs.Prelude.{◌≡◌, ◌≤◌, true, Some, IfOk, IfSome, length};
ghost use Rattle.std.specs.Option.{option_to_list};
ghost use Rattle.rv_collide.specs.Entries.{stepped_hart};
ghost use Rattle.rv_collide.specs.StateAt.{state_at};
ghost use Rattle.rv_hart.specs.Run.{run};
ghost use Rattle.rv_hart.specs.State.{start as first_state};

use crate::told::stepped;
use rv_collide::collider::machine_of;
use rv_collide::entry::Entry;
use rv_elf::Image;
use rv_hart::machine::{MOST_HARTS, Machine, OUTPUT_LIMIT, StepFault};
use rv_memory::paged::Paged;
use rv_memory::store::NoMemory;
use std::alloc::Global;

/// The machine that a schedule's steps lead to from an image's start, where all of them can be made.
pub(crate) fn machine_after(
    alloc: Global,
    image: &Image,
    harts: u8,
    entries: &[Entry],
) -> Result<Option<Machine<Paged>>, NoMemory>
    requires some { 1 ≤ harts }
    requires within { harts ≤ MOST_HARTS }
    ensures at { IfOk result (λ found. IfSome found (λ machine.
        state_at (first_state image.now.segments image.now.entry harts) entries.now (length entries.now)
        ≡ Some machine.state)) }
{
    let mut machine = machine_of(alloc, image, harts, OUTPUT_LIMIT)?;
    if make_steps(&mut machine, entries)? {
        Ok(Some(machine))
    } else {
        Ok(None)
    }
}

/// Makes a schedule's steps, and answers whether all of them were made.
fn make_steps(machine: &mut Machine<Paged>, entries: &[Entry]) -> Result<bool, NoMemory>
    ensures { IfOk result (λ all. all ≡ true
        → state_at machine.old.state entries.now (length entries.now) ≡ Some machine.new.state) }
{
    for place in 0..entries.len() {
        if !make_step(machine, entries[place])? {
            return Ok(false);
        }
    }
    Ok(true)
}

/// Makes the step of an entry, if it is one, and answers whether that could be made.
fn make_step(machine: &mut Machine<Paged>, entry: Entry) -> Result<bool, NoMemory>
    ensures { IfOk result (λ made. made ≡ true
        → run machine.old.state (option_to_list (stepped_hart entry)) ≡ Some machine.new.state) }
{
    let Some(hart) = stepped(entry) else {
        return Ok(true);
    };
    match machine.step(hart) {
        Ok(_) => Ok(true),
        Err(StepFault::NoMemory) => Err(NoMemory),
        Err(StepFault::NoHart | StepFault::NotRunning | StepFault::OutputFull) => Ok(false),
    }
}
