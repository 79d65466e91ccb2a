//! The core that two files describe: an image, and a schedule whose calls are made again.
ghost use Rattle.std.specs.Prelude.{◌≡◌, ◌||◌, false, Ok, IfOk, IfErr, IfSome};
ghost use Rattle.rv_collide.specs.Numbers.{numbers};
ghost use Rattle.rv_collide.specs.ScheduleRead.{schedule_of};
ghost use Rattle.rv_memory.specs.Flagged as flag;
ghost use Rattle.rv_faults.specs.Fault.{IsToldFault, fails_by, is_read, is_write};
ghost use Rattle.rv_engines.specs.Replay as spec;

use crate::image::read_image;
use rv_collide::collider::Collider;
use rv_collide::entry::Entry;
use rv_collide::plan::Plan;
use rv_collide::replay::replay;
use rv_collide::schedule::read_schedule;
use rv_faults::fault::Fault;
use rv_memory::flagged::Flagged;
use rv_memory::flat::Flat;
use std::alloc::Global;
use std::io::Read;

/// Reads a plan and its entries.
pub fn read_entries<R: Read>(
    alloc: Global,
    reader: &mut Flagged<R>,
) -> Result<(Plan, Vec<Entry>), Fault>
    ensures ok { IfOk result (λ said. IfSome (R.remaining (flag.device reader.old)) (λ bytes.
        schedule_of bytes ≡ Ok (record { numbers = numbers said.0; entries = said.1.items }))) }
    ensures err { IfErr result (λ fault. IfSome (R.remaining (flag.device reader.old)) (λ bytes.
        IsToldFault (spec.told_schedule (schedule_of bytes)) fault)) }
    ensures reader { flag.has_failed reader.new ≡ (flag.has_failed reader.old || fails_by is_read result) }
    ensures writer { fails_by is_write result ≡ false }
{
    match read_schedule(alloc, reader) {
        Ok(said) => Ok(said),
        Err(fault) => Err(Fault::from(fault)),
    }
}

/// Reads an image and then a schedule, and makes the schedule's calls.
pub fn read_run<R: Read, Q: Read>(
    alloc: Global,
    image: &mut Flagged<R>,
    schedule: &mut Flagged<Q>,
) -> Result<Collider<Flat>, Fault>
    ensures ok { IfOk result (λ run.
        spec.IfKnown (R.remaining (flag.device image.old)) (Q.remaining (flag.device schedule.old))
        (λ i s. spec.run_of i s ≡ Ok run)) }
    ensures err { IfErr result (λ fault.
        spec.IfKnown (R.remaining (flag.device image.old)) (Q.remaining (flag.device schedule.old))
        (λ i s. spec.IsReplayRefusal i s fault)) }
    ensures readers { (flag.has_failed image.new || flag.has_failed schedule.new)
        ≡ (flag.has_failed image.old || flag.has_failed schedule.old || fails_by is_read result) }
    ensures writer { fails_by is_write result ≡ false }
{
    let contents = read_image(alloc, image)?;
    let (plan, entries) = read_entries(alloc, schedule)?;
    match replay(alloc, &contents, plan, &entries) {
        Ok(collider) => Ok(collider),
        Err(fault) => Err(Fault::from(fault)),
    }
}
