//! The schedule of a run, as a file.
ghost use Rattle.std.specs.Prelude.{◌≡◌, ◌⊎◌, ◌||◌, false, IfOk, IfErr, OnOk, is_some};
ghost use Rattle.rv_campaign.specs.Run.{IsRun};
ghost use Rattle.rv_collide.specs.Grammar.{IsWritable, schedule_text};
ghost use Rattle.rv_collide.specs.Numbers.{numbers};
ghost use Rattle.rv_collide.specs.declared.collider.Finished.{Finished};
ghost use Rattle.rv_engines.specs.Campaigns as spec;
ghost use Rattle.rv_faults.specs.Fault.{fails_by, is_read, is_write};
ghost use Rattle.rv_engines.specs.internal.Hunted.{hunt_of};

use crate::new_file::NewFile;
use crate::run::hunting::Hunted;
use rv_collide::collider::Finished;
use rv_collide::schedule::write_schedule;
use rv_faults::fault::Fault;
use rv_memory::flagged::Flagged;
use rv_memory::store::NoMemory;
use std::alloc::Global;

/// The text of a run's schedule.
fn text_of(alloc: Global, run: &Finished) -> Result<Vec<u8>, NoMemory>
    requires { IsWritable (numbers run.now.plan) run.now.entries.items }
    ensures { IfOk result (λ text. text.items ≡ schedule_text (numbers run.now.plan) run.now.entries.items) }
{
    let mut writer = Flagged::new(Vec::new(alloc));
    match write_schedule(&run.plan, &run.entries, &mut writer) {
        Ok(()) => Ok(writer.into_inner()),
        // Only want of memory refuses a byte.
        Err(_) => Err(NoMemory),
    }
}

/// Makes the file with the schedule of a run.
fn make_file<F: NewFile>(alloc: Global, run: &Finished, file: &mut F) -> Result<(), Fault>
    requires { IsWritable (numbers run.now.plan) run.now.entries.items }
    ensures saved { OnOk result (F.Holds file.new (schedule_text (numbers run.now.plan) run.now.entries.items)) }
    ensures refused { IfErr result (λ fault. (fault ≡ Fault.Write) ⊎ (fault ≡ Fault.NoMemory)) }
    ensures none { IfErr result (λ fault. is_write fault ≡ false → F.is_made file.new ≡ F.is_made file.old) }
    ensures reader { fails_by is_read result ≡ false }
    ensures writer { F.has_failed file.new ≡ (F.has_failed file.old || fails_by is_write result) }
{
    let text = text_of(alloc, run)?;
    file.make(&text)?;
    Ok(())
}

/// Makes the file with the schedule of a run, where one is wanted.
pub fn save_schedule<F: NewFile>(
    alloc: Global,
    run: &Finished,
    save: &mut Option<F>,
) -> Result<(), Fault>
    requires { IsWritable (numbers run.now.plan) run.now.entries.items }
    ensures saved { OnOk result
        (spec.IfWanted F.Holds save.new (schedule_text (numbers run.now.plan) run.now.entries.items)) }
    ensures wanted { is_some save.new ≡ is_some save.old }
    ensures refused { IfErr result (λ fault. (fault ≡ Fault.Write) ⊎ (fault ≡ Fault.NoMemory)) }
    ensures none { IfErr result (λ fault. is_write fault ≡ false
        → spec.passes F.is_made save.new ≡ spec.passes F.is_made save.old) }
    ensures reader { fails_by is_read result ≡ false }
    ensures writer { spec.passes F.has_failed save.new ≡ (spec.passes F.has_failed save.old || fails_by is_write result) }
{
    match save {
        None => Ok(()),
        Some(file) => make_file(alloc, run, file),
    }
}

/// Makes the file with the schedule of the run that is kept, where a file is wanted: only then is the run made again.
pub fn save_run<F: NewFile>(
    alloc: Global,
    hunted: &Hunted,
    keep: u32,
    save: &mut Option<F>,
) -> Result<(), Fault>
    ensures saved { OnOk result ((run : Finished) → IsRun (hunt_of hunted.now) keep run
        → spec.IfWanted F.Holds save.new (schedule_text (numbers run.plan) run.entries.items)) }
    ensures wanted { is_some save.new ≡ is_some save.old }
    ensures refused { IfErr result (λ fault. (fault ≡ Fault.Write) ⊎ (fault ≡ Fault.NoMemory)) }
    ensures none { IfErr result (λ fault. is_write fault ≡ false
        → spec.passes F.is_made save.new ≡ spec.passes F.is_made save.old) }
    ensures reader { fails_by is_read result ≡ false }
    ensures writer { spec.passes F.has_failed save.new ≡ (spec.passes F.has_failed save.old || fails_by is_write result) }
{
    let Some(file) = save else {
        return Ok(());
    };
    let run = hunted.run(alloc, keep)?;
    make_file(alloc, &run, file)
}
