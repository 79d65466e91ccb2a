//! The engine of `run`: an image in, a race table and a schedule out.
ghost use Rattle.std.specs.Prelude.{◌≡◌, ◌||◌, ◌⊎◌, true, false, IfErr, IfSome, OnOk, IsOkAnd, is_some};
ghost use Rattle.std.specs.Io.KnownBytes.{Appends, Keeps};
ghost use Rattle.rv_campaign.specs.Run.{IsRun};
ghost use Rattle.rv_collide.specs.Grammar.{schedule_text};
ghost use Rattle.rv_collide.specs.Numbers.{numbers};
ghost use Rattle.rv_collide.specs.declared.collider.Finished.{Finished};
ghost use Rattle.rv_memory.specs.Buffered as buffer;
ghost use Rattle.rv_memory.specs.Flagged as flag;
ghost use Rattle.rv_report.specs.TableText.{table_text};
ghost use Rattle.rv_engines.specs.Campaigns as spec;
ghost use Rattle.rv_faults.specs.Fault as plain;
ghost use Rattle.rv_engines.specs.Request.{request};
ghost use Rattle.rv_faults.specs.CommandFault.{IsTold, refusal, fails_by, is_read, is_write};
ghost use Rattle.rv_engines.specs.internal.Hunted.{hunt_of};

use crate::new_file::NewFile;
use crate::run::hunting::{Hunted, hunt};
use crate::run::options::Options;
use crate::run::saving::save_run;
use rv_faults::command::CommandFault;
use rv_faults::fault::Fault;
use rv_memory::buffered::Buffered;
use rv_memory::flagged::Flagged;
use std::alloc::Global;
use std::io::{Read, Write};
use std::sync::Wait;
use std::thread::Threads;

/// Makes the file with the schedule of the run that is kept, where one is wanted, and then writes the race table,
/// to its last byte.
fn publish<F: NewFile, W: Write>(
    alloc: Global,
    hunted: &Hunted,
    keep: u32,
    save: &mut Option<F>,
    writer: &mut Buffered<W>,
) -> Result<(), Fault>
    ensures saved { OnOk result ((run : Finished) → IsRun (hunt_of hunted.now) keep run
        → spec.IfWanted F.Holds save.new (schedule_text (numbers run.plan) run.entries.items)) }
    ensures wanted { is_some save.new ≡ is_some save.old }
    ensures table { OnOk result (Appends (buffer.written W.contents writer.old) (buffer.sent W.contents writer.new)
        (table_text hunted.now.table)) }
    ensures refused { IfErr result (λ fault. (fault ≡ Fault.Write) ⊎ (fault ≡ Fault.NoMemory)) }
    ensures nothing { IfErr result (λ fault. plain.is_write fault ≡ false
        → Keeps (buffer.sent W.contents writer.old) (buffer.sent W.contents writer.new)) }
    ensures none { IfErr result (λ fault. plain.is_write fault ≡ false
        → spec.passes F.is_made save.new ≡ spec.passes F.is_made save.old) }
    ensures first { spec.passes F.has_failed save.old ≡ false → spec.passes F.has_failed save.new ≡ true
        → Keeps (buffer.sent W.contents writer.old) (buffer.sent W.contents writer.new) }
    ensures reader { plain.fails_by plain.is_read result ≡ false }
    ensures writers { (spec.passes F.has_failed save.new || buffer.has_failed writer.new)
        ≡ (spec.passes F.has_failed save.old || buffer.has_failed writer.old || plain.fails_by plain.is_write result) }
{
    save_run(alloc, hunted, keep, save)?;
    hunted.table.write_table(writer)?;
    writer.finish()?;
    Ok(())
}

/// Reads an image, makes the runs of a campaign of it, and writes their race table. Where a file is wanted it is
/// made first, with the schedule of the run that is kept. A campaign that is refused makes no file and writes
/// nothing.
pub fn run_campaign<'a, R: Read, F: NewFile, W: Write>(
    rt: &(impl Threads + Wait + Sync),
    alloc: Global,
    options: &Options<'a>,
    image: &mut Flagged<R>,
    save: &mut Option<F>,
    writer: &mut Buffered<W>,
) -> Result<(), CommandFault<'a>>
    ensures table { OnOk result (IfSome (R.remaining (flag.device image.old)) (λ bytes.
        IsOkAnd (spec.campaign_of (request options.now) bytes) (λ c.
        spec.IsHunted (request options.now) c
        (Appends (buffer.written W.contents writer.old) (buffer.sent W.contents writer.new))
        (spec.IfWanted F.Holds save.new)))) }
    ensures wanted { is_some save.new ≡ is_some save.old }
    ensures refused { IfErr result (λ fault. IfSome (R.remaining (flag.device image.old)) (λ bytes.
        IsTold (spec.campaign_of (request options.now) bytes) (refusal fault))) }
    ensures nothing { IfErr result (λ fault. is_write (refusal fault) ≡ false
        → Keeps (buffer.sent W.contents writer.old) (buffer.sent W.contents writer.new)) }
    ensures none { IfErr result (λ fault. is_write (refusal fault) ≡ false
        → spec.passes F.is_made save.new ≡ spec.passes F.is_made save.old) }
    ensures first { spec.passes F.has_failed save.old ≡ false → spec.passes F.has_failed save.new ≡ true
        → Keeps (buffer.sent W.contents writer.old) (buffer.sent W.contents writer.new) }
    ensures reader { flag.has_failed image.new ≡ (flag.has_failed image.old || fails_by is_read result) }
    ensures writers { (spec.passes F.has_failed save.new || buffer.has_failed writer.new)
        ≡ (spec.passes F.has_failed save.old || buffer.has_failed writer.old || fails_by is_write result) }
{
    let hunted = hunt(rt, alloc, options, image)?;
    let published = publish(alloc, &hunted, options.keep, save, writer);
    match published {
        Ok(()) => Ok(()),
        Err(fault) => Err(CommandFault::from(fault)),
    }
}
