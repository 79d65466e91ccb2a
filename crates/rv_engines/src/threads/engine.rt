//! The engine of `threads`: an image in, the endings of a run by threads and its schedule out.
ghost use Rattle.std.specs.Prelude.{◌≡◌, ◌||◌, true, false, IfErr, IfSome, OnOk, IsOkAnd, is_some};
ghost use Rattle.std.specs.Io.KnownBytes.{Appends, Keeps};
ghost use Rattle.rv_collide.specs.Numbers.{numbers};
ghost use Rattle.rv_memory.specs.Buffered as buffer;
ghost use Rattle.rv_memory.specs.Flagged as flag;
ghost use Rattle.rv_engines.specs.Campaigns.{IfWanted, passes};
ghost use Rattle.rv_faults.specs.Fault.{fails_by, is_read, is_write};
ghost use Rattle.rv_engines.specs.Images.{image_of};
ghost use Rattle.rv_engines.specs.Threads as spec;

use crate::new_file::NewFile;
use crate::run::saving::save_schedule;
use crate::threads::running::run_image;
use rv_collide::plan::Plan;
use rv_collide::texts::write_finished;
use rv_faults::fault::Fault;
use rv_memory::buffered::Buffered;
use rv_memory::flagged::Flagged;
use std::alloc::Global;
use std::io::{Read, Write};
use std::sync::Wait;
use std::thread::Threads;

/// Reads an image, runs it by a thread for each hart, and writes the endings of its pauses and the number of turns.
/// Where a file is wanted it is made first, with the schedule of the same run. An image or a run that is refused
/// makes no file and writes nothing.
pub fn run_by_threads<R: Read, F: NewFile, W: Write>(
    rt: &(impl Threads + Wait + Sync),
    alloc: Global,
    plan: Plan,
    seed: u32,
    image: &mut Flagged<R>,
    save: &mut Option<F>,
    writer: &mut Buffered<W>,
) -> Result<(), Fault>
    ensures text { OnOk result (IfSome (R.remaining (flag.device image.old)) (λ bytes.
        IsOkAnd (image_of bytes) (λ contents. spec.IsRunByThreads contents (numbers plan) seed
        (Appends (buffer.written W.contents writer.old) (buffer.sent W.contents writer.new))
        (IfWanted F.Holds save.new)))) }
    ensures wanted { is_some save.new ≡ is_some save.old }
    ensures refused { IfErr result (λ fault. IfSome (R.remaining (flag.device image.old)) (λ bytes.
        spec.IsThreadsRefusal bytes fault)) }
    ensures nothing { IfErr result (λ fault. is_write fault ≡ false
        → Keeps (buffer.sent W.contents writer.old) (buffer.sent W.contents writer.new)) }
    ensures none { IfErr result (λ fault. is_write fault ≡ false
        → passes F.is_made save.new ≡ passes F.is_made save.old) }
    ensures first { passes F.has_failed save.old ≡ false → passes F.has_failed save.new ≡ true
        → Keeps (buffer.sent W.contents writer.old) (buffer.sent W.contents writer.new) }
    ensures reader { flag.has_failed image.new ≡ (flag.has_failed image.old || fails_by is_read result) }
    ensures writers { (passes F.has_failed save.new || buffer.has_failed writer.new)
        ≡ (passes F.has_failed save.old || buffer.has_failed writer.old || fails_by is_write result) }
{
    let told = run_image(rt, alloc, plan, seed, image)?;
    save_schedule(alloc, &told, save)?;
    write_finished(writer, &told)?;
    writer.finish()?;
    Ok(())
}
