//! The run by threads of an image that is read.
ghost use Rattle.std.specs.Prelude.{◌≡◌, ◌||◌, false, IfOk, IfErr, IfSome, IsOkAnd};
ghost use Rattle.rv_collide.specs.Grammar.{IsWritable};
ghost use Rattle.rv_collide.specs.Numbers.{numbers};
ghost use Rattle.rv_locked.specs.Threaded.{IsThreaded};
ghost use Rattle.rv_memory.specs.Flagged as flag;
ghost use Rattle.rv_faults.specs.Fault.{fails_by, is_read, is_write};
ghost use Rattle.rv_engines.specs.Images.{image_of};
ghost use Rattle.rv_engines.specs.Threads as spec;

use crate::image::read_image;
use rv_collide::collider::Finished;
use rv_collide::plan::Plan;
use rv_collide::schedule::laws::legal_is_writable;
use rv_faults::fault::Fault;
use rv_locked::gate::FreeGate;
use rv_locked::threads::run_threads;
use rv_memory::flagged::Flagged;
use std::alloc::Global;
use std::io::Read;
use std::sync::Wait;
use std::thread::Threads;

/// Reads an image, and runs it by threads that nothing holds up.
pub fn run_image<R: Read>(
    rt: &(impl Threads + Wait + Sync),
    alloc: Global,
    plan: Plan,
    seed: u32,
    image: &mut Flagged<R>,
) -> Result<Finished, Fault>
    ensures ok { IfOk result (λ told. IfSome (R.remaining (flag.device image.old)) (λ bytes.
        IsOkAnd (image_of bytes) (λ contents. IsThreaded contents (numbers plan) seed told))) }
    ensures writable { IfOk result (λ told. IsWritable (numbers told.plan) told.entries.items) }
    ensures err { IfErr result (λ fault. IfSome (R.remaining (flag.device image.old)) (λ bytes.
        spec.IsThreadsRefusal bytes fault)) }
    ensures reader { flag.has_failed image.new ≡ (flag.has_failed image.old || fails_by is_read result) }
    ensures writer { fails_by is_write result ≡ false }
{
    legal_is_writable();
    let contents = read_image(alloc, image)?;
    match run_threads(rt, alloc, &contents, plan, u64::from(seed), &FreeGate) {
        Ok(told) => Ok(told),
        Err(fault) => Err(Fault::from(fault)),
    }
}
