//! The races that two files say: an image, and a legal schedule of it.
ghost use Rattle.std.specs.Prelude.{◌≡◌, ◌||◌, false, Ok, IfOk, IfErr};
ghost use Rattle.rv_collide.specs.Legal.{IsLegal};
ghost use Rattle.rv_collide.specs.Stored.{stored};
ghost use Rattle.rv_debug.specs.Placed.{setting};
ghost use Rattle.rv_explain.specs.Races.{AreTold, run_of as placed_run};
ghost use Rattle.rv_memory.specs.Flagged as flag;
ghost use Rattle.rv_engines.specs.Asking.{asking};
ghost use Rattle.rv_faults.specs.CommandFault.{refusal, fails_by, is_read, is_write};
ghost use Rattle.rv_engines.specs.Explains as spec;
ghost use Rattle.rv_engines.specs.Replay.{IfKnown, run_of};
ghost use Rattle.rv_engines.specs.internal.Opened.{AreFound};

use crate::debug::input::read_files;
use crate::explain::options::ExplainOptions;
use crate::run::lists::read_named;
use rv_debug::session::Session;
use rv_elf::Image;
use rv_explain::races::{RunRaces, races_in};
use rv_faults::command::CommandFault;
use rv_faults::fault::Fault;
use rv_memory::flagged::Flagged;
use rv_memory::store::NoMemory;
use std::alloc::Global;
use std::io::Read;

/// An image with the digest of its file, a session of a schedule of it, and the races of the schedule.
#[derive(Drop)]
pub struct Opened {
    pub image: Image,
    pub digest: String,
    pub session: Session,
    pub found: RunRaces,
}

/// Reads an image and then a schedule, and finds the races of the schedule.
pub fn open_run<'a, R: Read, Q: Read>(
    alloc: Global,
    options: &ExplainOptions<'a>,
    draws: bool,
    image: &mut Flagged<R>,
    schedule: &mut Flagged<Q>,
) -> Result<Opened, CommandFault<'a>>
    ensures run { IfOk result (λ opened.
        IfKnown (R.remaining (flag.device image.old)) (Q.remaining (flag.device schedule.old))
        (λ i s. run_of i s ≡ Ok (stored opened.session.image opened.session.plan opened.session.entries))) }
    ensures image { IfOk result (λ opened. opened.session.image ≡ opened.image) }
    ensures legal { IfOk result (λ opened. IsLegal (setting opened.session) opened.session.entries) }
    ensures found { IfOk result (AreFound (asking options.now)) }
    ensures told { IfOk result (λ opened. AreTold (placed_run opened.session) opened.found.races.items) }
    ensures err { IfErr result (λ fault.
        IfKnown (R.remaining (flag.device image.old)) (Q.remaining (flag.device schedule.old))
        (λ i s. spec.IsExplainRefusal draws (asking options.now) i s (refusal fault))) }
    ensures readers { (flag.has_failed image.new || flag.has_failed schedule.new)
        ≡ (flag.has_failed image.old || flag.has_failed schedule.old || fails_by is_read result) }
    ensures writer { fails_by is_write result ≡ false }
{
    let files = read_files(alloc, image, schedule)?;
    let ranges = read_named(alloc, &files.image, options.named)?;
    match races_in(alloc, &files.image, &files.session, &ranges) {
        Ok(found) => Ok(Opened {
            image: files.image,
            digest: files.digest,
            session: files.session,
            found,
        }),
        Err(NoMemory) => Err(CommandFault::Plain(Fault::NoMemory)),
    }
}
