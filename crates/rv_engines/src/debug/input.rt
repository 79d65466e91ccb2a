//! The session that two files describe: an image, and a legal schedule of it.
ghost use Rattle.std.specs.Prelude.{◌≡◌, ◌||◌, false, Ok, IfOk, IfErr};
ghost use Rattle.rv_collide.specs.Legal.{IsLegal};
ghost use Rattle.rv_collide.specs.Numbers.{numbers};
ghost use Rattle.rv_collide.specs.Stored.{stored};
ghost use Rattle.rv_debug.specs.Placed.{setting};
ghost use Rattle.rv_memory.specs.Flagged as flag;
ghost use Rattle.rv_faults.specs.Fault.{fails_by, is_read, is_write};
ghost use Rattle.rv_engines.specs.Replay as spec;

use crate::image::read_digested;
use crate::replay::input::read_entries;
use rv_collide::plan::Plan;
use rv_debug::session::Session;
use rv_elf::Image;
use rv_faults::fault::Fault;
use rv_memory::flagged::Flagged;
use std::alloc::Global;
use std::io::Read;

/// An image with the digest of its file, and a session of a schedule of it.
#[derive(Drop)]
pub struct Files {
    pub image: Image,
    pub digest: String,
    pub plan: Plan,
    pub session: Session,
}

/// Reads an image and then a schedule, and opens a session of them at place 0. The image is kept beside it.
pub fn read_files<R: Read, Q: Read>(
    alloc: Global,
    image: &mut Flagged<R>,
    schedule: &mut Flagged<Q>,
) -> Result<Files, Fault>
    ensures ok { IfOk result (λ files.
        spec.IfKnown (R.remaining (flag.device image.old)) (Q.remaining (flag.device schedule.old))
        (λ i s. spec.run_of i s ≡ Ok (stored files.session.image files.session.plan files.session.entries))) }
    ensures image { IfOk result (λ files. files.session.image ≡ files.image) }
    ensures plan { IfOk result (λ files. files.session.plan ≡ numbers files.plan) }
    ensures place { IfOk result (λ files. files.session.place ≡ 0) }
    ensures legal { IfOk result (λ files. IsLegal (setting files.session) files.session.entries) }
    ensures err { IfErr result (λ fault.
        spec.IfKnown (R.remaining (flag.device image.old)) (Q.remaining (flag.device schedule.old))
        (λ i s. spec.IsReplayRefusal i s fault)) }
    ensures readers { (flag.has_failed image.new || flag.has_failed schedule.new)
        ≡ (flag.has_failed image.old || flag.has_failed schedule.old || fails_by is_read result) }
    ensures writer { fails_by is_write result ≡ false }
{
    let (contents, digest) = read_digested(alloc, image)?;
    let (plan, entries) = read_entries(alloc, schedule)?;
    match Session::new(alloc, &contents, plan, entries) {
        Ok(session) => {
            session.facts();
            Ok(Files {
                image: contents,
                digest,
                plan,
                session,
            })
        }
        Err(fault) => Err(Fault::from(fault)),
    }
}

/// Reads an image and then a schedule, and opens a session of them at place 0.
pub fn read_session<R: Read, Q: Read>(
    alloc: Global,
    image: &mut Flagged<R>,
    schedule: &mut Flagged<Q>,
) -> Result<Session, Fault>
    ensures ok { IfOk result (λ session.
        spec.IfKnown (R.remaining (flag.device image.old)) (Q.remaining (flag.device schedule.old))
        (λ i s. spec.run_of i s ≡ Ok (stored session.image session.plan session.entries))) }
    ensures place { IfOk result (λ session. session.place ≡ 0) }
    ensures legal { IfOk result (λ session. IsLegal (setting session) session.entries) }
    ensures err { IfErr result (λ fault.
        spec.IfKnown (R.remaining (flag.device image.old)) (Q.remaining (flag.device schedule.old))
        (λ i s. spec.IsReplayRefusal i s fault)) }
    ensures readers { (flag.has_failed image.new || flag.has_failed schedule.new)
        ≡ (flag.has_failed image.old || flag.has_failed schedule.old || fails_by is_read result) }
    ensures writer { fails_by is_write result ≡ false }
{
    let files = read_files(alloc, image, schedule)?;
    Ok(files.session)
}
