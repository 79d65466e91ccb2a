//! What other harts do within a pause.
ghost use Rattle.std.specs.Prelude.{◌≡◌, ◌+◌, ◌<◌, ◌≤◌, [], ◌∷◌, ◌++◌, IfOk, IfSome, OnOk, OnErr, length, map, option_and_then, option_map};
ghost use Rattle.std.specs.Option.{option_map_or};
ghost use Rattle.rv_collide.specs.Answers.{pause_of};
ghost use Rattle.rv_collide.specs.Entries.{stepped_at};
ghost use Rattle.rv_collide.specs.First.{seen_at};
ghost use Rattle.rv_collide.specs.Pause.{within};
ghost use Rattle.rv_debug.specs.Placed.{moved};
ghost use Rattle.rv_explain.specs.BlockOf as spec;
ghost use Rattle.rv_races.specs.Judged as judged;
ghost use Rattle.rv_races.specs.Races.{run_of};

use crate::meeting::{is_within, met, wrote};
use crate::told::stepped;
use rv_break::claim::Seen;
use rv_collide::ending::Ending;
use rv_debug::session::{Session, SessionFault};
use rv_hart::access::Access;
use rv_memory::store::NoMemory;
use std::alloc::Global;

/// What the entries within a pause do to its bytes: the last store, and of each whether its access meets them.
#[derive(Drop)]
pub(crate) struct Walked {
    pub last: Option<Seen>,
    pub meets: Vec<bool>,
}

/// Goes to a place that there is.
pub(crate) fn go_to(session: &mut Session, place: u32) -> Result<(), NoMemory>
    requires { place ≤ length session.old.entries }
    ensures ok { OnOk result (session.new ≡ moved session.old place) }
    ensures refused { OnErr result (session.new ≡ session.old) }
{
    if session.place() == place {
        return Ok(());
    }
    match session.go(place) {
        Ok(()) => Ok(()),
        Err(SessionFault::NoPlace) => unreachable!(),
        Err(_) => Err(NoMemory),
    }
}

/// The hart that makes a step at the session's place.
fn stepping(session: &Session) -> Option<u8>
    requires { session.now.place < length session.now.entries }
    ensures { result ≡ stepped_at session.now.entries session.now.place }
{
    stepped(session.entries()[session.place() as usize])
}

/// An access as a report names it, where a hart made one.
fn seen_by(place: u32, hart: Option<u8>, access: Option<Access>) -> Option<Seen>
    ensures { result ≡ option_and_then (λ hart. option_map (λ access. record {
      place = place;
      hart = hart;
      access = access;
    }) access) hart }
{
    let hart = hart?;
    let access = access?;
    Some(Seen {
        place,
        hart,
        access,
    })
}

/// The later of two accesses where there is one and it writes one of the bytes.
fn last_after(paused: &Access, last: Option<Seen>, seen: Option<Seen>) -> Option<Seen>
    ensures { result ≡ option_map_or (judged.store_or paused.now last) seen last }
{
    match seen {
        Some(seen) if wrote(paused, &Some(seen.access)) => Some(seen),
        _ => last,
    }
}

impl Walked {
    /// Goes on by the entry at the session's place.
    fn pass(&mut self, session: &mut Session, told: &Ending) -> Result<(), NoMemory>
        requires { session.old.place < length session.old.entries }
        ensures last { OnOk result (self.new.last ≡ option_map_or (judged.store_or told.now.access self.old.last)
            (seen_at (run_of session.old).start session.old.entries session.old.place) self.old.last) }
        ensures meets { OnOk result (self.new.meets.items
            ≡ self.old.meets.items ++ spec.meets_at (run_of session.old) told.now session.old.place ∷ []) }
        ensures after { OnOk result (session.new ≡ moved session.old (session.old.place + 1)) }
        ensures refused { OnErr result (session.new ≡ moved session.old session.new.place) }
    {
        let place = session.place();
        let hart = stepping(session);
        let access = session.pass()?;
        self.meets
            .push(is_within(told, place) && met(&told.access, &access))?;
        self.last = last_after(&told.access, self.last, seen_by(place, hart, access));
        Ok(())
    }
}

/// Walks once over a pause.
pub(crate) fn walk(alloc: Global, session: &mut Session, told: &Ending) -> Result<Walked, NoMemory>
    requires starts { told.now.paused_at < told.now.resumed_at }
    requires inside { told.now.resumed_at < length session.old.entries }
    ensures last { IfOk result (λ walked. walked.last ≡ judged.last_store (run_of session.old) told.now) }
    ensures before { IfOk result (λ walked. IfSome walked.last (λ seen. seen.place < told.now.resumed_at)) }
    ensures meets { IfOk result (λ walked.
        walked.meets.items ≡ map (spec.meets_at (run_of session.old) told.now) (within (pause_of told.now))) }
    ensures same { session.new ≡ moved session.old session.new.place }
{
    go_to(session, told.paused_at + 1)?;
    let mut walked = Walked {
        last: None,
        meets: Vec::new(alloc),
    };
    for place in told.paused_at + 1..told.resumed_at {
        let _here = place;
        walked.pass(session, told)?;
    }
    Ok(walked)
}
