//! How a hart stands, also where it is paused.
ghost use Rattle.std.specs.Prelude.{◌≡◌, ◌<◌, ◌≤◌, ◌||◌, is_err, IfOk, IfSome, OnErr, OnOk, length, option_and_then, slice_get};
ghost use Rattle.std.specs.Io.KnownBytes.{Appends};
ghost use Rattle.rv_debug.specs.Placed.{SomeState};
ghost use Rattle.rv_gdb.specs.Shown.{digits_of};
ghost use Rattle.rv_hart.specs.NextAccess.{next_access};
ghost use Rattle.rv_hart.specs.SomeHart.{SomeHart};
ghost use Rattle.rv_hart.specs.Texts.{front_text};
ghost use Rattle.rv_stub.specs.Answers as answer;
ghost use Rattle.rv_stub.specs.Paused as spec;
ghost use Rattle.rv_stub.specs.Reply.{reply_text};

use crate::no_room::NoRoom;
use crate::reply::Reply;
use crate::state::Talk;
use rv_collide::entry::Entry;
use rv_collide::schedule::writing::write_slot;
use rv_debug::session::Session;
use rv_gdb::chosen::aim_of;
use rv_gdb::fields::Id;
use rv_gdb::replies::Refusal;
use rv_gdb::sheet::Sheet;
use rv_hart::access::Access;
use rv_hart::hart::Status;
use rv_hart::machine::Machine;
use rv_hart::texts::{write_access, write_status};
use rv_memory::flagged::WriteFault;
use rv_memory::output::{Output, put_pieces};
use rv_memory::store::{ByteStore, NoMemory};
use rv_text::decimal::Decimal;
use std::alloc::Global;

/// Where a pause began, and the slot that watches it.
#[derive(Clone, Copy)]
pub struct Began {
    pub place: u32,
    pub slot: Option<u8>,
}

/// A pause: where it began, and the access that the hart would have made there.
#[derive(Clone, Copy)]
pub struct Pause {
    pub slot: Option<u8>,
    pub access: Access,
}

/// What the entry at a place makes of a hart's pause.
fn turned(hart: u8, place: u32, entry: Entry, before: Option<Began>) -> Option<Began>
    ensures { result ≡ spec.turned hart place entry before }
{
    match entry {
        Entry::Paused(other, slot) if other == hart => Some(Began { place, slot }),
        Entry::Resumed(other) if other == hart => None,
        _ => before,
    }
}

/// The pause in which a hart stands before an entry.
fn pause_before(entries: &[Entry], hart: u8, place: u32) -> Option<Began>
    requires { place ≤ length entries.now }
    ensures value { result ≡ spec.pause_before entries.now hart place }
    ensures before { IfSome result (λ began. began.place < place) }
{
    let mut began = None;
    for at in 0..place {
        began = turned(hart, at, entries[at as usize], began);
    }
    began
}

/// The next access of a hart, if there is that hart.
fn next_of<S: ByteStore>(machine: &Machine<S>, hart: u8) -> Option<Access>
    ensures { result ≡ option_and_then (λ found. next_access machine.now.state hart) (slice_get machine.now.state.harts hart) }
{
    if hart >= machine.harts() {
        return None;
    }
    machine.next_access(hart)
}

/// The access that a hart would have made where its pause began.
fn paused_access(session: &mut Session, hart: u8, began: Began) -> Result<Option<Access>, NoMemory>
    requires { began.place ≤ length session.old.entries }
    ensures value { IfOk result (λ access. access ≡ spec.paused_access session.old hart began) }
    ensures same { session.new ≡ session.old }
{
    let visit = session.visit(began.place)?;
    Ok(next_of(visit.machine(), hart))
}

/// How a hart is paused at the place.
fn pause_of(session: &mut Session, hart: u8) -> Result<Option<Pause>, NoMemory>
    ensures value { IfOk result (λ pause. pause ≡ spec.pause_of session.old hart) }
    ensures same { session.new ≡ session.old }
{
    let place = session.place();
    let Some(began) = pause_before(session.entries(), hart, place) else {
        return Ok(None);
    };
    match paused_access(session, hart, began)? {
        Some(access) => Ok(Some(Pause {
            slot: began.slot,
            access,
        })),
        None => Ok(None),
    }
}

fn write_front<O: Output>(writer: &mut O, hart: u8) -> Result<(), WriteFault>
    ensures ok { OnOk result (Appends (O.written writer.old) (O.written writer.new) (front_text hart)) }
    ensures failed { O.has_failed writer.new ≡ (O.has_failed writer.old || is_err result) }
{
    let number = Decimal::new(u64::from(hart));
    put_pieces(writer, &[b"hart ", number.as_bytes(), b" "])
}

fn write_pause<O: Output>(writer: &mut O, pause: &Pause) -> Result<(), WriteFault>
    ensures ok { OnOk result (Appends (O.written writer.old) (O.written writer.new) (spec.paused_text pause.now.slot pause.now.access)) }
    ensures failed { O.has_failed writer.new ≡ (O.has_failed writer.old || is_err result) }
{
    writer.put(b"paused at ")?;
    write_access(writer, &pause.access)?;
    writer.put(b" slot ")?;
    write_slot(writer, pause.slot)
}

/// Writes how a hart stands: how it is paused, or else its status.
fn write_standing<O: Output>(
    writer: &mut O,
    hart: u8,
    status: Status,
    pause: &Option<Pause>,
) -> Result<(), WriteFault>
    ensures ok { OnOk result (Appends (O.written writer.old) (O.written writer.new) (spec.how_text pause.now hart status)) }
    ensures failed { O.has_failed writer.new ≡ (O.has_failed writer.old || is_err result) }
{
    write_front(writer, hart)?;
    match pause {
        None => write_status(writer, status)?,
        Some(pause) => write_pause(writer, pause)?,
    }
    Ok(())
}

/// The answer that tells how a hart stands.
fn reply_of_standing(alloc: Global, session: &mut Session, hart: u8) -> Result<Reply, NoRoom>
    requires { SomeState (λ s. hart < length s.harts) session.old }
    ensures text { IfOk result (λ reply. SomeState (λ s. SomeHart (λ h. reply_text reply ≡ digits_of (spec.standing_text session.old hart h)) s hart) session.old) }
    ensures same { session.new ≡ session.old }
{
    let pause = pause_of(session, hart)?;
    let mut text = Sheet::new(alloc);
    write_standing(&mut text, hart, session.machine().status(hart), &pause)?;
    Reply::of_digits(alloc, text.as_bytes())
}

impl Talk {
    /// Tells how a thread stands.
    pub(crate) fn tell(&mut self, alloc: Global, id: Id) -> Result<Reply, NoRoom>
        ensures ok { IfOk result (λ reply. answer.telling self.old id ≡ record { text = reply_text reply; after = self.new }) }
        ensures refused { OnErr result (self.new ≡ self.old) }
    {
        let harts = self.session.machine().harts();
        match aim_of(harts, id) {
            Some(Some(hart)) if hart < harts => reply_of_standing(alloc, &mut self.session, hart),
            _ => Ok(Reply::refused(Refusal::NoSuch)),
        }
    }
}
