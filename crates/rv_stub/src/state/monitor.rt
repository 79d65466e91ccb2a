//! The commands that a user gives by GDB's `monitor`.
ghost use Rattle.std.specs.Prelude.{◌≡◌, ◌∷◌, [], ◌++◌, ◌||◌, ◌≤◌, is_err, IfOk, None, OnErr, OnOk, length, slice_get};
ghost use Rattle.std.specs.Io.KnownBytes.{Appends};
ghost use Rattle.rv_collide.specs.Texts.{ending_line};
ghost use Rattle.rv_debug.specs.Placed.{moved};
ghost use Rattle.rv_gdb.specs.Shown.{digits_of};
ghost use Rattle.rv_stub.specs.Answers as spec;
ghost use Rattle.rv_stub.specs.Reply.{reply_text};

use crate::no_room::NoRoom;
use crate::reply::Reply;
use crate::state::Talk;
use crate::state::met::{Met, ending_of, met_by};
use rv_collide::ending::Ending;
use rv_collide::entry::Entry;
use rv_collide::schedule::writing::write_entry;
use rv_collide::texts::write_ending;
use rv_debug::session::Session;
use rv_gdb::monitor::Order;
use rv_gdb::sheet::Sheet;
use rv_memory::flagged::WriteFault;
use rv_memory::output::{Output, put_pieces};
use rv_text::decimal::Decimal;
use std::alloc::Global;

const HELP: &[u8] = b"where      the place in the record, and the entry that is next\n\
    entry N    to place N\n\
    ending N   to the pause of ending N\n\
    hit N      to before the access that met the pause of ending N\n\
    help       this text\n\
    After `entry`, `ending` and `hit` say\n\
    \x20   maintenance flush register-cache\n    maintenance flush dcache\n\
    since GDB shows what it knew before, and `thread T` where T is told.\n\
    With `set scheduler-locking step` steps follow one thread.\n";

const NOT_REPORT: &[u8] =
    b"fault 7 NotReport: no access met this pause, to which `monitor ending` goes\n";

#[tactic(auto, unfolding(crate::specs::Answers::help_text))]
fn help() -> &'static [u8]
    ensures { result.now ≡ spec.help_text }
{
    HELP
}

fn write_next<O: Output>(writer: &mut O, next: Option<Entry>) -> Result<(), WriteFault>
    ensures ok { OnOk result (Appends (O.written writer.old) (O.written writer.new) (spec.next_text next)) }
    ensures failed { O.has_failed writer.new ≡ (O.has_failed writer.old || is_err result) }
{
    match next {
        Some(entry) => {
            writer.put(b", next ")?;
            write_entry(writer, entry)
        }
        None => writer.put(b", the end\n"),
    }
}

fn entry_at(entries: &[Entry], place: u32) -> Option<Entry>
    ensures { result ≡ slice_get entries.now place }
{
    entries.get(place as usize).copied()
}

/// Writes a place of a record, and the entry that is next there.
fn write_where<O: Output>(writer: &mut O, session: &Session, place: u32) -> Result<(), WriteFault>
    ensures ok { OnOk result (Appends (O.written writer.old) (O.written writer.new) (spec.where_text session.now.entries place)) }
    ensures failed { O.has_failed writer.new ≡ (O.has_failed writer.old || is_err result) }
{
    let number = Decimal::new(u64::from(place));
    let count = Decimal::new(u64::from(session.count()));
    put_pieces(
        writer,
        &[b"at ", number.as_bytes(), b" of ", count.as_bytes()],
    )?;
    write_next(writer, entry_at(session.entries(), place))
}

/// The answer that tells of a place.
fn reply_at(alloc: Global, session: &Session, place: u32) -> Result<Reply, NoRoom>
    ensures { IfOk result (λ reply. reply_text reply ≡ digits_of (spec.where_text session.now.entries place)) }
{
    let mut text = Sheet::new(alloc);
    write_where(&mut text, session, place)?;
    Reply::of_digits(alloc, text.as_bytes())
}

fn write_thread<O: Output>(writer: &mut O, hart: u8) -> Result<(), WriteFault>
    ensures ok { OnOk result (Appends (O.written writer.old) (O.written writer.new) (spec.thread_line hart)) }
    ensures failed { O.has_failed writer.new ≡ (O.has_failed writer.old || is_err result) }
{
    let thread = Decimal::new(u64::from(hart) + 1);
    put_pieces(writer, &[b"thread ", thread.as_bytes(), b"\n"])
}

/// Writes a place as above, and the thread of a hart there.
fn write_met<O: Output>(
    writer: &mut O,
    session: &Session,
    place: u32,
    hart: u8,
) -> Result<(), WriteFault>
    ensures ok { OnOk result (Appends (O.written writer.old) (O.written writer.new) (spec.where_text session.now.entries place ++ spec.thread_line hart)) }
    ensures failed { O.has_failed writer.new ≡ (O.has_failed writer.old || is_err result) }
{
    write_where(writer, session, place)?;
    write_thread(writer, hart)?;
    Ok(())
}

/// The answer that tells of an ending, and of the place after the beginning of its pause.
fn reply_at_pause(
    alloc: Global,
    session: &Session,
    n: u32,
    told: &Ending,
    place: u32,
) -> Result<Reply, NoRoom>
    ensures { IfOk result (λ reply. reply_text reply ≡ digits_of (ending_line n told.now ++ 10 ∷ [] ++ spec.where_text session.now.entries place ++ spec.thread_line told.now.hart)) }
{
    let mut text = Sheet::new(alloc);
    write_ending(&mut text, u64::from(n), told)?;
    write_met(&mut text, session, place, told.hart)?;
    Reply::of_digits(alloc, text.as_bytes())
}

/// The answer that tells of the access that met a pause.
fn reply_at_met(alloc: Global, session: &Session, met: &Met) -> Result<Reply, NoRoom>
    ensures { IfOk result (λ reply. reply_text reply ≡ digits_of (spec.where_text session.now.entries met.now.place ++ spec.thread_line met.now.hart)) }
{
    let mut text = Sheet::new(alloc);
    write_met(&mut text, session, met.place, met.hart)?;
    Reply::of_digits(alloc, text.as_bytes())
}

impl Talk {
    /// Goes to a place. Its answer was gathered before, so that nothing is changed where there is no memory for it.
    fn place_at(&mut self, place: u32, reply: Reply) -> Result<Reply, NoRoom>
        requires { place ≤ length self.old.run.entries }
        ensures after { OnOk result (self.new ≡ record self.old { run = moved self.old.run place; passed = None }) }
        ensures reply { IfOk result (λ told. told ≡ reply) }
        ensures refused { OnErr result (self.new ≡ self.old) }
    {
        match self.session.go(place) {
            Ok(()) => {
                self.passed = None;
                Ok(reply)
            }
            Err(_) => Err(NoRoom),
        }
    }

    /// `entry N`.
    fn go_to(&mut self, alloc: Global, place: u32) -> Result<Reply, NoRoom>
        ensures ok { IfOk result (λ reply. spec.going_to self.old place ≡ record { text = reply_text reply; after = self.new }) }
        ensures refused { OnErr result (self.new ≡ self.old) }
    {
        if place > self.session.count() {
            return Reply::of_digits(alloc, b"fault 1 NoPlace\n");
        }
        let reply = reply_at(alloc, &self.session, place)?;
        self.place_at(place, reply)
    }

    /// `ending N`.
    fn go_to_ending(&mut self, alloc: Global, n: u32) -> Result<Reply, NoRoom>
        ensures ok { IfOk result (λ reply. spec.going_to_ending self.old n ≡ record { text = reply_text reply; after = self.new }) }
        ensures refused { OnErr result (self.new ≡ self.old) }
    {
        let Some(told) = ending_of(&self.session, n) else {
            return Reply::of_digits(alloc, b"fault 6 NoEnding\n");
        };
        let place = told.paused_at + 1;
        let reply = reply_at_pause(alloc, &self.session, n, &told, place)?;
        self.place_at(place, reply)
    }

    /// `hit N`.
    fn go_to_hit(&mut self, alloc: Global, n: u32) -> Result<Reply, NoRoom>
        ensures ok { IfOk result (λ reply. spec.going_to_hit self.old n ≡ record { text = reply_text reply; after = self.new }) }
        ensures refused { OnErr result (self.new ≡ self.old) }
    {
        let Some(told) = ending_of(&self.session, n) else {
            return Reply::of_digits(alloc, b"fault 6 NoEnding\n");
        };
        let Some(met) = met_by(&mut self.session, &told)? else {
            return Reply::of_digits(alloc, NOT_REPORT);
        };
        let reply = reply_at_met(alloc, &self.session, &met)?;
        self.place_at(met.place, reply)
    }

    /// Does what a user asks.
    pub(crate) fn obey(&mut self, alloc: Global, order: Option<Order>) -> Result<Reply, NoRoom>
        ensures ok { IfOk result (λ reply. spec.ordered self.old order ≡ record { text = reply_text reply; after = self.new }) }
        ensures refused { OnErr result (self.new ≡ self.old) }
    {
        match order {
            Some(Order::Entry(place)) => self.go_to(alloc, place),
            Some(Order::Ending(n)) => self.go_to_ending(alloc, n),
            Some(Order::Hit(n)) => self.go_to_hit(alloc, n),
            Some(Order::Where) => reply_at(alloc, &self.session, self.session.place()),
            Some(Order::Help) => Reply::of_digits(alloc, help()),
            None => Reply::of_digits(alloc, b"fault 0 Command\n"),
        }
    }
}
