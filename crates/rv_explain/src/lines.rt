//! The entries that a block shows.
ghost use Rattle.std.specs.Prelude.{◌≡◌, ◌+◌, ◌-◌, ◌<◌, ◌≤◌, ◌&&◌, false, Some, IfOk, OnOk, length, slice_get, unwrap_or};
ghost use Rattle.rv_debug.specs.Placed.{moved};
ghost use Rattle.rv_explain.specs.BlockOf as spec;
ghost use Rattle.rv_explain.specs.Meeting.{is_within};
ghost use Rattle.rv_explain.specs.internal.Gathered.{IsCounted, KnowsMeetings, gathered_of};
ghost use Rattle.rv_races.specs.Races.{run_of};

use crate::meeting::is_within;
use crate::row::{Row, Shown};
use crate::told::row_here;
use crate::walk::go_to;
use rv_collide::ending::Ending;
use rv_debug::session::Session;
use rv_hart::access::Access;
use rv_memory::store::NoMemory;
use rv_races::stretches::is_shown;
use std::alloc::Global;

/// What lines are told of: a report, the places that it is about, how many entries are shown around each, and which
/// entries within its pause meet the bytes.
#[derive(Drop)]
pub(crate) struct About {
    pub told: Ending,
    pub places: Vec<u32>,
    pub around: u32,
    pub meets: Vec<bool>,
}

/// The lines so far, how many entries were left out since the last of them, and how many of those meet the bytes.
#[derive(Drop)]
struct Gathered {
    lines: Vec<Shown>,
    hidden: u32,
    meeting: u32,
}

/// Whether an access within the pause meets the bytes.
fn meets(about: &About, at: u32) -> bool
    ensures { result ≡ (is_within about.now.told at && unwrap_or (slice_get about.now.meets.items (at - about.now.told.paused_at - 1)) false) }
{
    if !is_within(&about.told, at) {
        return false;
    }
    let place = at - about.told.paused_at - 1;
    about.meets.get(place as usize).copied().unwrap_or(false)
}

/// The row of an entry, where the session goes.
fn row_at(session: &mut Session, paused: &Access, at: u32) -> Result<Row, NoMemory>
    requires { at < length session.old.entries }
    ensures row { IfOk result (λ row. spec.row_at (run_of session.old) paused.now at ≡ Some row) }
    ensures same { session.new ≡ moved session.old session.new.place }
{
    go_to(session, at)?;
    let entry = session.entries()[at as usize];
    row_here(session, entry, paused)
}

/// The same of a session's run, which is what the flags were found in.
fn meets_at(_session: &Session, about: &About, at: u32) -> bool
    requires { KnowsMeetings (run_of _session.now) about.now }
    ensures { result ≡ spec.meets_at (run_of _session.now) about.now.told at }
{
    meets(about, at)
}

impl Gathered {
    /// Counts what is left out in front of the next line.
    fn close_gap(&mut self) -> Result<(), NoMemory>
        ensures { OnOk result (gathered_of self.new ≡ record {
          lines = spec.with_gap (gathered_of self.old);
          hidden = 0;
          meeting = 0;
        }) }
    {
        if self.hidden > 0 {
            self.lines.push(Shown::Gap {
                entries: self.hidden,
                meeting: self.meeting,
            })?;
        }
        self.hidden = 0;
        self.meeting = 0;
        Ok(())
    }

    /// One entry more is left out.
    fn hide(&mut self, meets: bool)
        requires few { self.old.hidden < 4_294_967_295 }
        requires fewer { self.old.meeting ≤ self.old.hidden }
        ensures value { gathered_of self.new ≡ spec.with_hidden (gathered_of self.old) meets }
    {
        self.hidden += 1;
        if meets {
            self.meeting += 1;
        }
    }

    /// An entry is shown.
    fn show(&mut self, session: &mut Session, about: &About, at: u32) -> Result<(), NoMemory>
        requires { at < length session.old.entries }
        ensures row { OnOk result (gathered_of self.new
            ≡ spec.with_row (gathered_of self.old) (spec.row_at (run_of session.old) about.now.told.access at)) }
        ensures same { session.new ≡ moved session.old session.new.place }
    {
        self.close_gap()?;
        let row = row_at(session, &about.told.access, at)?;
        self.lines.push(Shown::Row(row))?;
        Ok(())
    }

    /// One place more is passed.
    fn pass(&mut self, session: &mut Session, about: &About, at: u32) -> Result<(), NoMemory>
        requires within { at < length session.old.entries }
        requires last { at < 4_294_967_295 }
        requires knows { KnowsMeetings (run_of session.old) about.now }
        requires counted { IsCounted self.old at }
        ensures passed { OnOk result (gathered_of self.new
            ≡ spec.with_place (run_of session.old) about.now.around about.now.told about.now.places.items (gathered_of self.old) at) }
        ensures counted { OnOk result (IsCounted self.new (at + 1)) }
        ensures same { session.new ≡ moved session.old session.new.place }
    {
        if is_shown(about.around, &about.places, at) {
            self.show(session, about, at)
        } else {
            self.hide(meets_at(session, about, at));
            Ok(())
        }
    }
}

/// The place after the last that may be shown.
fn end_shown(session: &Session, about: &About) -> u32
    ensures value { result ≡ spec.end_shown (run_of session.now) about.now.around about.now.told }
    ensures within { result ≤ length session.now.entries }
{
    let end = u64::from(about.told.resumed_at) + u64::from(about.around) + 1;
    let count = session.count();
    if end < u64::from(count) {
        end as u32
    } else {
        count
    }
}

/// The lines of a block. The session goes to the entries that are shown, and to no others.
pub(crate) fn lines(
    alloc: Global,
    session: &mut Session,
    about: &About,
) -> Result<Vec<Shown>, NoMemory>
    requires knows { KnowsMeetings (run_of session.old) about.now }
    requires starts { about.now.told.paused_at < about.now.told.resumed_at }
    requires inside { about.now.told.resumed_at < length session.old.entries }
    ensures lines { IfOk result (λ lines. lines.items
        ≡ spec.lines (run_of session.old) about.now.around about.now.told about.now.places.items) }
    ensures same { session.new ≡ moved session.old session.new.place }
{
    let mut gathered = Gathered {
        lines: Vec::new(alloc),
        hidden: 0,
        meeting: 0,
    };
    let from = about.told.paused_at.saturating_sub(about.around);
    for at in from..end_shown(session, about) {
        gathered.pass(session, about, at)?;
    }
    Ok(gathered.lines)
}
