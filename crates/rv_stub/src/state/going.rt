//! A run that goes on, and the points at which it stops.
ghost use Rattle.std.specs.Prelude.{◌≡◌, ◌++◌, IfOk, OnErr, is_some, slice_get, drop};
ghost use Rattle.std.specs.List.{list_all};
ghost use Rattle.rv_gdb.specs.Chosen.{aim_of};
ghost use Rattle.rv_stub.specs.Answers as spec;
ghost use Rattle.rv_stub.specs.Reply.{reply_text};

use crate::no_room::NoRoom;
use crate::reply::Reply;
use crate::resume::resume;
use crate::resumption::{Resumption, of_actions, of_move};
use crate::state::Talk;
use crate::state::chosen::are_there;
use rv_gdb::action::{Action, Actions};
use rv_gdb::chosen::aim_of;
use rv_gdb::packet::Move;
use rv_gdb::point::Point;
use rv_gdb::replies::Refusal;
use rv_gdb::stop::{Stop, TRAP, Why};
use rv_hart::machine::MOST_HARTS;
use std::alloc::Global;

/// All actions of a packet, in their order.
fn all_of(alloc: Global, actions: Actions<'_>) -> Result<Vec<Action>, NoRoom>
    ensures { IfOk result (λ all. all.items ≡ actions.entry) }
{
    let mut left = actions;
    let mut all = Vec::new(alloc);
    while let Some(action) = left.next_action() {
        if all.push(action).is_err() {
            return Err(NoRoom);
        }
    }
    Ok(all)
}

/// Whether the threads of all actions are among so many harts.
fn name_harts(harts: u8, actions: &[Action]) -> bool
    ensures { result ≡ spec.name_harts harts actions.now }
{
    actions
        .iter()
        .all(|action| aim_of(harts, action.id).is_some())
}

impl Talk {
    /// A stop at the place, of the focus.
    pub(crate) fn stand_still(&mut self) -> Reply
        ensures { spec.standing_still self.old ≡ record { text = reply_text result; after = self.new } }
    {
        let stop = Stop {
            place: self.session.place(),
            hart: self.chosen.focus,
            why: Why::Stands,
            signal: TRAP,
        };
        self.chosen = self.chosen.stopped(stop.hart);
        Reply::Stopped(stop)
    }

    /// Goes on to where the run stops.
    fn resume(&mut self, resumption: &Resumption) -> Result<Reply, NoRoom>
        ensures ok { IfOk result (λ reply. spec.resuming self.old resumption.now ≡ record { text = reply_text reply; after = self.new }) }
        ensures refused { OnErr result (self.new ≡ self.old) }
    {
        let (stop, passed) = resume(
            &mut self.session,
            &self.points,
            resumption,
            self.chosen.focus,
            self.passed,
        )?;
        self.passed = passed;
        self.chosen = self.chosen.stopped(stop.hart);
        Ok(Reply::Stopped(stop))
    }

    /// Goes on as actions say.
    fn act_all(&mut self, actions: &[Action]) -> Result<Reply, NoRoom>
        ensures ok { IfOk result (λ reply. spec.acting self.old actions.now ≡ record { text = reply_text reply; after = self.new }) }
        ensures refused { OnErr result (self.new ≡ self.old) }
    {
        let harts = self.session.machine().harts();
        if !name_harts(harts, actions) {
            return Ok(Reply::refused(Refusal::NoSuch));
        }
        self.resume(&of_actions(actions))
    }

    /// `vCont;..`.
    pub(crate) fn act(&mut self, alloc: Global, actions: Actions<'_>) -> Result<Reply, NoRoom>
        ensures ok { IfOk result (λ reply. spec.acting self.old actions.entry ≡ record { text = reply_text reply; after = self.new }) }
        ensures refused { OnErr result (self.new ≡ self.old) }
    {
        let all = all_of(alloc, actions)?;
        self.act_all(&all)
    }

    /// `s`, `c`, `bs` or `bc`.
    pub(crate) fn go(&mut self, step: Move) -> Result<Reply, NoRoom>
        ensures ok { IfOk result (λ reply. spec.going self.old step ≡ record { text = reply_text reply; after = self.new }) }
        ensures refused { OnErr result (self.new ≡ self.old) }
    {
        if !are_there(MOST_HARTS, &self.chosen) {
            return Ok(Reply::refused(Refusal::NoSuch));
        }
        let resumption = of_move(&self.chosen, step);
        self.resume(&resumption)
    }

    /// Sets a point.
    pub(crate) fn set_point(&mut self, point: Point) -> Result<Reply, NoRoom>
        ensures ok { IfOk result (λ reply. spec.setting self.old point ≡ record { text = reply_text reply; after = self.new }) }
        ensures refused { OnErr result (self.new ≡ self.old) }
    {
        self.points.set(point)?;
        Ok(Reply::Constant(b"OK"))
    }

    /// Takes a point away.
    pub(crate) fn clear_point(&mut self, point: Point) -> Reply
        ensures { spec.clearing self.old point ≡ record { text = reply_text result; after = self.new } }
    {
        self.points.clear(point);
        Reply::Constant(b"OK")
    }
}
