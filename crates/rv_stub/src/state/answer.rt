//! The answer to a packet, as `specs/Answers.antt` has it.
ghost use Rattle.std.specs.Prelude.{◌≡◌, IfOk, OnErr, Some, false};
ghost use Rattle.rv_stub.specs.Answers as spec;
ghost use Rattle.rv_stub.specs.Reply.{reply_text};

use crate::no_room::NoRoom;
use crate::reply::Reply;
use crate::state::Talk;
use crate::state::chosen::are_there;
use rv_gdb::chosen::chooses;
use rv_gdb::packet::Request;
use rv_gdb::replies::{Refusal, known_reply, write_state_reply};
use rv_gdb::sheet::Sheet;
use std::alloc::Global;

/// `fault 5 NoMemory` and an LF, in hexadecimal digits.
const TOLD: &[u8] = b"6661756c742035204e6f4d656d6f72790a";

fn is_order(request: &Request<'_>) -> bool
    ensures { result ≡ spec.is_order request.now }
{
    matches!(request, Request::Monitor(_))
}

/// The answer where no memory is found.
#[tactic(auto, unfolding(rv_text::specs::Hexadecimal::byte_digits))]
fn no_memory(is_order: bool) -> Reply
    ensures { reply_text result ≡ spec.no_memory is_order }
{
    if is_order {
        Reply::Constant(TOLD)
    } else {
        Reply::refused(Refusal::NoMemory)
    }
}

impl Talk {
    /// Shows what the state is.
    fn show(&self, alloc: Global, request: &Request<'_>) -> Result<Reply, NoRoom>
        ensures { IfOk result (λ reply. spec.by_state self.now (spec.showing self.now request.now) ≡ spec.says self.now (reply_text reply)) }
    {
        let machine = self.session.machine();
        if !are_there(machine.harts(), &self.chosen) {
            return Ok(Reply::refused(Refusal::NoSuch));
        }
        let mut text = Sheet::new(alloc);
        if write_state_reply(alloc, &mut text, machine, &self.chosen, request)? {
            Ok(Reply::Gathered(text))
        } else {
            Ok(Reply::Constant(b""))
        }
    }

    /// Shows all threads, and forgets what was passed.
    fn show_threads(&mut self, alloc: Global) -> Result<Reply, NoRoom>
        ensures ok { IfOk result (λ reply. spec.asked self.old Request.FirstThreads ≡ record { text = reply_text reply; after = self.new }) }
        ensures refused { OnErr result (self.new ≡ self.old) }
    {
        let reply = self.show(alloc, &Request::FirstThreads)?;
        self.passed = None;
        Ok(reply)
    }

    /// Does what is asked.
    fn obtain(&mut self, alloc: Global, request: Request<'_>) -> Result<Reply, NoRoom>
        ensures ok { IfOk result (λ reply. spec.asked self.old request.entry ≡ record { text = reply_text reply; after = self.new }) }
        ensures refused { OnErr result (self.new ≡ self.old) }
        ensures plain { OnErr result (spec.is_plain request.entry ≡ false) }
    {
        match request {
            Request::Why => Ok(self.stand_still()),
            Request::ExtraInfo(id) => self.tell(alloc, id),
            Request::SetPoint(point) => self.set_point(point),
            Request::ClearPoint(point) => Ok(self.clear_point(point)),
            Request::Act(actions) => self.act(alloc, actions),
            Request::Go(step) => self.go(step),
            Request::Monitor(order) => self.obey(alloc, order),
            Request::FirstThreads => self.show_threads(alloc),
            other => self.show(alloc, &other),
        }
    }

    /// Answers what a packet asks.
    fn answer_request(&mut self, alloc: Global, request: Request<'_>) -> Reply
        ensures { spec.IsAnswer self.old (Some request.entry) (record { text = reply_text result; after = self.new }) }
    {
        if let Some(text) = known_reply(&request) {
            return Reply::Constant(text);
        }
        if chooses(&request) {
            return self.choose(&request);
        }
        let is_order = is_order(&request);
        match self.obtain(alloc, request) {
            Ok(reply) => reply,
            Err(NoRoom) => no_memory(is_order),
        }
    }

    /// Answers a packet. None is malformed. Where no memory is found that is the answer, and nothing is changed.
    pub fn answer(&mut self, alloc: Global, request: Option<Request<'_>>) -> Reply
        ensures { spec.IsAnswer self.old request.entry (record { text = reply_text result; after = self.new }) }
    {
        match request {
            Some(request) => self.answer_request(alloc, request),
            None => Reply::refused(Refusal::Malformed),
        }
    }
}
