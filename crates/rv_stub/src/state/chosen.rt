//! The threads that are chosen.
ghost use Rattle.std.specs.Prelude.{◌≡◌, ◌≤◌, ℕ, IsTrue, length, true};
ghost use Rattle.rv_gdb.specs.Chosen.{IsAmong};
ghost use Rattle.rv_stub.specs.Answers as answer;
ghost use Rattle.rv_stub.specs.Reply.{reply_text};
ghost use Rattle.rv_stub.specs.Standing as spec;

use crate::reply::Reply;
use crate::state::Talk;
use rv_gdb::chosen::{Chosen, choose};
use rv_gdb::packet::Request;
use rv_gdb::replies::Refusal;

fn is_there(harts: u8, hart: Option<u8>) -> bool
    ensures { result ≡ spec.is_there harts hart }
{
    match hart {
        Some(hart) => hart < harts,
        None => true,
    }
}

/// Whether each hart that is chosen is one of so many.
pub fn are_there(harts: u8, chosen: &Chosen) -> bool
    ensures value { result ≡ spec.are_there harts chosen.now }
    ensures among { result ≡ true → IsAmong harts chosen.now }
{
    chosen.focus < harts && is_there(harts, chosen.shown) && is_there(harts, chosen.going)
}

impl Talk {
    /// Chooses a thread.
    pub(crate) fn choose(&mut self, request: &Request<'_>) -> Reply
        ensures { answer.choosing self.old request.now ≡ record { text = reply_text result; after = self.new } }
    {
        let harts = self.session.machine().harts();
        match choose(harts, &self.chosen, request) {
            Some(chosen) => {
                self.chosen = chosen;
                Reply::Constant(b"OK")
            }
            None => Reply::refused(Refusal::NoSuch),
        }
    }
}
