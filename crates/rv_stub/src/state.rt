//! How a talk stands between two packets.
pub mod answer;
mod chosen;
mod going;
pub mod met;
mod monitor;
pub mod paused;

ghost use Rattle.std.specs.Prelude.{◌≡◌};
ghost use Rattle.rv_stub.specs.Standing as spec;

use crate::resume::Passed;
use rv_debug::session::Session;
use rv_gdb::chosen::Chosen;
use rv_gdb::points::Points;
use std::alloc::Global;
use std::marker::Model;

/// A run at its place, the threads that are chosen, the points that are set, and steps that were passed.
#[derive(Drop)]
pub struct Talk {
    session: Session,
    chosen: Chosen,
    points: Points,
    passed: Option<Passed>,
}

impl Model for Talk {
    ghost use Rattle.std.specs.Prelude.{IfSome};
    ghost use Rattle.rv_stub.specs.Resumed.{IsPassed};
    ghost use Rattle.rv_stub.specs.Standing.{Standing};

    ghost Value = { Standing };

    ghost view = { λ t. record { run = t.session; chosen = t.chosen; points = t.points; passed = t.passed } };

    ghost invariant = { λ t. IfSome t.passed (λ passed. IsPassed passed.way t.session passed) };
}

impl Talk {
    /// Before the first packet.
    pub fn new(alloc: Global, session: Session) -> Talk
        ensures { result ≡ spec.at_first session }
    {
        Talk {
            session,
            chosen: Chosen::new(),
            points: Points::new(alloc),
            passed: None,
        }
    }
}
