//! Whether a hart waits, by steps of a copy: the plain way.
ghost use Rattle.std.specs.Prelude.{◌≡◌, ◌<◌, ◌↔◌, ◌||◌, ◌+◌, ℕ, true, Some, IfSome, IsTrue, length};
ghost use Rattle.rv_hart.specs.State.{State};
ghost use Rattle.rv_waits.specs.Round.{IsRound};
ghost use Rattle.rv_waits.specs.Touched.{covers};
ghost use Rattle.rv_waits.specs.Touches.{Loads, Touches, is_read};
ghost use Rattle.rv_waits.specs.Tried.{IsTried};
ghost use Rattle.rv_waits.specs.internal.Added.{IsAdded};

use crate::quiet::{Told, told_step};
use crate::touched::{Touched, touch, touched_at};
use rv_hart::access::Access;
use rv_hart::machine::Machine;
use rv_memory::store::ByteStore;

/// A hart's round: how many steps it has, whether one of them loads data, as LR and an AMO do too, and what they touch. A hart
/// whose round loads data polls; one whose round reads nothing but its own instructions is parked.
#[derive(Clone, Copy)]
pub struct Round {
    pub steps: u32,
    pub polls: bool,
    pub touched: Touched,
}

/// The round of a hart, where at most so many steps of it show one. The machine is one to be used up: it is stepped, and
/// left where that ends. None says that no round was seen.
pub fn round_of<S: ByteStore>(copy: &mut Machine<S>, h: u8, most: u32) -> Option<Round>
    requires { h < length copy.old.state.harts }
    ensures round { IfSome result (λ round. IsRound copy.old.state h round.steps) }
    ensures polls { IfSome result (λ round. IsTrue round.polls ↔ Loads h round.steps copy.old.state) }
    ensures touched { IfSome result (λ round.
        (address : ℕ) → Touches h round.steps copy.old.state address → covers round.touched address ≡ true) }
{
    let anchor = *copy.hart(h);
    let mut seen = Seen {
        polls: false,
        touched: touched_at(anchor.pc),
    };
    for steps in 0..most {
        if !one_more(copy, h, &mut seen) {
            return None;
        }
        if anchor.is_same_but_reservation(copy.hart(h)) {
            return Some(Round {
                steps: steps + 1,
                polls: seen.polls,
                touched: seen.touched,
            });
        }
    }
    None
}

/// Whether some steps of a hart loaded data, and what they touched.
#[derive(Clone, Copy)]
pub struct Seen {
    pub polls: bool,
    pub touched: Touched,
}

/// One more step of a hart, if it is a quiet one: what it loads and touches is added.
fn one_more<S: ByteStore>(copy: &mut Machine<S>, h: u8, seen: &mut Seen) -> bool
    requires { h < length copy.old.state.harts }
    ensures tried { result ≡ true → (n : ℕ) → (from : State) → IsTried h n from copy.old.state seen.old
        → IsTried h (n + 1) from copy.new.state seen.new }
    ensures harts { length copy.new.state.harts ≡ length copy.old.state.harts }
{
    let pc = copy.hart(h).pc;
    match told_step(copy, h) {
        Told::Quiet(access) => {
            see(seen, pc, access);
            true
        }
        Told::Loud(_) | Told::Refused(_) => false,
    }
}

/// What a step loaded and touched is added.
#[inline(always)]
pub(crate) fn see(seen: &mut Seen, pc: u32, access: Option<Access>)
    ensures polls { seen.new.polls ≡ (seen.old.polls || is_read access) }
    ensures touched { IsAdded seen.old.touched seen.new.touched pc access }
{
    seen.polls = either(seen.polls, is_read(access));
    touch(&mut seen.touched, pc, access);
}

#[inline(always)]
fn is_read(access: Option<Access>) -> bool
    ensures { result ≡ is_read access }
{
    match access {
        Some(it) => it.read,
        None => false,
    }
}

#[inline(always)]
fn either(one: bool, other: bool) -> bool
    ensures { result ≡ (one || other) }
{
    one || other
}
