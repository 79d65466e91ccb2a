//! What a packet makes of a run: which way it goes on, and whose steps stop it, as `specs/Resumption.antt` has it.
ghost use Rattle.std.specs.Prelude.{◌≡◌, ◌<◌, if◌then◌else◌, unwrap_or};
ghost use Rattle.std.specs.List.{list_any};
ghost use Rattle.std.specs.Option.{option_map_or};
ghost use Rattle.rv_gdb.specs.Chosen.{IsAmong};
ghost use Rattle.rv_hart.specs.declared.machine.TheConstants.{MOST_HARTS};
ghost use Rattle.rv_stub.specs.Resumption as spec;

use rv_gdb::action::Action;
use rv_gdb::chosen::Chosen;
use rv_gdb::fields::Id;
use rv_gdb::packet::Move;
use rv_hart::machine::MOST_HARTS;
use rv_retrace::aims::{Aims, Harts};

/// Forwards or back over the record.
#[derive(Clone, Copy)]
pub enum Way {
    Forwards,
    Back,
}

/// How a run goes on: the way, whose steps stop it, and whether all of its stops are told.
#[derive(Clone, Copy)]
pub struct Resumption {
    pub way: Way,
    pub aims: Aims,
    pub of_all: bool,
}

const NO_HART: Harts = [false; MOST_HARTS as usize];

fn hart_alone(hart: u8) -> Harts
    requires { hart < MOST_HARTS }
    ensures { result ≡ spec.hart_alone hart }
{
    let mut harts = NO_HART;
    harts[hart as usize] = true;
    harts
}

fn way_of(step: Move) -> Way
    ensures { result ≡ spec.way_of step }
{
    match step {
        Move::Step | Move::Continue => Way::Forwards,
        Move::StepBack | Move::ContinueBack => Way::Back,
    }
}

fn does_step(step: Move) -> bool
    ensures { result ≡ spec.does_step step }
{
    matches!(step, Move::Step | Move::StepBack)
}

/// The harts that may stop the run.
fn among(chosen: &Chosen) -> Harts
    requires { IsAmong MOST_HARTS chosen.now }
    ensures { result ≡ option_map_or spec.hart_alone chosen.now.going spec.every_hart }
{
    match chosen.going {
        Some(hart) => hart_alone(hart),
        None => [true; MOST_HARTS as usize],
    }
}

fn stepping(chosen: &Chosen, step: Move) -> Harts
    requires { IsAmong MOST_HARTS chosen.now }
    ensures { result ≡ (if spec.does_step step then spec.hart_alone (unwrap_or chosen.now.going chosen.now.focus) else spec.no_hart) }
{
    if !does_step(step) {
        return NO_HART;
    }
    match chosen.going {
        Some(hart) => hart_alone(hart),
        None => hart_alone(chosen.focus),
    }
}

/// What `s`, `c`, `bs` or `bc` makes of the run.
pub fn of_move(chosen: &Chosen, step: Move) -> Resumption
    requires { IsAmong MOST_HARTS chosen.now }
    ensures { result ≡ spec.of_move chosen.now step }
{
    Resumption {
        way: way_of(step),
        aims: Aims {
            among: among(chosen),
            stepping: stepping(chosen, step),
        },
        of_all: chosen.going.is_none(),
    }
}

// ---- `vCont;..`

fn names(hart: u8, id: Id) -> bool
    ensures { result ≡ spec.names hart id }
{
    match id {
        Id::Any => true,
        Id::Thread(thread) => thread == u32::from(hart) + 1,
    }
}

fn is_any(id: Id) -> bool
    ensures { result ≡ spec.is_any id }
{
    matches!(id, Id::Any)
}

/// The action of a hart: the first that names it.
fn action_of(actions: &[Action], hart: u8) -> Option<Action>
    ensures { result ≡ spec.action_of actions.now hart }
{
    actions
        .iter()
        .copied()
        .find(|action| names(hart, action.id))
}

fn has_action(actions: &[Action], hart: u8) -> bool
    ensures { result ≡ spec.has_action actions.now hart }
{
    action_of(actions, hart).is_some()
}

fn steps_by(actions: &[Action], hart: u8) -> bool
    ensures { result ≡ spec.steps_by actions.now hart }
{
    match action_of(actions, hart) {
        Some(action) => action.steps,
        None => false,
    }
}

/// The harts that have an action.
fn acting(actions: &[Action]) -> Harts
    ensures { result ≡ spec.harts_that (spec.has_action actions.now) }
{
    let mut harts = NO_HART;
    for hart in 0..MOST_HARTS {
        harts[hart as usize] = has_action(actions, hart);
    }
    harts
}

/// The harts whose action is a step.
fn stepping_by(actions: &[Action]) -> Harts
    ensures { result ≡ spec.harts_that (spec.steps_by actions.now) }
{
    let mut harts = NO_HART;
    for hart in 0..MOST_HARTS {
        harts[hart as usize] = steps_by(actions, hart);
    }
    harts
}

/// Whether an action names any thread.
fn names_any(actions: &[Action]) -> bool
    ensures { result ≡ list_any (λ action. spec.is_any action.id) actions.now }
{
    actions.iter().any(|action| is_any(action.id))
}

/// What `vCont;..` makes of the run.
pub fn of_actions(actions: &[Action]) -> Resumption
    ensures { result ≡ spec.of_actions actions.now }
{
    Resumption {
        way: Way::Forwards,
        aims: Aims {
            among: acting(actions),
            stepping: stepping_by(actions),
        },
        of_all: names_any(actions),
    }
}
