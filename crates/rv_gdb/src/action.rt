//! The actions of a packet that lets the run go on, as `specs/Action.antt` has it.
ghost use Rattle.std.specs.Prelude.{◌≡◌, drop, slice_get};
ghost use Rattle.std.specs.Option.{option_copied};
ghost use Rattle.rv_gdb.specs.Action as spec;

use crate::fields::{Id, read_id};
use rv_text::numeral::read_number;
use rv_text::pieces::Pieces;
use std::marker::Model;

/// What a thread is to do: a step, or to go on.
#[derive(Clone, Copy)]
pub struct Action {
    pub steps: bool,
    pub id: Id,
}

/// The actions of a text that are still to be taken, from its front on. A piece of it that is none is passed.
#[derive(Drop)]
pub struct Actions<'a> {
    pieces: Pieces<'a>,
}

impl<'a> Model for Actions<'a> {
    ghost use Rattle.std.specs.Prelude.{List};
    ghost use Rattle.rv_gdb.specs.Action.{actions_among};
    ghost use Rattle.rv_gdb.specs.declared.action.Action.{Action};

    ghost Value = { List Action };

    ghost view = { λ a. actions_among a.pieces };
}

impl<'a> Actions<'a> {
    /// All actions of the text.
    #[tactic(auto, unfolding(crate::specs::Action::actions_in))]
    pub fn of(text: &'a [u8]) -> Actions<'a>
        ensures { result ≡ spec.actions_in text.now }
    {
        Actions {
            pieces: Pieces::of(text, b';'),
        }
    }

    /// Takes the first action. None where there is no more.
    pub fn next_action(&mut self) -> Option<Action>
        ensures first { result ≡ slice_get self.old 0 }
        ensures rest { self.new ≡ drop 1 self.old }
    {
        while let Some(piece) = self.pieces.next_piece() {
            if let Some(action) = read_action(piece) {
                return Some(action);
            }
        }
        None
    }
}

/// Whether each piece of the text is an action.
#[tactic(auto, unfolding(crate::specs::Action::are_actions))]
pub(crate) fn are_actions(text: &[u8]) -> bool
    ensures { result ≡ spec.are_actions text.now }
{
    let mut pieces = Pieces::of(text, b';');
    while let Some(piece) = pieces.next_piece() {
        if read_action(piece).is_none() {
            return false;
        }
    }
    true
}

fn read_action(text: &[u8]) -> Option<Action>
    ensures { result ≡ spec.action_in text.now }
{
    match text {
        [letter, rest @ ..] => read_action_of(*letter, rest),
        [] => None,
    }
}

/// The action of a letter: a capital one has a signal behind it.
fn read_action_of(letter: u8, text: &[u8]) -> Option<Action>
    ensures { result ≡ spec.action_at letter text.now }
{
    let id = match letter {
        b's' | b'c' => read_aim(text)?,
        b'S' | b'C' => read_aim(behind_signal(text)?)?,
        _ => return None,
    };
    let steps = letter == b's' || letter == b'S';
    Some(Action { steps, id })
}

/// Whom an action names.
fn read_aim(text: &[u8]) -> Option<Id>
    ensures { result ≡ spec.aim_in text.now }
{
    match text {
        [] => Some(Id::Any),
        [b':', id @ ..] => read_id(id),
        _ => None,
    }
}

/// What stands behind the two digits of a signal.
fn behind_signal(text: &[u8]) -> Option<&[u8]>
    ensures { option_copied result ≡ spec.behind_signal text.now }
{
    match text {
        [first, second, rest @ ..] => {
            read_number(&[*first, *second], 16, 255)?;
            Some(rest)
        }
        _ => None,
    }
}
