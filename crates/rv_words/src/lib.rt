//! A list of instruction words: what its text says, and the machine that it leads to.
//!
//! To the layer above, a text of a number of harts, of the harts of steps and of words leads to the state after those
//! steps, or to its first malformed line or its first step that is refused.
#![tactic(auto)]

ghost use Rattle.std.specs.Prelude.{◌≡◌, Ok, IfOk, IfErr, IsOkAnd, length};
ghost use Rattle.rv_words.specs.WordsGuest as spec;
ghost use Rattle.rv_words.specs.WordsInput.{input_of};

pub mod fault;
mod guest;
mod input;
pub mod laws;
mod steps;

use crate::fault::WordsFault;
use crate::guest::machine_of;
use crate::input::read_input;
use crate::steps::make_steps;
use rv_hart::machine::Machine;
use rv_memory::flat::Flat;
use std::alloc::Global;

/// The machine after the steps that a text says, which may print a byte for each of them. The first malformed line is
/// told, and else the first step that is refused.
#[tactic(auto, unfolding(crate::specs::WordsGuest::state_of))]
pub fn machine_after(alloc: Global, text: &[u8]) -> Result<Machine<Flat>, WordsFault>
    ensures ok { IfOk result (λ machine. spec.state_of text.now ≡ Ok machine.state) }
    ensures limit { IfOk result (λ machine. IsOkAnd (input_of text.now) (λ input. machine.limit ≡ length input.steps)) }
    ensures err { IfErr result (spec.IsTold (spec.state_of text.now)) }
{
    let input = read_input(alloc, text)?;
    let mut machine = machine_of(alloc, &input)?;
    make_steps(&mut machine, &input.steps)?;
    Ok(machine)
}
