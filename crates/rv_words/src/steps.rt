//! The steps that an input says.
ghost use Rattle.std.specs.Prelude.{◌≡◌, ◌≤◌, ◌+◌, IfErr, OnOk, Ok, length};
ghost use Rattle.rv_words.specs.WordsGuest as spec;
ghost use Rattle.rv_words.specs.declared.input.TheConstants.{MOST_STEPS};

use crate::fault::WordsFault;
use crate::guest::step;
use rv_hart::machine::Machine;
use rv_memory::flat::Flat;

/// Makes the steps, up to the first that is refused.
pub fn make_steps(machine: &mut Machine<Flat>, steps: &[u8]) -> Result<(), WordsFault>
    requires few { length steps.now ≤ MOST_STEPS }
    requires room { length machine.old.state.output + length steps.now ≤ machine.old.limit }
    ensures ok { OnOk result (spec.stepped 0 machine.old.state steps.now ≡ Ok machine.new.state) }
    ensures err { IfErr result (spec.IsTold (spec.stepped 0 machine.old.state steps.now)) }
    ensures limit { machine.new.limit ≡ machine.old.limit }
{
    for (number, h) in steps.iter().enumerate() {
        if let Err(fault) = step(machine, *h) {
            return Err(WordsFault::Step {
                number: number as u32,
                fault,
            });
        }
    }
    Ok(())
}
