//! Where the function of a round returns to.
ghost use Rattle.std.specs.Prelude.{◌≡◌, ◌==◌, Some, IfOk, OnOk, not, replicate};
ghost use Rattle.std.specs.List.{prefix_len};
ghost use Rattle.rv_explain.specs.Stuck as spec;
ghost use Rattle.rv_hart.specs.Run.{run};
ghost use Rattle.rv_stuck.specs.Acts as acts;

use crate::caller::caller_in;
use rv_hart::machine::{Machine, OUTPUT_LIMIT};
use rv_memory::paged::Paged;
use rv_memory::store::NoMemory;
use rv_stuck::RoundStep;
use rv_symbols::symbol_table::SymbolTable;

/// Where the function at the least address of a hart's round returns to. A copy of the hart goes on in its round to there,
/// since its registers may be another function's before.
pub(crate) fn caller_of(
    symbols: &SymbolTable,
    machine: &mut Machine<Paged>,
    hart: u8,
    steps: &[RoundStep],
) -> Result<Option<u32>, NoMemory>
    ensures same { machine.new ≡ machine.old }
    ensures caller { IfOk result (spec.IsCaller symbols.now.image machine.old.state hart steps.now) }
{
    let mut copy = copy_of(machine)?;
    go_on(&mut copy, hart, least_place(steps))?;
    Ok(caller_in(symbols, &copy, hart, least_pc(steps)))
}

/// A second machine of the same state, which may print nothing more: a step that prints is none of a round.
fn copy_of(machine: &mut Machine<Paged>) -> Result<Machine<Paged>, NoMemory>
    ensures same { machine.new ≡ machine.old }
    ensures equal { IfOk result (λ copy. copy.state ≡ machine.old.state) }
{
    let printed = machine.output().len();
    // No machine has printed more.
    if printed > OUTPUT_LIMIT as usize {
        return Err(NoMemory);
    }
    machine.share(printed as u32)
}

/// Makes steps of a hart.
fn go_on(machine: &mut Machine<Paged>, hart: u8, count: usize) -> Result<(), NoMemory>
    ensures { OnOk result (run machine.old.state (replicate count hart) ≡ Some machine.new.state) }
{
    for _made in 0..count {
        // The round's steps were made once: nothing but memory refuses one.
        let Ok(_event) = machine.step(hart) else {
            return Err(NoMemory);
        };
    }
    Ok(())
}

/// The least address of an instruction of a round.
pub(crate) fn least_pc(steps: &[RoundStep]) -> u32
    ensures { result ≡ acts.least_pc steps.now }
{
    steps
        .iter()
        .fold(u32::MAX, |least, step| least.min(step.pc))
}

/// The place of the first step that is at the least address.
pub(crate) fn least_place(steps: &[RoundStep]) -> usize
    ensures { result ≡ spec.least_place steps.now }
{
    let least = least_pc(steps);
    steps.iter().take_while(|step| step.pc != least).count()
}
