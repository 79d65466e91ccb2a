//! The machine that the words of an input are loaded into.
ghost use Rattle.std.specs.Prelude.{◌≡◌, ◌≤◌, ◌<◌, ◌+◌, ◌*◌, Some, None, IfOk, IfErr, OnOk, length};
ghost use Rattle.std.specs.Int.{to_le_bytes, w32};
ghost use Rattle.std.specs.List.{flat_map};
ghost use Rattle.rv_hart.specs.Step.{step_of};
ghost use Rattle.rv_words.specs.WordsGuest as spec;
ghost use Rattle.rv_words.specs.WordsInput.{IsInLimits};
ghost use Rattle.rv_words.specs.declared.input.TheConstants.{MOST_WORDS};

use crate::input::Input;
use rv_hart::access::Event;
use rv_hart::laws::what_no_step_does;
use rv_hart::machine::{Machine, StepFault};
use rv_memory::flat::Flat;
use rv_memory::region::Region;
use rv_memory::store::{MemFault, NoMemory};
use std::alloc::Global;

/// The address of the first word, which is the entry.
pub const TEXT_START: u32 = 0x1_0000;

/// The first address of the data.
pub const DATA_START: u32 = 0x2_0000;

/// The bytes of the data.
pub const DATA_LENGTH: u32 = 4096;

/// The bytes of the words, the least significant of each first.
fn bytes_of(alloc: Global, words: &[u32]) -> Result<Vec<u8>, NoMemory>
    ensures { IfOk result (λ bytes. bytes.items ≡ flat_map (to_le_bytes w32) words.now) }
{
    let mut bytes = Vec::new(alloc);
    for word in words {
        bytes.extend_from_slice(&word.to_le_bytes())?;
    }
    Ok(bytes)
}

fn data_region(alloc: Global) -> Region
    ensures { result ≡ spec.data_region }
{
    Region {
        start: DATA_START,
        bytes: Vec::new(alloc),
        len: DATA_LENGTH,
        r: true,
        w: true,
        x: false,
    }
}

fn text_region(alloc: Global, words: &[u32]) -> Result<Region, NoMemory>
    requires { length words.now ≤ MOST_WORDS }
    ensures { IfOk result (λ region. region ≡ spec.text_region words.now) }
{
    Ok(Region {
        start: TEXT_START,
        bytes: bytes_of(alloc, words)?,
        len: 4 * words.len() as u32,
        r: true,
        w: false,
        x: true,
    })
}

/// The regions of the words and of the data.
fn regions_of(alloc: Global, words: &[u32]) -> Result<Vec<Region>, NoMemory>
    requires { length words.now ≤ MOST_WORDS }
    ensures { IfOk result (λ regions. regions.items ≡ spec.regions words.now) }
{
    let mut regions = Vec::new(alloc);
    if !words.is_empty() {
        regions.push(text_region(alloc, words)?)?;
    }
    regions.push(data_region(alloc))?;
    Ok(regions)
}

/// The machine that an input begins in. It may print a byte at each step.
#[tactic(auto, using(crate::proofs::Fits::input_fits))]
pub fn machine_of(alloc: Global, input: &Input) -> Result<Machine<Flat>, NoMemory>
    requires { IsInLimits input.now }
    ensures { IfOk result (λ machine. machine ≡ record { state = spec.start_of input.now; limit = length input.now.steps }) }
{
    let regions = regions_of(alloc, &input.words)?;
    match Machine::new(
        alloc,
        &regions,
        TEXT_START,
        input.harts,
        input.steps.len() as u32,
    ) {
        Ok(machine) => Ok(machine),
        Err(MemFault::NoMemory) => Err(NoMemory),
        Err(MemFault::Overlap | MemFault::TooLarge | MemFault::PastEnd) => unreachable!(),
    }
}

/// One step of a guest that has room to print a byte: it is refused only where no hart of the number runs.
pub fn step(machine: &mut Machine<Flat>, h: u8) -> Result<Event, StepFault>
    requires room { length machine.old.state.output < machine.old.limit }
    ensures step { IfOk result (λ event. step_of machine.old.state h ≡ Some (event, machine.new.state)) }
    ensures printed { OnOk result (length machine.new.state.output ≤ length machine.old.state.output + 1) }
    ensures refused { IfErr result (λ fault. (step_of machine.old.state h ≡ None)
        × (fault ≡ spec.refusal machine.old.state h)) }
    ensures limit { machine.new.limit ≡ machine.old.limit }
{
    what_no_step_does();
    machine.step(h)
}
