//! Which return address a block shows, as `specs/Caller.antt` has it.
ghost use Rattle.std.specs.Prelude.{◌≡◌, ◌&&◌};
ghost use Rattle.rv_explain.specs.Caller as spec;
ghost use Rattle.rv_symbols.specs.Symbols.{is_inside};

use crate::frame::{frame_at, is_jump};
use rv_debug::word::word_at;
use rv_elf::Image;
use rv_hart::machine::Machine;
use rv_memory::paged::Paged;
use rv_memory::region::Region;
use rv_prune::code::instruction_at;
use rv_symbols::symbol_table::SymbolTable;
use rv_symbols::symbols::is_inside;

/// The register that holds where a function returns to, and the stack pointer.
const RA: u8 = 1;

const SP: u8 = 2;

fn holds_code(address: u32, segment: &Region) -> bool
    ensures { result ≡ (segment.now.x && is_inside address segment.now) }
{
    segment.x && is_inside(address, segment)
}

/// Whether a segment that may be executed holds an address.
fn is_code(image: &Image, address: u32) -> bool
    ensures { result ≡ spec.is_code image.now address }
{
    image
        .segments()
        .iter()
        .any(|segment| holds_code(address, segment))
}

fn follows_call(image: &Image, address: u32) -> bool
    ensures { result ≡ spec.follows_call image.now address }
{
    match instruction_at(image, address.wrapping_sub(4)) {
        Some(found) => is_jump(found.op) && found.rd == 1,
        None => false,
    }
}

/// Whether two addresses are told by one symbol.
fn are_told_by_one(symbols: &SymbolTable, one: u32, other: u32) -> bool
    ensures { result ≡ spec.are_told_by_one symbols.now.image one other }
{
    match (symbols.symbol_of(one), symbols.symbol_of(other)) {
        (Some(symbol), Some(second)) => symbol.value == second.value,
        _ => false,
    }
}

fn is_return(image: &Image, address: u32) -> bool
    ensures { result ≡ spec.is_return image.now address }
{
    address % 4 == 0 && is_code(image, address) && follows_call(image, address)
}

/// The return address in the frame of the function at pc.
fn stored_return(symbols: &SymbolTable, machine: &Machine<Paged>, pc: u32, x2: u32) -> Option<u32>
    ensures { result ≡ spec.stored_return symbols.now.image machine.now.state.memory pc x2 }
{
    let frame = frame_at(symbols, pc)?;
    let address = word_at(machine, x2.wrapping_add(frame.slot))?;
    if is_return(symbols.image(), address) {
        Some(address)
    } else {
        None
    }
}

fn caller_by(
    symbols: &SymbolTable,
    machine: &Machine<Paged>,
    pc: u32,
    x1: u32,
    x2: u32,
) -> Option<u32>
    ensures { result ≡ spec.caller_by symbols.now.image machine.now.state.memory pc x1 x2 }
{
    if !is_code(symbols.image(), x1) {
        None
    } else if !are_told_by_one(symbols, pc, x1) {
        Some(x1)
    } else if follows_call(symbols.image(), x1) {
        stored_return(symbols, machine, pc, x2)
    } else {
        None
    }
}

/// The return address of a hart at the instruction at pc: what x1 holds, or what the function stored in its frame, since x1
/// is left from a call that has returned where it names an instruction of the function itself.
#[tactic(auto, unfolding(crate::specs::Caller::caller_in))]
pub(crate) fn caller_in(
    symbols: &SymbolTable,
    machine: &Machine<Paged>,
    hart: u8,
    pc: u32,
) -> Option<u32>
    ensures { result ≡ spec.caller_in symbols.now.image hart pc machine.now.state }
{
    if hart >= machine.harts() {
        return None;
    }
    let x1 = machine.register(hart, RA);
    let x2 = machine.register(hart, SP);
    caller_by(symbols, machine, pc, x1, x2)
}
