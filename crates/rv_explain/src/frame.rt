//! The frame that a function makes on the stack, as `specs/Frame.antt` has it.
ghost use Rattle.std.specs.Prelude.{◌≡◌, ◌≤◌};
ghost use Rattle.rv_explain.specs.Frame as spec;

use rv_elf::{Image, Symbol};
use rv_isa::instr::Instr;
use rv_isa::op::Op;
use rv_prune::code::instruction_at;
use rv_prune::fences::may_leave;
use rv_symbols::symbol_table::SymbolTable;

/// Longer functions are not read: a symbol of a file may have gigabytes.
const MOST_BYTES: u32 = 65_536;

/// A frame of so many bytes, with the return address so many above x2.
#[derive(Clone, Copy)]
pub(crate) struct Frame {
    pub size: u32,
    pub slot: u32,
}

/// What a function's instructions up to some place have done with the stack: nothing, moved x2 down by so many bytes, stored
/// x1 there too, or moved x2 up again and not yet returned. Of any other function nothing is known.
#[derive(Clone, Copy)]
pub(crate) enum Stage {
    Entered,
    Lowered(u32),
    Stored(Frame),
    Raised(Frame),
    Unknown,
}

pub(crate) fn is_jump(op: Op) -> bool
    ensures { result ≡ spec.is_jump op }
{
    matches!(op, Op::Jal | Op::Jalr)
}

/// `addi x2, x2, N`
fn moves_stack(found: &Instr) -> bool
    ensures { result ≡ spec.moves_stack found.now }
{
    matches!(found.op, Op::Addi) && found.rd == 2 && found.rs1 == 2
}

fn lowers(found: &Instr) -> bool
    ensures { result ≡ spec.lowers found.now }
{
    moves_stack(found) && found.imm.cast_unsigned() >= 0x8000_0000
}

fn raises(size: u32, found: &Instr) -> bool
    ensures { result ≡ spec.raises size found.now }
{
    moves_stack(found) && found.imm.cast_unsigned() == size
}

/// `sw x1, N(x2)` within the frame
fn stores_return(size: u32, found: &Instr) -> bool
    ensures { result ≡ spec.stores_return size found.now }
{
    matches!(found.op, Op::Sw)
        && found.rs1 == 2
        && found.rs2 == 1
        && u64::from(found.imm.cast_unsigned()) + 4 <= u64::from(size)
}

fn goes_away(found: &Instr) -> bool
    ensures { result ≡ spec.goes_away found.now }
{
    is_jump(found.op) && found.rd == 0
}

fn keeps_both(found: &Instr) -> bool
    ensures { result ≡ spec.keeps_both found.now }
{
    !(found.rd == 1 || found.rd == 2 || may_leave(found.op))
}

fn next_stage(stage: Stage, found: &Instr) -> Stage
    ensures { result ≡ spec.next_stage stage found.now }
{
    match stage {
        Stage::Entered if lowers(found) => {
            Stage::Lowered(0_u32.wrapping_sub(found.imm.cast_unsigned()))
        }
        Stage::Lowered(size) if stores_return(size, found) => Stage::Stored(Frame {
            size,
            slot: found.imm.cast_unsigned(),
        }),
        Stage::Entered | Stage::Lowered(_) if keeps_both(found) => stage,
        Stage::Stored(frame) if raises(frame.size, found) => Stage::Raised(frame),
        Stage::Stored(_) if found.rd != 2 => stage,
        Stage::Raised(frame) if goes_away(found) => Stage::Stored(frame),
        Stage::Raised(_) if found.rd != 2 && !may_leave(found.op) => stage,
        _ => Stage::Unknown,
    }
}

fn with_word(image: &Image, start: u32, stage: Stage, k: u32) -> Stage
    requires { k ≤ 16_384 }
    ensures { result ≡ spec.with_word image.now start stage k }
{
    match instruction_at(image, start.wrapping_add(4 * k)) {
        Some(found) => next_stage(stage, &found),
        None => stage,
    }
}

/// The stage behind so many words of a function.
fn stage_after(image: &Image, start: u32, words: u32) -> Stage
    requires { words ≤ 16_384 }
    ensures { result ≡ spec.stage_after image.now start words }
{
    let mut stage = Stage::Entered;
    for k in 0..words {
        stage = with_word(image, start, stage, k);
    }
    stage
}

fn is_readable(pc: u32, function: &Symbol) -> bool
    ensures { result ≡ spec.is_readable pc function.now }
{
    function.value % 4 == 0
        && function.size <= MOST_BYTES
        && function.value <= pc
        && u64::from(pc) < u64::from(function.value) + u64::from(function.size)
}

fn frame_in(image: &Image, pc: u32, function: &Symbol) -> Option<Frame>
    ensures { result ≡ spec.frame_in image.now pc function.now }
{
    if !is_readable(pc, function) {
        return None;
    }
    if let Stage::Unknown = stage_after(image, function.value, function.size / 4) {
        return None;
    }
    match stage_after(image, function.value, (pc - function.value) / 4) {
        Stage::Stored(frame) => Some(frame),
        _ => None,
    }
}

/// The frame that stands in front of the instruction at an address, where the words of the function that the address is in
/// show it for certain.
#[tactic(auto, unfolding(crate::specs::Frame::frame_at))]
pub(crate) fn frame_at(symbols: &SymbolTable, pc: u32) -> Option<Frame>
    ensures { result ≡ spec.frame_at symbols.now.image pc }
{
    let function = symbols.symbol_of(pc)?;
    frame_in(symbols.image(), pc, function)
}
