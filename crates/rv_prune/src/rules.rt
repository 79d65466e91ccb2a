//! The rules of the classes, each as `specs/Class.antt` has it.
ghost use Rattle.std.specs.Prelude.{◌≡◌};
ghost use Rattle.rv_prune.specs.Class as spec;

use crate::code::instruction_at;
use crate::named_bytes::NamedBytes;
use rv_collide::ending::{Ending, Verdict};
use rv_elf::Image;
use rv_isa::instr::Instr;
use rv_isa::op::Op;
use rv_isa::shape::Shape;

/// The paused access touches a listed byte.
#[tactic(auto, unfolding(crate::specs::Class::is_named))]
pub fn is_named(ranges: &NamedBytes, ending: &Ending) -> bool
    ensures { result ≡ spec.is_named ranges.now ending.now }
{
    ranges.is_touched(&ending.access)
}

fn is_plain_load(size: u8, shape: Shape) -> bool
    ensures { result ≡ spec.is_plain_load size shape }
{
    match shape {
        Shape::PlainLoad(bytes) => bytes == size,
        _ => false,
    }
}

/// The code loads the bytes into a register, and next looks at it through a mask.
fn looks_through(size: u8, load: &Instr, mask: &Instr) -> bool
    ensures { result ≡ spec.looks_through size load.now mask.now }
{
    is_plain_load(size, load.shape()) && load.rd != 0 && is_andi(mask.op) && mask.rs1 == load.rd
}

fn is_andi(op: Op) -> bool
    ensures { result ≡ spec.is_andi op }
{
    matches!(op, Op::Andi)
}

/// What a plain load's register holds where it finds these bits.
fn loaded_by(op: Op, bits: u32) -> u32
    ensures { result ≡ spec.loaded_by op bits }
{
    match op {
        Op::Lb if bits % 0x100 >= 0x80 => bits % 0x100 + 0xffff_ff00,
        Op::Lb => bits % 0x100,
        Op::Lh if bits % 0x1_0000 >= 0x8000 => bits % 0x1_0000 + 0xffff_0000,
        Op::Lh => bits % 0x1_0000,
        Op::Lbu => bits % 0x100,
        Op::Lhu => bits % 0x1_0000,
        _ => bits,
    }
}

/// The register's old and new values differ in no bit of the mask.
fn looks_same(load: &Instr, mask: &Instr, ending: &Ending) -> bool
    ensures { result ≡ spec.looks_same load.now mask.now ending.now }
{
    let changed = loaded_by(load.op, ending.old) ^ loaded_by(load.op, ending.new);
    changed & mask.imm.cast_unsigned() == 0
}

/// It read a flag, and the code does not look at the bits that changed.
#[tactic(auto, unfolding(crate::specs::Class::is_flag))]
pub fn is_flag(image: &Image, ending: &Ending) -> bool
    ensures { result ≡ spec.is_flag image.now ending.now }
{
    if !ending.access.read || ending.old == ending.new {
        return false;
    }
    let pc = ending.access.pc;
    let Some(load) = instruction_at(image, pc) else {
        return false;
    };
    let Some(mask) = instruction_at(image, pc.wrapping_add(4)) else {
        return false;
    };
    looks_through(ending.access.size, &load, &mask) && looks_same(&load, &mask, ending)
}

fn is_lw(op: Op) -> bool
    ensures { result ≡ spec.is_lw op }
{
    matches!(op, Op::Lw)
}

fn is_addi(op: Op) -> bool
    ensures { result ≡ spec.is_addi op }
{
    matches!(op, Op::Addi)
}

fn is_sw(op: Op) -> bool
    ensures { result ≡ spec.is_sw op }
{
    matches!(op, Op::Sw)
}

/// `lw r, o(b)` and `sw r, o(b)`, where r is neither b nor x0.
fn is_same_word(load: &Instr, store: &Instr) -> bool
    ensures { result ≡ spec.is_same_word load.now store.now }
{
    let same_place = store.rs1 == load.rs1 && store.imm == load.imm;
    let own_register = load.rd != load.rs1 && load.rd != 0;
    is_lw(load.op) && is_sw(store.op) && store.rs2 == load.rd && same_place && own_register
}

/// `addi r, r, n`, where n is not 0.
fn counts(r: u8, add: &Instr) -> bool
    ensures { result ≡ spec.counts r add.now }
{
    is_addi(add.op) && add.rd == r && add.rs1 == r && add.imm != 0
}

/// `lw r, o(b)`, `addi r, r, n` and `sw r, o(b)` stand at an address, one after another.
#[tactic(auto, unfolding(crate::specs::Class::counts_at))]
fn counts_at(image: &Image, address: u32) -> bool
    ensures { result ≡ spec.counts_at image.now address }
{
    let Some(load) = instruction_at(image, address) else {
        return false;
    };
    let Some(add) = instruction_at(image, address.wrapping_add(4)) else {
        return false;
    };
    let Some(store) = instruction_at(image, address.wrapping_add(8)) else {
        return false;
    };
    is_same_word(&load, &store) && counts(load.rd, &add)
}

/// The word at an address is the load or the store of such a triple.
fn is_count(image: &Image, address: u32) -> bool
    ensures { result ≡ spec.is_count image.now address }
{
    counts_at(image, address) || counts_at(image, address.wrapping_sub(8))
}

/// Both accesses are each the load or the store of a counter being counted.
#[tactic(auto, unfolding(crate::specs::Class::is_counter))]
pub fn is_counter(image: &Image, ending: &Ending) -> bool
    ensures { result ≡ spec.is_counter image.now ending.now }
{
    match ending.verdict {
        Verdict::Hit(seen) => {
            is_count(image, ending.access.pc) && is_count(image, seen.access.pc)
        }
        Verdict::Changed | Verdict::Quiet => false,
    }
}
