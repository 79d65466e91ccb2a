//! The fences of releases and acquires, as `specs/Fences.antt` has them.
ghost use Rattle.std.specs.Prelude.{◌≡◌, false};
ghost use Rattle.std.specs.Option.{option_map_or};
ghost use Rattle.rv_prune.specs.Fences as spec;

use crate::code::instruction_at;
use rv_elf::Image;
use rv_isa::instr::Instr;
use rv_isa::op::Op;
use rv_isa::shape::Shape;

/// What may stand between an access and its fence, besides words that access nothing.
#[derive(Clone, Copy)]
pub(crate) enum Between {
    Anything,
    NoWrite,
    NoRead,
}

pub(crate) fn is_fence(op: Op) -> bool
    ensures { result ≡ spec.is_fence op }
{
    matches!(op, Op::Fence)
}

/// After it another word than the next may come.
pub fn may_leave(op: Op) -> bool
    ensures { result ≡ spec.may_leave op }
{
    match op {
        Op::Jal | Op::Jalr | Op::Ecall | Op::Ebreak => true,
        Op::Beq | Op::Bne | Op::Blt | Op::Bge | Op::Bltu | Op::Bgeu => true,
        _ => false,
    }
}

/// The fence is a normal one or FENCE.TSO.
fn is_normal(fence: &Instr) -> bool
    ensures { result ≡ spec.is_normal fence.now }
{
    let mode = fence.imm.cast_unsigned() / 256;
    mode == 0 || mode == 8
}

fn has_order(bits: u32, fence: &Instr) -> bool
    ensures { result ≡ spec.has_order bits fence.now }
{
    fence.imm.cast_unsigned() & bits == bits && is_normal(fence)
}

fn orders_a_store(fence: &Instr) -> bool
    ensures { result ≡ spec.orders_a_store fence.now }
{
    has_order(0x031, fence)
}

pub(crate) fn orders_a_load(fence: &Instr) -> bool
    ensures { result ≡ spec.orders_a_load fence.now }
{
    has_order(0x023, fence)
}

fn is_pause(found: &Instr) -> bool
    ensures { result ≡ spec.is_pause found.now }
{
    is_fence(found.op) && is_normal(found) && found.imm.cast_unsigned() % 256 == 0x010
}

/// A fence that orders: not PAUSE, the hint.
pub(crate) fn is_order(found: &Instr) -> bool
    ensures { result ≡ spec.is_order found.now }
{
    is_fence(found.op) && !is_pause(found)
}

fn writes(shape: Shape) -> bool
    ensures { result ≡ spec.writes shape }
{
    matches!(shape, Shape::PlainStore(_) | Shape::Sc | Shape::Amo)
}

fn reads(shape: Shape) -> bool
    ensures { result ≡ spec.reads shape }
{
    matches!(shape, Shape::PlainLoad(_) | Shape::Lr | Shape::Amo)
}

fn is_passed(between: Between, shape: Shape) -> bool
    ensures { result ≡ spec.is_passed between shape }
{
    match between {
        Between::Anything => true,
        Between::NoWrite => !writes(shape),
        Between::NoRead => !reads(shape),
    }
}

/// The nearest fence among the words at these addresses, the nearest first.
fn nearest_fence(between: Between, image: &Image, addresses: &[u32]) -> Option<Instr>
    ensures { result ≡ spec.nearest_fence between image.now addresses.now }
{
    let [address, farther @ ..] = addresses else {
        return None;
    };
    let found = instruction_at(image, *address)?;
    if is_order(&found) {
        Some(found)
    } else if !may_leave(found.op) && is_passed(between, found.shape()) {
        nearest_fence(between, image, farther)
    } else {
        None
    }
}

/// The sixteen words in front of an address, the nearest first.
#[tactic(auto, unfolding(crate::specs::Fences::words_before))]
pub(crate) fn words_before(pc: u32) -> [u32; 16]
    ensures { result ≡ spec.words_before pc }
{
    [
        pc.wrapping_sub(4),
        pc.wrapping_sub(8),
        pc.wrapping_sub(12),
        pc.wrapping_sub(16),
        pc.wrapping_sub(20),
        pc.wrapping_sub(24),
        pc.wrapping_sub(28),
        pc.wrapping_sub(32),
        pc.wrapping_sub(36),
        pc.wrapping_sub(40),
        pc.wrapping_sub(44),
        pc.wrapping_sub(48),
        pc.wrapping_sub(52),
        pc.wrapping_sub(56),
        pc.wrapping_sub(60),
        pc.wrapping_sub(64),
    ]
}

/// The sixteen words behind an address, the nearest first.
#[tactic(auto, unfolding(crate::specs::Fences::words_after))]
pub(crate) fn words_after(pc: u32) -> [u32; 16]
    ensures { result ≡ spec.words_after pc }
{
    [
        pc.wrapping_add(4),
        pc.wrapping_add(8),
        pc.wrapping_add(12),
        pc.wrapping_add(16),
        pc.wrapping_add(20),
        pc.wrapping_add(24),
        pc.wrapping_add(28),
        pc.wrapping_add(32),
        pc.wrapping_add(36),
        pc.wrapping_add(40),
        pc.wrapping_add(44),
        pc.wrapping_add(48),
        pc.wrapping_add(52),
        pc.wrapping_add(56),
        pc.wrapping_add(60),
        pc.wrapping_add(64),
    ]
}

fn finds_release(between: Between, image: &Image, addresses: &[u32]) -> bool
    ensures { result ≡ option_map_or spec.orders_a_store (spec.nearest_fence between image.now addresses.now) false }
{
    match nearest_fence(between, image, addresses) {
        Some(fence) => orders_a_store(&fence),
        None => false,
    }
}

fn finds_acquire(between: Between, image: &Image, addresses: &[u32]) -> bool
    ensures { result ≡ option_map_or spec.orders_a_load (spec.nearest_fence between image.now addresses.now) false }
{
    match nearest_fence(between, image, addresses) {
        Some(fence) => orders_a_load(&fence),
        None => false,
    }
}

/// Whether a store at this address would have a release's fence in front of it.
pub(crate) fn is_release(image: &Image, pc: u32) -> bool
    ensures { result ≡ spec.is_release image.now pc }
{
    let words = words_before(pc);
    finds_release(Between::Anything, image, &words[..4])
        || finds_release(Between::NoWrite, image, &words)
}

/// Whether a load at this address would have an acquire's fence behind it.
pub(crate) fn is_acquire(image: &Image, pc: u32) -> bool
    ensures { result ≡ spec.is_acquire image.now pc }
{
    let words = words_after(pc);
    finds_acquire(Between::Anything, image, &words[..4])
        || finds_acquire(Between::NoRead, image, &words)
}
