//! Which reports are ordered, and which are of an atomic, as `specs/Ordered.antt` has it.
ghost use Rattle.std.specs.Prelude.{◌≡◌};
ghost use Rattle.rv_prune.specs.Ordered as spec;

use crate::code::instruction_at;
use crate::fences::{is_acquire, is_release};
use crate::role::Role;
use crate::waits::is_wait;
use rv_collide::ending::{Ending, Verdict};
use rv_elf::Image;
use rv_isa::shape::Shape;

fn role_of(image: &Image, pc: u32, shape: Shape) -> Role
    ensures { result ≡ spec.role_of image.now pc shape }
{
    match shape {
        Shape::Lr | Shape::Sc | Shape::Amo => Role::Atomic,
        Shape::PlainStore(_) if is_release(image, pc) => Role::Release,
        Shape::PlainLoad(_) if is_acquire(image, pc) || is_wait(image, pc) => Role::Acquire,
        Shape::PlainLoad(_) => Role::Load,
        Shape::PlainStore(_) | Shape::Other => Role::Plain,
    }
}

/// What the instruction at an address is to the order of accesses; Plain where the image's file has none
/// there. A release is a store whose nearest fence in front of it orders reads and writes before writes, an
/// acquire a load whose nearest fence behind it orders reads before reads and writes, or one that a loop makes
/// again until it finds what it waits for, with such a fence, or LR or an AMO with aq, behind the loop.
#[tactic(auto, unfolding(crate::specs::Ordered::role_at))]
pub fn role_at(image: &Image, pc: u32) -> Role
    ensures { result ≡ spec.role_at image.now pc }
{
    match instruction_at(image, pc) {
        Some(found) => role_of(image, pc, found.shape()),
        None => Role::Plain,
    }
}

fn is_ordering(role: Role) -> bool
    ensures { result ≡ spec.is_ordering role }
{
    match role {
        Role::Atomic | Role::Release | Role::Acquire => true,
        Role::Load | Role::Plain => false,
    }
}

fn are_ordered(one: Role, other: Role) -> bool
    ensures { result ≡ spec.are_ordered one other }
{
    is_ordering(one) && is_ordering(other)
}

fn is_atomic_with_load(one: Role, other: Role) -> bool
    ensures { result ≡ spec.is_atomic_with_load one other }
{
    match (one, other) {
        (Role::Atomic, Role::Load) => true,
        _ => false,
    }
}

fn are_atomic(one: Role, other: Role) -> bool
    ensures { result ≡ spec.are_atomic one other }
{
    is_atomic_with_load(one, other) || is_atomic_with_load(other, one)
}

/// Whether the ending is a hit that a lock, or a release and an acquire, would give: both accesses order. No
/// class of `classify` depends on it. It takes no memory.
#[tactic(auto, unfolding(crate::specs::Ordered::is_ordered))]
pub fn is_ordered(image: &Image, ending: &Ending) -> bool
    ensures { result ≡ spec.is_ordered image.now ending.now }
{
    match ending.verdict {
        Verdict::Hit(seen) => are_ordered(
            role_at(image, ending.access.pc),
            role_at(image, seen.access.pc),
        ),
        Verdict::Changed | Verdict::Quiet => false,
    }
}

/// Whether the ending is a hit of LR, SC or an AMO and a plain load that no fence orders. No class of `classify`
/// depends on it. It takes no memory.
#[tactic(auto, unfolding(crate::specs::Ordered::is_atomic))]
pub fn is_atomic(image: &Image, ending: &Ending) -> bool
    ensures { result ≡ spec.is_atomic image.now ending.now }
{
    match ending.verdict {
        Verdict::Hit(seen) => are_atomic(
            role_at(image, ending.access.pc),
            role_at(image, seen.access.pc),
        ),
        Verdict::Changed | Verdict::Quiet => false,
    }
}
