//! Loads that loops wait on, as `specs/Waits.antt` has them.
ghost use Rattle.std.specs.Prelude.{◌≡◌, ◌==◌};
ghost use Rattle.std.specs.List.{list_any};
ghost use Rattle.rv_prune.specs.Waits as spec;

use crate::code::instruction_at;
use crate::fences::{is_fence, is_order, may_leave, orders_a_load, words_after, words_before};
use rv_elf::Image;
use rv_isa::instr::Instr;
use rv_isa::op::Op;
use rv_isa::shape::Shape;

fn is_branch(op: Op) -> bool
    ensures { result ≡ spec.is_branch op }
{
    matches!(
        op,
        Op::Beq | Op::Bne | Op::Blt | Op::Bge | Op::Bltu | Op::Bgeu
    )
}

fn is_access(shape: Shape) -> bool
    ensures { result ≡ spec.is_access shape }
{
    !matches!(shape, Shape::Other)
}

fn computes(found: &Instr) -> bool
    ensures { result ≡ spec.computes found.now }
{
    !(is_access(found.shape()) || is_order(found) || may_leave(found.op))
}

/// The first branch among the words at these addresses, and where it is; the words before it only compute.
fn first_branch(image: &Image, addresses: &[u32]) -> Option<(u32, Instr)>
    ensures { result ≡ spec.first_branch image.now addresses.now }
{
    let [address, farther @ ..] = addresses else {
        return None;
    };
    let found = instruction_at(image, *address)?;
    if is_branch(found.op) {
        Some((*address, found))
    } else if computes(&found) {
        first_branch(image, farther)
    } else {
        None
    }
}

/// The address from which an instruction leads on by its immediate.
fn target_of(address: u32, found: &Instr) -> u32
    ensures { result ≡ spec.target_of address found.now }
{
    address.wrapping_add(found.imm.cast_unsigned())
}

fn is_among(words: &[u32], target: u32) -> bool
    ensures { result ≡ list_any (λ word. word == target) words.now }
{
    words.iter().any(|word| *word == target)
}

fn goes_back(pc: u32, address: u32, branch: &Instr) -> bool
    ensures { result ≡ spec.goes_back pc address branch.now }
{
    let target = target_of(address, branch);
    target == pc || is_among(&words_before(pc)[..4], target)
}

fn is_goto(found: &Instr) -> bool
    ensures { result ≡ spec.is_goto found.now }
{
    matches!(found.op, Op::Jal) && found.rd == 0
}

/// Where a hart goes on for certain behind an instruction.
fn next_word(address: u32, found: &Instr) -> Option<u32>
    ensures { result ≡ spec.next_word address found.now }
{
    if is_goto(found) {
        Some(target_of(address, found))
    } else if may_leave(found.op) {
        None
    } else {
        Some(address.wrapping_add(4))
    }
}

/// The first fence or access among so many words that a hart comes by, from an address on.
#[tactic(auto, using(crate::proofs::WaitLemmas::first_order_steps), unfolding(crate::specs::Waits::first_order))]
fn first_order(image: &Image, left: u32, address: u32) -> Option<Instr>
    ensures { result ≡ spec.first_order image.now left address }
{
    if left == 0 {
        return None;
    }
    let found = instruction_at(image, address)?;
    if is_access(found.shape()) || is_order(&found) {
        Some(found)
    } else {
        first_order(image, left - 1, next_word(address, &found)?)
    }
}

/// It keeps what comes behind it from coming in front of a load that is before it.
fn acquires(found: &Instr) -> bool
    ensures { result ≡ spec.acquires found.now }
{
    match found.shape() {
        Shape::Lr | Shape::Amo => found.aq,
        _ => is_fence(found.op) && orders_a_load(found),
    }
}

fn leads_to_acquire(image: &Image, address: u32) -> bool
    ensures { result ≡ spec.leads_to_acquire image.now address }
{
    match first_order(image, 16, address) {
        Some(found) => acquires(&found),
        None => false,
    }
}

/// Whether a loop makes a load at this address again until it finds what it waits for, and acquires then.
pub(crate) fn is_wait(image: &Image, pc: u32) -> bool
    ensures { result ≡ spec.is_wait image.now pc }
{
    match first_branch(image, &words_after(pc)[..4]) {
        Some((address, branch)) => {
            goes_back(pc, address, &branch) && leads_to_acquire(image, address.wrapping_add(4))
        }
        None => false,
    }
}
