//! How two copies differ at their ends.
ghost use Rattle.std.specs.Prelude.{◌≡◌, ◌≤◌, IfOk, IfSome, IsTrue, ◌↔◌, true};
ghost use Rattle.rv_hart.specs.declared.machine.TheConstants.{MOST_HARTS};
ghost use Rattle.rv_orders.specs.Trial as spec;

use crate::end::HartEnd;
use crate::tried::Ended;
use rv_hart::machine::Machine;
use rv_memory::store::{ByteStore, NoMemory};

/// The first address of hart 0's stack; the other harts' follow it.
const STACKS: u32 = 0xc000_0000;

/// The bytes of a stack.
const STACK_LEN: u32 = 0x1_0000;

/// How two copies differ, by the first of these that holds: some hart came to another end; they printed otherwise; both are over, and
/// the byte at an address, which is in no stack, differs. None says nothing of memory.
#[derive(Clone, Copy, Debug, PartialEq, Eq)]
pub enum Difference {
    Ends,
    Prints,
    Memory(u32),
    None,
}

/// How two copies differ. Where they differ in memory the least address is told.
pub(crate) fn difference_of<S: ByteStore>(
    one: &Ended<S>,
    other: &Ended<S>,
) -> Result<Difference, NoMemory>
    ensures { IfOk result (λ it. spec.IsDifference one.now.tried other.now.tried one.now.machine.state other.now.machine.state it) }
{
    if some_ends_differ(&one.tried.ends, &other.tried.ends) {
        return Ok(Difference::Ends);
    }
    let are_over = one.tried.is_over && other.tried.is_over;
    if prints_differ(are_over, one.machine.output(), other.machine.output()) {
        return Ok(Difference::Prints);
    }
    if !are_over {
        return Ok(Difference::None);
    }
    match first_that_differs(one, other)? {
        Some(address) => Ok(Difference::Memory(address)),
        None => Ok(Difference::None),
    }
}

fn some_ends_differ(ones: &[HartEnd], others: &[HartEnd]) -> bool
    ensures { IsTrue result ↔ spec.SomeEndsDiffer ones.now others.now }
{
    for h in 0..ones.len().min(others.len()) {
        if ends_differ(ones[h], others[h]) {
            return true;
        }
    }
    false
}

fn ends_differ(one: HartEnd, other: HartEnd) -> bool
    ensures { IsTrue result ↔ spec.EndsDiffer one other }
{
    one != other && one != HartEnd::Running && other != HartEnd::Running
}

fn prints_differ(are_over: bool, ones: &[u8], others: &[u8]) -> bool
    ensures { result ≡ spec.prints_differ are_over ones.now others.now }
{
    (are_over && ones != others) || !(ones.starts_with(others) || others.starts_with(ones))
}

/// The least address, outside of the stacks, whose byte one of the copies wrote, and which differs.
fn first_that_differs<S: ByteStore>(
    one: &Ended<S>,
    other: &Ended<S>,
) -> Result<Option<u32>, NoMemory>
    ensures { IfOk result (λ address. IfSome address (λ it.
        spec.MemoryDiffers one.now.machine.state other.now.machine.state it)) }
{
    let mut words = one.written.clone()?;
    words.extend_from_slice(&other.written)?;
    words.sort_unstable();
    words.dedup();
    for word in &words {
        if let Some(address) = differs_in_word(&one.machine, &other.machine, *word) {
            return Ok(Some(address));
        }
    }
    Ok(None)
}

/// The least address of a word, outside of the stacks, whose byte differs.
fn differs_in_word<S: ByteStore>(one: &Machine<S>, other: &Machine<S>, word: u32) -> Option<u32>
    ensures { IfSome result (λ it. spec.MemoryDiffers one.now.state other.now.state it) }
{
    let first = word.saturating_mul(4);
    for k in 0..4 {
        let address = first.saturating_add(k);
        if differs_at(one, other, address) {
            return Some(address);
        }
    }
    None
}

/// Whether the byte at an address is outside of the stacks, and differs.
fn differs_at<S: ByteStore>(one: &Machine<S>, other: &Machine<S>, address: u32) -> bool
    ensures { IsTrue result ↔ spec.MemoryDiffers one.now.state other.now.state address }
{
    !in_stacks(one.harts(), address) && one.byte(address) != other.byte(address)
}

fn in_stacks(harts: u8, address: u32) -> bool
    requires { harts ≤ MOST_HARTS }
    ensures { result ≡ spec.in_stacks harts address }
{
    STACKS <= address && address - STACKS < u32::from(harts) * STACK_LEN
}
