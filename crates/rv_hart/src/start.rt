//! The state that a machine begins in.
ghost use Rattle.std.specs.Prelude.{◌≡◌, ◌≤◌, ◌<◌, None, All, IfOk, IfErr, OnOk, map, unwrap_or, vec_len};
ghost use Rattle.std.specs.List.{range_with_len};
ghost use Rattle.rv_hart.specs.State as state;
ghost use Rattle.rv_memory.specs.Extent.{IsExtent};
ghost use Rattle.rv_memory.specs.Memory.{fault_of, memory_of};

use crate::hart::{Hart, Status};
use crate::machine::MOST_HARTS;
use crate::registers::Registers;
use rv_memory::region::Region;
use rv_memory::store::{ByteStore, MemFault};
use std::alloc::{AllocError, Global};

/// The first address of hart 0's stack; the other harts' follow it.
const STACKS: u32 = 0xc000_0000;

/// The bytes of a stack.
const STACK_LEN: u32 = 0x1_0000;

fn stack(alloc: Global, h: u8) -> Region
    requires { h < MOST_HARTS }
    ensures { result ≡ state.stack h }
{
    Region {
        start: STACKS + u32::from(h) * STACK_LEN,
        bytes: Vec::new(alloc),
        len: STACK_LEN,
        r: true,
        w: true,
        x: false,
    }
}

/// The stacks of `MOST_HARTS` harts. They are empty regions, which take no memory.
fn all_stacks(alloc: Global) -> [Region; MOST_HARTS as usize]
    ensures { result ≡ state.stacks MOST_HARTS }
{
    [
        stack(alloc, 0),
        stack(alloc, 1),
        stack(alloc, 2),
        stack(alloc, 3),
        stack(alloc, 4),
        stack(alloc, 5),
        stack(alloc, 6),
        stack(alloc, 7),
        stack(alloc, 8),
        stack(alloc, 9),
        stack(alloc, 10),
        stack(alloc, 11),
        stack(alloc, 12),
        stack(alloc, 13),
        stack(alloc, 14),
        stack(alloc, 15),
    ]
}

/// A store of the regions with the stacks of so many harts. It tests them together before it asks for memory.
#[tactic(auto, using(crate::proofs::StartLemmas::some_stacks, crate::proofs::StartLemmas::stacks_are_extents))]
pub(crate) fn store_with_stacks<S: ByteStore>(
    alloc: Global,
    regions: &[Region],
    count: u8,
) -> Result<S, MemFault>
    requires count { count ≤ MOST_HARTS }
    requires extents { All IsExtent regions.now }
    ensures fits { OnOk result (fault_of (state.with_stacks regions.now count) ≡ None) }
    ensures memory { IfOk result (λ store.
        S.memory store ≡ memory_of (state.with_stacks regions.now count)) }
    ensures err { IfErr result (λ fault.
        fault ≡ unwrap_or (fault_of (state.with_stacks regions.now count)) MemFault.NoMemory) }
{
    let stacks = all_stacks(alloc);
    S::make_of_both(alloc, regions, &stacks[..count as usize])
}

/// A hart as it begins.
fn first_hart(entry: u32, count: u8, h: u8) -> Hart
    requires { h < MOST_HARTS }
    ensures { result ≡ state.first_hart entry count h }
{
    let mut registers = Registers::zeros();
    registers.write(2, STACKS + (u32::from(h) + 1) * STACK_LEN);
    registers.write(10, u32::from(h));
    registers.write(11, u32::from(count));
    Hart {
        registers,
        pc: entry,
        status: Status::Running,
        reservation: None,
    }
}

/// So many harts as they begin.
#[tactic(auto, using(crate::proofs::StartLemmas::harts_more))]
pub(crate) fn first_harts(alloc: Global, entry: u32, count: u8) -> Result<Vec<Hart>, AllocError>
    requires { count ≤ MOST_HARTS }
    ensures harts { IfOk result (λ harts.
        harts.items ≡ map (state.first_hart entry count) (range_with_len 0 count)) }
    ensures count { IfOk result (λ harts. vec_len harts ≡ count) }
{
    let mut harts = Vec::with_capacity(alloc, count as usize)?;
    for h in 0..count {
        harts.push(first_hart(entry, count, h))?;
    }
    Ok(harts)
}
