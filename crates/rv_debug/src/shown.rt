//! What is shown of a machine.
ghost use Rattle.std.specs.Prelude.{◌≡◌, ◌+◌, ◌<◌, IfOk, IsSome, Some, is_some, length};
ghost use Rattle.rv_debug.specs.Answers as answer;
ghost use Rattle.rv_hart.specs.SomeHart.{SomeHart};
ghost use Rattle.rv_memory.specs.Memory.{byte};

use crate::hart_view::HartView;
use rv_hart::machine::Machine;
use rv_memory::store::{ByteStore, NoMemory};
use std::alloc::Global;

/// A hart as it is shown.
pub(crate) fn view_of<S: ByteStore>(machine: &Machine<S>, h: u8) -> HartView
    requires { h < length machine.now.state.harts }
    ensures { SomeHart (λ hart. answer.IsView hart result) machine.now.state h }
{
    let mut registers = [0; 32];
    for r in 0..32u8 {
        registers[r as usize] = machine.register(h, r);
    }
    HartView {
        status: machine.status(h),
        pc: machine.pc(h),
        registers,
        reservation: machine.reservation(h),
    }
}

/// Whether memory has each of the bytes from an address on.
pub(crate) fn has_bytes<S: ByteStore>(machine: &Machine<S>, address: u32, len: u32) -> bool
    ensures { result ≡ is_some (answer.bytes_from machine.now.state.memory address len) }
{
    for i in 0..len {
        if byte_at(machine, u64::from(address) + u64::from(i)).is_none() {
            return false;
        }
    }
    true
}

/// The bytes from an address on, all of which memory has.
pub(crate) fn bytes_of<S: ByteStore>(
    alloc: Global,
    machine: &Machine<S>,
    address: u32,
    len: u32,
) -> Result<Vec<u8>, NoMemory>
    requires { IsSome (answer.bytes_from machine.now.state.memory address len) }
    ensures { IfOk result (λ bytes. answer.bytes_from machine.now.state.memory address len ≡ Some bytes.items) }
{
    let mut bytes = Vec::new(alloc);
    for i in 0..len {
        match byte_at(machine, u64::from(address) + u64::from(i)) {
            None => unreachable!(),
            Some(byte) => bytes.push(byte)?,
        }
    }
    Ok(bytes)
}

/// The byte at an address, which may lie past the last one.
pub(crate) fn byte_at<S: ByteStore>(machine: &Machine<S>, address: u64) -> Option<u8>
    ensures { result ≡ byte machine.now.state.memory address }
{
    machine.no_byte_past_the_last();
    match u32::try_from(address) {
        Ok(address) => machine.byte(address),
        Err(_) => None,
    }
}
