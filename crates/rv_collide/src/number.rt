//! Bytes of memory as a number.
ghost use Rattle.std.specs.Prelude.{◌≡◌, ◌<◌, ◌+◌, unwrap_or};
ghost use Rattle.rv_memory.specs.Memory.{byte, load, IsSize};

use rv_hart::machine::Machine;
use rv_memory::store::ByteStore;

/// One, two or four bytes from an address on, as a little-endian number. A byte outside of memory is 0.
pub fn number_at<S: ByteStore>(machine: &Machine<S>, first: u32, size: u8) -> u32
    requires { IsSize size }
    ensures { result ≡ load machine.now.state.memory first size }
{
    match machine.number(first, size) {
        Some(number) => number,
        None => number_by_bytes(machine, first, size),
    }
}

/// The same byte by byte, where the bytes do not lie in one region.
#[cold]
#[inline(never)]
fn number_by_bytes<S: ByteStore>(machine: &Machine<S>, first: u32, size: u8) -> u32
    requires { IsSize size }
    ensures { result ≡ load machine.now.state.memory first size }
{
    let one = byte_at(machine, first, 0);
    if size == 1 {
        return one;
    }
    let two = byte_at(machine, first, 1);
    if size == 2 {
        return one + 256 * two;
    }
    let three = byte_at(machine, first, 2);
    let four = byte_at(machine, first, 3);
    one + 256 * (two + 256 * (three + 256 * four))
}

/// A byte at an offset, or 0 outside of memory.
fn byte_at<S: ByteStore>(machine: &Machine<S>, first: u32, offset: u32) -> u32
    ensures value { result ≡ unwrap_or (byte machine.now.state.memory (first + offset)) 0 }
    ensures below { result < 256 }
{
    machine.no_byte_past_the_last();
    match first.checked_add(offset) {
        None => 0,
        Some(address) => match machine.byte(address) {
            None => 0,
            Some(byte) => u32::from(byte),
        },
    }
}
