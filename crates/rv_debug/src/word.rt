//! A word of memory.
ghost use Rattle.std.specs.Prelude.{◌≡◌};
ghost use Rattle.rv_debug.specs.Answers as answer;

use crate::shown::byte_at;
use rv_hart::machine::Machine;
use rv_memory::store::ByteStore;

/// The four bytes from an address on as a little-endian number, where memory has each of them.
pub fn word_at<S: ByteStore>(machine: &Machine<S>, address: u32) -> Option<u32>
    ensures { result ≡ answer.word_at machine.now.state.memory address }
{
    let a = byte_at(machine, u64::from(address))?;
    let b = byte_at(machine, u64::from(address) + 1)?;
    let c = byte_at(machine, u64::from(address) + 2)?;
    let d = byte_at(machine, u64::from(address) + 3)?;
    Some(u32::from_le_bytes([a, b, c, d]))
}
