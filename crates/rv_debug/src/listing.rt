//! The lines of words in memory.
ghost use Rattle.std.specs.Prelude.{◌≡◌, ◌≤◌, IfOk, IsSome, MatchOption, Some, None, is_some, map};
ghost use Rattle.std.specs.String.{string_bytes};
ghost use Rattle.rv_debug.specs.Answers as answer;

use crate::shown::has_bytes;
use crate::word::word_at;
use rv_asm::listed;
use rv_hart::machine::Machine;
use rv_memory::store::{ByteStore, NoMemory};
use std::alloc::Global;

/// Whether the address is a multiple of 4, and memory has each of the words from there on.
pub(crate) fn has_lines<S: ByteStore>(machine: &Machine<S>, address: u32, count: u32) -> bool
    requires { count ≤ 64 }
    ensures { result ≡ is_some (answer.lines_from machine.now.state.memory address count) }
{
    if address % 4 != 0 {
        return false;
    }
    has_bytes(machine, address, 4 * count)
}

/// The lines of the words from an address on, all of which memory has.
pub(crate) fn lines_of<S: ByteStore>(
    alloc: Global,
    machine: &Machine<S>,
    address: u32,
    count: u32,
) -> Result<Vec<String>, NoMemory>
    requires { IsSome (answer.lines_from machine.now.state.memory address count) }
    ensures { IfOk result (λ lines. answer.lines_from machine.now.state.memory address count
        ≡ Some (map (λ line. string_bytes line) lines.items)) }
{
    let mut lines = Vec::new(alloc);
    for i in 0..count {
        match line_at(alloc, machine, u64::from(address) + 4 * u64::from(i))? {
            None => unreachable!(),
            Some(line) => lines.push(line)?,
        }
    }
    Ok(lines)
}

/// The line of the word at an address, or None where memory lacks a byte of it.
fn line_at<S: ByteStore>(
    alloc: Global,
    machine: &Machine<S>,
    address: u64,
) -> Result<Option<String>, NoMemory>
    ensures { IfOk result (λ answered. MatchOption answered
        (answer.line_at machine.now.state.memory address ≡ None)
        (λ line. answer.line_at machine.now.state.memory address ≡ Some (string_bytes line))) }
{
    machine.no_byte_past_the_last();
    let Ok(address) = u32::try_from(address) else {
        return Ok(None);
    };
    match word_at(machine, address) {
        None => Ok(None),
        Some(word) => Ok(Some(listed(alloc, address, word)?)),
    }
}
