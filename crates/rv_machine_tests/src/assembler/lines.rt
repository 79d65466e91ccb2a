//! Lines as they are listed, and read back at the same address.
use crate::assertion::assert_is;
use rv_asm::{line_of, word_at};
use std::alloc::Global;
use std::process::Abort;

/// Asserts that a word is listed so at its address, and that the line is read back.
fn assert_line(rt: &impl Abort, alloc: Global, word: u32, address: u32, text: &str) {
    let line = line_of(alloc, word, address).expect(rt, "memory");
    assert_is(rt, line.as_str(), text, "the line");
    assert_is(rt, word_at(text, address), Ok(word), text);
}

/// A word, its address and its line.
const TARGETS: &[(u32, u32, &str)] = &[
    (0x0020_8463, 0x1_0000, "beq x1, x2, 0x00010008"),
    (0x0100_00ef, 0x1_0000, "jal x1, 0x00010010"),
    (0xfe00_0ee3, 0, "beq x0, x0, 0xfffffffc"),
    (0x0080_006f, 0xffff_fffc, "jal x0, 0x00000004"),
    (0x8000_006f, 0x1_0000, "jal x0, 0xfff10000"),
];

#[test]
fn lists_targets_by_their_address(rt: HostRuntime) {
    for (word, address, text) in TARGETS {
        assert_line(&rt, rt.alloc(), *word, *address, text);
    }
}
