//! Both orders of two steps.
use crate::machines::{page, region, two};
use rv_hart::machine::{MOST_HARTS, Machine};
use rv_memory::paged::Paged;
use rv_orders::{Trial, trial};
use std::alloc::Global;
use std::process::Abort;

mod trials;

/// A machine that runs words from 00010000 on, which may be written, with 4,096 zeros from 00020000 on.
fn machine(rt: &impl Abort, alloc: Global, words: &[u32], harts: u8) -> Machine<Paged> {
    assert!(rt; 1 <= harts && harts <= MOST_HARTS);
    let mut text = region(rt, alloc, 0x10000, words, false);
    text.w = true;
    let zeros = page(rt, alloc, 0x20000, &[0]);
    let regions = two(rt, alloc, text, zeros);
    Machine::new(alloc, &regions, 0x10000, harts, 8).expect(rt, "a machine")
}

/// The trial of the next steps of two harts, with a number, of at most so many steps.
fn tried(
    rt: &impl Abort,
    alloc: Global,
    machine: &mut Machine<Paged>,
    harts: [u8; 2],
    number: u32,
    most: u32,
) -> Option<Trial> {
    let printed = machine.output().len();
    assert!(rt; 2 <= most && most <= 20_000 && printed <= 8);
    trial(alloc, machine, harts[0], harts[1], number, most).expect(rt, "memory")
}
