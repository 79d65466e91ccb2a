//! The machines that are tried.
ghost use Rattle.std.specs.Prelude.{All};
ghost use Rattle.rv_memory.specs.Extent.{IsExtent};

use rv_hart::machine::{MOST_HARTS, Machine};
use rv_memory::flat::Flat;
use rv_memory::region::Region;
use rv_memory::store::ByteStore;
use std::alloc::Global;
use std::process::Abort;

fn bytes_of(rt: &impl Abort, alloc: Global, words: &[u32]) -> Vec<u8> {
    let mut bytes = Vec::new(alloc);
    for word in words {
        bytes
            .extend_from_slice(&word.to_le_bytes())
            .expect(rt, "memory");
    }
    bytes
}

/// Words as a region from an address on.
pub fn region(rt: &impl Abort, alloc: Global, start: u32, words: &[u32], w: bool) -> Region
    ensures { IsExtent result }
{
    let bytes = bytes_of(rt, alloc, words);
    let len = bytes.len();
    assert!(rt; 1 <= len && len <= 65_536);
    Region {
        start,
        bytes,
        len: len as u32,
        r: true,
        w,
        x: !w,
    }
}

/// A page of 4,096 bytes from an address on that begins with words.
pub fn page(rt: &impl Abort, alloc: Global, start: u32, words: &[u32]) -> Region
    ensures { IsExtent result }
{
    let mut page = region(rt, alloc, start, words, true);
    assert!(rt; page.bytes.len() <= 4096);
    page.len = 4096;
    page
}

/// Words from 00010000 on, and 4,096 bytes from 00020000 on that begin with data.
pub fn regions(rt: &impl Abort, alloc: Global, words: &[u32], data: &[u32]) -> Vec<Region>
    ensures { All IsExtent result.items }
{
    let text = region(rt, alloc, 0x10000, words, false);
    let data = page(rt, alloc, 0x20000, data);
    two(rt, alloc, text, data)
}

/// A machine over any store, which runs words from 00010000 on, with 4,096 bytes from 00020000 on that begin with data. It may print
/// 8 bytes.
pub fn machine_over<S: ByteStore>(
    rt: &impl Abort,
    alloc: Global,
    words: &[u32],
    data: &[u32],
    harts: u8,
) -> Machine<S> {
    assert!(rt; 1 <= harts && harts <= MOST_HARTS);
    let regions = regions(rt, alloc, words, data);
    Machine::new(alloc, &regions, 0x10000, harts, 8).expect(rt, "a machine")
}

/// The same over flat memory.
pub fn machine(
    rt: &impl Abort,
    alloc: Global,
    words: &[u32],
    data: &[u32],
    harts: u8,
) -> Machine<Flat> {
    machine_over(rt, alloc, words, data, harts)
}

/// Both regions.
pub fn two(rt: &impl Abort, alloc: Global, first: Region, second: Region) -> Vec<Region>
    requires first { IsExtent first }
    requires second { IsExtent second }
    ensures { All IsExtent result.items }
{
    let mut all = Vec::new(alloc);
    all.push(first).expect(rt, "memory");
    all.push(second).expect(rt, "memory");
    all
}

/// So many steps of one hart, each of which is made.
pub fn run_alone<S: ByteStore>(rt: &impl Abort, machine: &mut Machine<S>, h: u8, count: u32) {
    for _ in 0..count {
        assert!(rt; machine.step(h).is_ok(), "a step of hart {h}");
    }
}
