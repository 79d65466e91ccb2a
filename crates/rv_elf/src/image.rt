//! An image: an entry, segments and symbols, with every fact that loading one tests.
ghost use Rattle.std.specs.Prelude.{◌≡◌, ◌↔◌, IsTrue, IfOk, nat_lt};
ghost use Rattle.std.specs.Option.{SomeIff};
ghost use Rattle.std.specs.List.{All, list_all};
ghost use Rattle.rv_elf.specs.Contents.{contents, IsImage, IsSegment, IsSymbol, AreSegments, AreSymbols};

use crate::names::room_after;
use crate::stretch::segments_test;
use crate::symbol::Symbol;
use crate::symbols::ROOM;
use rv_memory::region::Region;
use rv_memory::store::NoMemory;
use std::alloc::Global;
use std::marker::Model;

/// A program for the machine: where it begins, its segments, and its symbols, each in the order of
/// the file. At most 64 segments, each with a byte and none ending past 2^32, share no address with
/// one another or with the harts' stacks and have at most 16,777,216 bytes together. The entry is a
/// multiple of 4, and its word lies in a segment that may be executed. A symbol's type is 0 to 2 and
/// its name is not empty and without a zero byte; at 17 bytes and its name for each, the symbols need
/// at most 67,108,864 bytes.
#[derive(Drop)]
pub struct Image {
    entry: u32,
    segments: Vec<Region>,
    symbols: Vec<Symbol>,
}

impl Model for Image {
    ghost use Rattle.rv_elf.specs.Contents.{Contents, contents, IsImage};

    ghost Value = { Contents };

    ghost view = { λ i. contents i.entry i.segments.items i.symbols.items };

    ghost invariant = { λ i. IsImage (contents i.entry i.segments.items i.symbols.items) };
}

impl Image {
    /// The image of these parts, where they make one. It takes no memory.
    pub fn new(entry: u32, segments: Vec<Region>, symbols: Vec<Symbol>) -> Option<Image>
        ensures { SomeIff result
            (IsImage (contents entry segments.items symbols.items))
            (contents entry segments.items symbols.items) }
    {
        if are_segments(entry, &segments) && are_symbols(&symbols) {
            Some(Image {
                entry,
                segments,
                symbols,
            })
        } else {
            None
        }
    }

    /// Where a hart begins.
    pub fn entry(&self) -> u32
        ensures value { result ≡ self.now.entry }
        ensures valid { IsImage self.now }
    {
        self.entry
    }

    /// The segments, in the file's order.
    pub fn segments(&self) -> &[Region]
        ensures value { result.now ≡ self.now.segments }
        ensures valid { IsImage self.now }
    {
        self.segments.as_slice()
    }

    /// The symbols, in the file's order.
    pub fn symbols(&self) -> &[Symbol]
        ensures value { result.now ≡ self.now.symbols }
        ensures valid { IsImage self.now }
    {
        self.symbols.as_slice()
    }

    /// An equal image with segments and symbols of its own.
    pub fn copy(&self, alloc: Global) -> Result<Image, NoMemory>
        ensures { IfOk result (λ copy. copy ≡ self.now) }
    {
        let Image {
            entry,
            segments,
            symbols,
        } = self;
        let segments = copies_of_regions(alloc, segments)?;
        let symbols = copies_of_symbols(alloc, symbols)?;
        Ok(Image {
            entry: *entry,
            segments,
            symbols,
        })
    }
}

fn copies_of_regions(alloc: Global, regions: &[Region]) -> Result<Vec<Region>, NoMemory>
    ensures { IfOk result (λ copies. copies.items ≡ regions.now) }
{
    let mut copies = Vec::new(alloc);
    for region in regions {
        copies.push(region.copy(alloc)?)?;
    }
    Ok(copies)
}

fn copies_of_symbols(alloc: Global, symbols: &[Symbol]) -> Result<Vec<Symbol>, NoMemory>
    ensures { IfOk result (λ copies. copies.items ≡ symbols.now) }
{
    let mut copies = Vec::new(alloc);
    for symbol in symbols {
        copies.push(symbol.copy(alloc)?)?;
    }
    Ok(copies)
}

fn is_segment(region: &Region) -> bool
    ensures { IsTrue result ↔ IsSegment region.now }
{
    region.len >= 1
        && region.bytes.len() <= region.len as usize
        && u64::from(region.start) + u64::from(region.len) <= 1 << 32
}

fn are_each_segments(regions: &[Region]) -> bool
    ensures { IsTrue result ↔ All IsSegment regions.now }
{
    for region in regions {
        if !is_segment(region) {
            return false;
        }
    }
    true
}

fn are_segments(entry: u32, regions: &[Region]) -> bool
    ensures { IsTrue result ↔ AreSegments entry regions.now }
{
    if regions.len() > 64 || !are_each_segments(regions) {
        return false;
    }
    segments_test(entry, regions).is_ok()
}

/// STT_FUNC, the last of the types that a symbol may have.
const LAST_TYPE: u8 = 2;

/// Whether there is no zero byte.
fn is_unbroken(name: &[u8]) -> bool
    ensures { result ≡ list_all (λ b. nat_lt 0 b) name.now }
{
    name.iter().all(|b| *b > 0)
}

fn is_symbol(symbol: &Symbol) -> bool
    ensures { IsTrue result ↔ IsSymbol symbol.now }
{
    let name = symbol.name.as_str();
    let (_value, _size) = (symbol.value, symbol.size);
    if symbol.kind > LAST_TYPE || name.is_empty() {
        return false;
    }
    is_unbroken(name.as_bytes())
}

fn are_symbols(symbols: &[Symbol]) -> bool
    ensures { IsTrue result ↔ AreSymbols symbols.now }
{
    let mut room = ROOM;
    for symbol in symbols {
        if !is_symbol(symbol) {
            return false;
        }
        let Ok(left) = room_after(room, symbol.name.as_bytes()) else {
            return false;
        };
        room = left;
    }
    true
}

/// The image of parts that were tested one by one.
pub fn tested_image(entry: u32, segments: Vec<Region>, symbols: Vec<Symbol>) -> Image
    requires { IsImage (contents entry segments.items symbols.items) }
    ensures { result ≡ contents entry segments.items symbols.items }
{
    Image {
        entry,
        segments,
        symbols,
    }
}
