//! The scan of an image's segments for sites.
ghost use Rattle.std.specs.Prelude.{◌≡◌, ◌++◌, ◌+◌, ◌%◌, ◌≤◌, [], ◌∷◌, length, IfOk, OnOk, IsTrue};
ghost use Rattle.std.specs.Option.{option_copied};
ghost use Rattle.rv_elf.specs.Contents.{IsSegment};
ghost use Rattle.rv_hart.specs.NextAccess.{is_plain_op};
ghost use Rattle.rv_isa.specs.Decoded.{op_at};
ghost use Rattle.rv_memory.specs.Memory.{load};
ghost use Rattle.rv_sample.specs.Sites.{is_site, sites, sites_among};
ghost use Rattle.rv_sample.specs.internal.Code.{earlier, next_code};

use rv_elf::Image;
use rv_isa::codec::decode;
use rv_isa::shape::Shape;
use rv_memory::region::Region;
use rv_memory::store::NoMemory;
use std::alloc::Global;

/// The sites of an image, in ascending order.
pub fn scanned(alloc: Global, image: &Image, excluded: &[u32]) -> Result<Vec<u32>, NoMemory>
    ensures { IfOk result (λ found. found.items ≡ sites image.now excluded.now) }
{
    let segments = image.segments();
    let mut found = Vec::new(alloc);
    let mut from: u64 = 0;
    while let Some(segment) = next_code(segments, from) {
        add_sites(&mut found, segment, excluded)?;
        from = u64::from(segment.start) + u64::from(segment.len);
    }
    Ok(found)
}

/// The segment that may be executed with the least first address from one on.
fn next_code(segments: &[Region], from: u64) -> Option<&Region>
    ensures { option_copied result ≡ next_code segments.now from }
{
    match segments {
        [] => None,
        [first, rest @ ..] => earlier(from, first, next_code(rest, from)),
    }
}

/// The first segment where it may be executed, begins at `from` or after it, and before the other one.
fn earlier<'a>(from: u64, first: &'a Region, other: Option<&'a Region>) -> Option<&'a Region>
    ensures { option_copied result ≡ earlier from first.entry.now (option_copied other.entry) }
{
    let is_code = first.x && from <= u64::from(first.start);
    match other {
        None => is_code.then_some(first),
        Some(other) => {
            if is_code && first.start < other.start {
                Some(first)
            } else {
                Some(other)
            }
        }
    }
}

/// Adds the sites of one segment, in ascending order.
fn add_sites(found: &mut Vec<u32>, segment: &Region, excluded: &[u32]) -> Result<(), NoMemory>
    requires segment { IsSegment segment.now }
    requires executable { IsTrue segment.now.x }
    ensures { OnOk result (found.new.items ≡ found.old.items
        ++ sites_among (segment.now ∷ []) excluded.now segment.now.start segment.now.len) }
{
    let end = u64::from(segment.start) + segment.bytes.len() as u64;
    let mut address = u64::from(segment.start).next_multiple_of(4);
    while address + 4 <= end {
        let pc = address as u32;
        if is_site(segment, excluded, pc) {
            found.push(pc)?;
        }
        address += 4;
    }
    Ok(())
}

/// Whether the address, a multiple of 4 whose word lies within the bytes of the file of a segment that may be
/// executed, is a site.
fn is_site(segment: &Region, excluded: &[u32], address: u32) -> bool
    requires segment { IsSegment segment.now }
    requires executable { IsTrue segment.now.x }
    requires aligned { address % 4 ≡ 0 }
    requires from { segment.now.start ≤ address }
    requires whole { address + 4 ≤ segment.now.start + length segment.now.bytes }
    ensures { result ≡ is_site (segment.now ∷ []) excluded.now address }
{
    is_plain(word_at(segment, address)) && !excluded.contains(&address)
}

/// The word at an address that lies within a segment's bytes of the file.
fn word_at(segment: &Region, address: u32) -> u32
    requires segment { IsSegment segment.now }
    requires from { segment.now.start ≤ address }
    requires whole { address + 4 ≤ segment.now.start + length segment.now.bytes }
    ensures { result ≡ load (segment.now ∷ []) address 4 }
{
    let at = (address - segment.start) as usize;
    let bytes = segment.bytes.as_slice();
    let [one, two, three, four] = [bytes[at], bytes[at + 1], bytes[at + 2], bytes[at + 3]];
    let upper = u32::from(three) + 256 * u32::from(four);
    u32::from(one) + 256 * (u32::from(two) + 256 * upper)
}

/// Whether a word is a plain load or store.
fn is_plain(word: u32) -> bool
    ensures { result ≡ is_plain_op (op_at word) }
{
    match decode(word) {
        None => false,
        Some(instr) => match instr.shape() {
            Shape::PlainLoad(_) | Shape::PlainStore(_) => true,
            Shape::Lr | Shape::Sc | Shape::Amo | Shape::Other => false,
        },
    }
}
