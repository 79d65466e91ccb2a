//! The instructions of an image, as its file gives them.
ghost use Rattle.std.specs.Prelude.{◌≡◌, find};
ghost use Rattle.std.specs.Option.{option_copied};
ghost use Rattle.rv_prune.specs.Code as spec;

use rv_elf::Image;
use rv_isa::codec::decode;
use rv_isa::instr::Instr;
use rv_memory::region::Region;

/// The word in the first four bytes, the least significant first.
fn first_word(bytes: &[u8]) -> Option<u32>
    ensures { result ≡ spec.first_word bytes.now }
{
    match bytes {
        [a, b, c, d, ..] => Some(u32::from_le_bytes([*a, *b, *c, *d])),
        _ => None,
    }
}

/// The word at an address, where its four bytes are file bytes of the segment.
fn word_in(address: u32, segment: &Region) -> Option<u32>
    ensures { result ≡ spec.word_in address segment.now }
{
    if address < segment.start {
        return None;
    }
    let offset = (address - segment.start) as usize;
    let bytes = segment.bytes.as_slice();
    first_word(&bytes[offset.min(bytes.len())..])
}

fn has_word(address: u32, segment: &Region) -> bool
    ensures { result ≡ spec.has_word address segment.now }
{
    word_in(address, segment).is_some()
}

/// The segment whose file bytes the four bytes at an address are.
fn segment_of(image: &Image, address: u32) -> Option<&Region>
    ensures { option_copied result ≡ find (spec.has_word address) image.now.segments }
{
    image
        .segments()
        .iter()
        .find(|segment| has_word(address, segment))
}

/// The word at an address, where its four bytes are file bytes of one segment.
#[tactic(auto, unfolding(crate::specs::Code::word_at))]
fn word_at(image: &Image, address: u32) -> Option<u32>
    ensures { result ≡ spec.word_at image.now address }
{
    match segment_of(image, address) {
        Some(segment) => word_in(address, segment),
        None => None,
    }
}

/// The instruction at an address, where the image's file has one there.
#[tactic(auto, unfolding(crate::specs::Code::instruction_at))]
pub fn instruction_at(image: &Image, address: u32) -> Option<Instr>
    ensures { result ≡ spec.instruction_at image.now address }
{
    decode(word_at(image, address)?)
}
