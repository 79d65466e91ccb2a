//! The image of both sections and the labels.
ghost use Rattle.std.specs.Prelude.{◌≡◌, ◌^◌, ◌<◌, ◌∷◌, length, codes, IfOk};
ghost use Rattle.rv_elf.specs.Contents.{IsImage, contents};
ghost use Rattle.rv_asm.specs.Assembled as spec;
ghost use Rattle.rv_asm.specs.Layout as layout;
ghost use Rattle.rv_asm.specs.internal.Sound.{IsSound};

use crate::passes::labels::Labels;
use crate::passes::layout::{DATA_START, TEXT_START};
use crate::passes::place::Spot;
use crate::passes::sections::Sections;
use crate::passes::symbols::symbols_of;
use crate::statement::Section;
use rv_elf::{Image, Symbol};
use rv_memory::region::Region;
use rv_memory::store::NoMemory;
use std::alloc::Global;

fn text_segment(bytes: Vec<u8>) -> Region
    requires { length bytes.items < 2 ^ 32 }
    ensures { result ≡ spec.text_segment bytes.items }
{
    let len = bytes.len() as u32;
    Region {
        start: TEXT_START,
        bytes,
        len,
        r: true,
        w: false,
        x: true,
    }
}

fn data_segment(bytes: Vec<u8>) -> Region
    requires { length bytes.items < 2 ^ 32 }
    ensures { result ≡ spec.data_segment bytes.items }
{
    let len = bytes.len() as u32;
    Region {
        start: DATA_START,
        bytes,
        len,
        r: true,
        w: true,
        x: false,
    }
}

/// The segments of both sections; a section without bytes is none.
fn segments(alloc: Global, sections: Sections) -> Result<Vec<Region>, NoMemory>
    requires text { length sections.text.items < 2 ^ 32 }
    requires writable { length sections.writable.items < 2 ^ 32 }
    ensures { IfOk result (λ made. made.items
        ≡ spec.text_segment sections.text.items ∷ spec.data_segments sections.writable.items) }
{
    let Sections { text, writable } = sections;
    let mut made = Vec::new(alloc);
    made.push(text_segment(text))?;
    if !writable.is_empty() {
        made.push(data_segment(writable))?;
    }
    Ok(made)
}

/// A label in `.text` before its end, or else the beginning of `.text`.
fn entry_in(end: u32, spot: Spot) -> u32
    ensures { result ≡ spec.entry_in end spot.section spot.address }
{
    match spot.section {
        Section::Text if spot.address < end => spot.address,
        _ => TEXT_START,
    }
}

/// `_start` where it stands in `.text` before its end, or else the beginning of `.text`.
fn entry_of(labels: &Labels, end: u32) -> u32
    ensures { result ≡ spec.entry_at end (layout.spot_of labels.now (codes "_start")) }
{
    match labels.spot_of(b"_start") {
        Some(spot) => entry_in(end, spot),
        None => TEXT_START,
    }
}

/// The image of parts that make one.
fn image_with(entry: u32, segments: Vec<Region>, symbols: Vec<Symbol>) -> Image
    requires { IsImage (contents entry segments.items symbols.items) }
    ensures { result ≡ contents entry segments.items symbols.items }
{
    match Image::new(entry, segments, symbols) {
        Some(image) => image,
        None => unreachable!(),
    }
}

/// The image of a source without a fault.
#[tactic(auto, unfolding(crate::specs::Assembled::image_of))]
pub fn image_of(alloc: Global, labels: Labels, sections: Sections) -> Result<Image, NoMemory>
    requires { IsSound labels sections.text.items sections.writable.items }
    ensures { IfOk result (λ image. image
        ≡ spec.image_of labels.entry sections.text.items sections.writable.items) }
{
    let text_end = TEXT_START + sections.text.len() as u32;
    let data_end = DATA_START + sections.writable.len() as u32;
    let entry = entry_of(&labels, text_end);
    let order = labels.into_order();
    let symbols = symbols_of(alloc, &order, text_end, data_end)?;
    let segments = segments(alloc, sections)?;
    Ok(image_with(entry, segments, symbols))
}
