//! The symbols of an image.
ghost use Rattle.std.specs.Prelude.{◌≡◌, ◌-◌, ◌≤◌, [], IfOk, IsTrue};
ghost use Rattle.std.specs.List.{All};
ghost use Rattle.std.specs.String.{string_bytes};
ghost use Rattle.rv_elf.specs.Contents.{IsSymbol};
ghost use Rattle.rv_asm.specs.Assembled as spec;
ghost use Rattle.rv_asm.specs.Text.{is_name};
ghost use Rattle.rv_asm.specs.internal.Walks.{IsAscending, AreWalks, at_label, walked, walk_in};

use crate::passes::place::{Label, Spot};
use crate::statement::{Name, Section};
use rv_elf::Symbol;
use rv_memory::store::NoMemory;
use std::alloc::Global;

/// A section's labels from the last one on: the least address so far, and the least above it.
#[derive(Clone, Copy)]
pub struct Walk {
    pub next: u32,
    pub after: u32,
}

/// Both sections' labels from the last one on.
#[derive(Clone, Copy)]
pub struct Walks {
    pub text: Walk,
    pub writable: Walk,
}

/// Before the last label, where the sections end there.
fn first_walks(text_end: u32, data_end: u32) -> Walks
    ensures { AreWalks (record { text = text_end; datas = data_end }) [] result }
{
    Walks {
        text: Walk {
            next: text_end,
            after: text_end,
        },
        writable: Walk {
            next: data_end,
            after: data_end,
        },
    }
}

/// The walk with a label at this address, which is not above those so far.
fn at_label(walk: Walk, address: u32) -> Walk
    ensures { result ≡ at_label walk address }
{
    if address < walk.next {
        Walk {
            next: address,
            after: walk.next,
        }
    } else {
        walk
    }
}

/// The walks with one label more.
fn walked(walks: Walks, spot: Spot) -> Walks
    ensures { result ≡ walked walks spot }
{
    let Walks { text, writable } = walks;
    match spot.section {
        Section::Text => Walks {
            text: at_label(text, spot.address),
            writable,
        },
        Section::Data => Walks {
            text,
            writable: at_label(writable, spot.address),
        },
    }
}

fn walk_in(section: Section, walks: Walks) -> Walk
    ensures { result ≡ walk_in section walks }
{
    match section {
        Section::Text => walks.text,
        Section::Data => walks.writable,
    }
}

/// STT_FUNC in `.text` and STT_OBJECT in `.data`.
fn kind_in(section: Section) -> u8
    ensures { result ≡ spec.kind_in section }
{
    match section {
        Section::Text => 2,
        Section::Data => 1,
    }
}

#[tactic(auto, using(crate::proofs::NameLemmas::is_name_utf8))]
fn text_of(alloc: Global, name: &Name) -> Result<String, NoMemory>
    ensures bytes { IfOk result (λ text. string_bytes text ≡ name.now) }
    ensures valid { IfOk result (λ _. IsTrue (is_name name.now)) }
{
    match str::from_utf8(name.as_bytes()) {
        Ok(text) => Ok(String::from_str(alloc, text)?),
        Err(_) => unreachable!(),
    }
}

/// The symbol of a label that runs up to an address.
fn symbol_of(alloc: Global, label: &Label, end: u32) -> Result<Symbol, NoMemory>
    requires { label.now.spot.address ≤ end }
    ensures value { IfOk result (λ symbol. symbol ≡ record {
      name = label.now.name;
      value = label.now.spot.address;
      size = end - label.now.spot.address;
      kind = spec.kind_in label.now.spot.section;
    }) }
    ensures sound { IfOk result IsSymbol }
{
    let spot = label.spot;
    Ok(Symbol {
        name: text_of(alloc, &label.name)?,
        value: spot.address,
        size: end - spot.address,
        kind: kind_in(spot.section),
    })
}

/// The symbols of the labels, where the sections end there.
pub fn symbols_of(
    alloc: Global,
    labels: &[Label],
    text_end: u32,
    data_end: u32,
) -> Result<Vec<Symbol>, NoMemory>
    requires { IsAscending (record { text = text_end; datas = data_end }) labels.now }
    ensures value { IfOk result (λ symbols. symbols.items
        ≡ spec.symbols_of (record { text = text_end; datas = data_end }) labels.now) }
    ensures sound { IfOk result (λ symbols. All IsSymbol symbols.items) }
{
    let mut walks = first_walks(text_end, data_end);
    let mut symbols = Vec::new(alloc);
    let mut left = labels.len();
    while left > 0 {
        left -= 1;
        let label = &labels[left];
        walks = walked(walks, label.spot);
        let walk = walk_in(label.spot.section, walks);
        symbols.push(symbol_of(alloc, label, walk.after)?)?;
    }
    symbols.reverse();
    Ok(symbols)
}
