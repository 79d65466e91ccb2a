//! The symbols of an image in tables, so that a look-up is a search by halves.
ghost use Rattle.std.specs.Prelude.{◌≡◌, IfOk};
ghost use Rattle.std.specs.Option.{option_copied};
ghost use Rattle.rv_lines.specs.SourceLines.{frames_at};
ghost use Rattle.rv_symbols.specs.Naming as naming;
ghost use Rattle.rv_symbols.specs.Symbols as spec;
ghost use Rattle.rv_symbols.specs.internal.Steps.{unless_before};

use crate::steps::{Rule, Step, steps_of, told_at};
use crate::symbols::{has_size, segment_of};
use rv_elf::{Image, Symbol};
use rv_lines::frames::Frames;
use rv_lines::lines::SourceLines;
use rv_memory::region::Region;
use rv_memory::store::NoMemory;
use std::alloc::Global;
use std::marker::Model;

/// An image and tables of its symbols: by which symbol that holds it an address is told, and which stands nearest at
/// it or below. Beside them the lines of the image's sources, where they are known.
#[derive(Drop)]
pub struct SymbolTable<'a> {
    image: &'a Image,
    holders: Vec<Step<'a>>,
    nearest: Vec<Step<'a>>,
    lines: Option<&'a SourceLines>,
}

impl<'a> Model for SymbolTable<'a> {
    ghost use Rattle.rv_symbols.specs.Naming.{Naming};
    ghost use Rattle.rv_symbols.specs.internal.Given.{lines_given};
    ghost use Rattle.rv_symbols.specs.internal.Steps.{AreTables};

    ghost Value = { Naming };

    ghost view = { λ t. record { image = t.image.now; lines = lines_given t.lines } };

    ghost invariant = { λ t. AreTables t.image.now t.holders.items t.nearest.items };
}

impl<'a> SymbolTable<'a> {
    /// The tables of an image's symbols. They take at most 64 bytes for each symbol.
    pub fn new(alloc: Global, image: &'a Image) -> Result<SymbolTable<'a>, NoMemory>
        ensures { IfOk result (λ table. table ≡ naming.by_symbols image.now) }
    {
        let holders = steps_of(alloc, Rule::Holding, image.symbols())?;
        let nearest = steps_of(alloc, Rule::Below, image.symbols())?;
        Ok(SymbolTable {
            image,
            holders,
            nearest,
            lines: None,
        })
    }

    /// The same with the lines of the image's sources.
    pub fn with_lines(self, lines: &'a SourceLines) -> SymbolTable<'a>
        ensures { result ≡ record self.entry { lines = lines.entry.now } }
    {
        SymbolTable {
            lines: Some(lines),
            ..self
        }
    }

    /// The image.
    pub fn image(&self) -> &'a Image
        ensures { result.now ≡ self.now.image }
    {
        self.image
    }

    /// The symbol that holds the address and goes before all others that do.
    fn holder(&self, address: u32) -> Option<&'a Symbol>
        ensures { option_copied result ≡ spec.holder self.now.image address }
    {
        told_at(&self.holders, address)
    }

    /// The symbol at or below the address that is nearest to it, where it stands in the segment.
    fn nearest(&self, segment: &Region, address: u32) -> Option<&'a Symbol>
        ensures { option_copied result ≡ spec.nearest self.now.image segment.now address }
    {
        let symbol = told_at(&self.nearest, address);
        unless_before(segment, symbol)
    }

    /// The nearest symbol of the address's segment, where no symbol there has a size.
    #[tactic(auto, unfolding(crate::specs::Symbols::label))]
    fn label(&self, address: u32) -> Option<&'a Symbol>
        ensures { option_copied result ≡ spec.label self.now.image address }
    {
        let segment = segment_of(self.image, address)?;
        let symbol = self.nearest(segment, address)?;
        if has_size(symbol) { None } else { Some(symbol) }
    }

    /// The symbol of an address, as `symbol_of` finds it.
    #[tactic(auto, unfolding(crate::specs::Symbols::symbol_of))]
    pub fn symbol_of(&self, address: u32) -> Option<&'a Symbol>
        ensures { option_copied result ≡ spec.symbol_of self.now.image address }
    {
        match self.holder(address) {
            Some(symbol) => Some(symbol),
            None => self.label(address),
        }
    }

    /// The frames of the instruction at an address, the innermost first.
    pub fn frames_at(&self, address: u32) -> Frames<'a>
        ensures { result ≡ frames_at self.now.lines address }
    {
        match self.lines {
            Some(lines) => lines.frames_at(address),
            None => Frames::none(),
        }
    }
}

/// A symbol, unless it stands below the segment.
fn unless_before<'a>(segment: &Region, symbol: Option<&'a Symbol>) -> Option<&'a Symbol>
    ensures { option_copied result ≡ unless_before segment.now (option_copied symbol.entry) }
{
    match symbol {
        Some(symbol) if segment.start <= symbol.value => Some(symbol),
        _ => None,
    }
}
