//! What a hunt aims at: the near pairs of two sides.
use rv_explain::symbol_table::SymbolTable;
use rv_memory::store::NoMemory;
use rv_report::key::Key;
use rv_tables::merge::ignore::{Ignores, aimed};
use rv_walk::code::{Code, Marks};
use rv_walk::near_pair::NearPair;
use std::alloc::Global;

/// Two sides of a race, each the name of a symbol or an address, as a line of an ignore list has them.
#[derive(Clone, Copy)]
pub struct Sides<'a> {
    pub one: &'a str,
    pub other: &'a str,
}

/// The words of code that each of two sides fits.
#[derive(Drop)]
pub struct Aim {
    one: Marks,
    other: Marks,
}

/// The words of code that a line fits whose other side is any.
fn fitted(
    alloc: Global,
    line: &Ignores,
    symbols: &SymbolTable,
    code: &Code,
) -> Result<Marks, NoMemory> {
    let names = line.names(alloc, symbols.image())?;
    let mut marks = Marks::none(alloc, code.len())?;
    for stretch in code.stretches() {
        for place in 0..stretch.count {
            let key = Key {
                first: stretch.first.wrapping_add(place.wrapping_mul(4)),
                second: None,
            };
            if line.fits(alloc, symbols, &names, &key, None)? {
                marks.add(stretch.before.wrapping_add(place));
            }
        }
    }
    Ok(marks)
}

/// The words of code that a side fits.
fn side_of(
    alloc: Global,
    side: &str,
    symbols: &SymbolTable,
    code: &Code,
) -> Result<Marks, NoMemory> {
    // The image has the names that are aimed at: only want of memory refuses them.
    match aimed(alloc, symbols.image(), side.as_bytes(), b"*") {
        Ok(line) => fitted(alloc, &line, symbols, code),
        Err(_) => Err(NoMemory),
    }
}

/// Whether the instruction at an address is among the words.
fn has(marks: &Marks, code: &Code, address: u32) -> bool {
    let stretches = code.stretches();
    let behind = stretches.partition_point(|stretch| stretch.first <= address);
    match stretches.get(behind.saturating_sub(1)) {
        Some(stretch) => {
            let place = address.wrapping_sub(stretch.first) / 4;
            place < stretch.count && marks.has(stretch.before.wrapping_add(place))
        }
        None => false,
    }
}

impl Aim {
    /// The aim of two sides, where something is aimed at.
    pub fn of(
        alloc: Global,
        sides: Option<Sides<'_>>,
        symbols: &SymbolTable,
        code: &Code,
    ) -> Result<Option<Aim>, NoMemory> {
        match sides {
            None => Ok(None),
            Some(sides) => Ok(Some(Aim {
                one: side_of(alloc, sides.one, symbols, code)?,
                other: side_of(alloc, sides.other, symbols, code)?,
            })),
        }
    }

    /// Whether a near pair is of the two sides, in either order.
    fn fits(&self, code: &Code, pair: &NearPair) -> bool {
        let addresses = pair.addresses();
        let (lesser, greater) = (addresses.lesser, addresses.greater);
        has(&self.one, code, lesser) && has(&self.other, code, greater)
            || has(&self.one, code, greater) && has(&self.other, code, lesser)
    }

    /// Those of the near pairs that are of the two sides.
    pub(crate) fn among(
        &self,
        alloc: Global,
        code: &Code,
        pairs: &[NearPair],
    ) -> Result<Vec<NearPair>, NoMemory> {
        let mut aimed = Vec::new(alloc);
        for pair in pairs {
            if self.fits(code, pair) {
                aimed.push(*pair)?;
            }
        }
        Ok(aimed)
    }
}
