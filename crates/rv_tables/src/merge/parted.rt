//! The rows of a table that are told, and those that are ignored.
ghost use Rattle.std.specs.Prelude.{◌≡◌, ◌++◌, ◌∷◌, [], if◌then◌else◌, not, IfOk, OnOk, filter};
ghost use Rattle.rv_tables.specs.merge.Ignore as spec;

use crate::merge::ignore::Ignores;
use crate::row::RaceRow;
use rv_memory::store::NoMemory;
use rv_report::key::Key;
use rv_symbols::symbol_table::SymbolTable;
use std::alloc::Global;

/// The rows whose races no line of an ignore list fits, and the others, each in the order of the table.
#[derive(Drop)]
pub struct Parted {
    pub told: Vec<(Key, RaceRow)>,
    pub ignored: Vec<(Key, RaceRow)>,
}

/// Adds a row.
fn add(parted: &mut Parted, row: (Key, RaceRow), is_ignored: bool) -> Result<(), NoMemory>
    ensures told { OnOk result (parted.new.told.items ≡ parted.old.told.items
        ++ (if not is_ignored then row ∷ [] else [])) }
    ensures ignored { OnOk result (parted.new.ignored.items ≡ parted.old.ignored.items
        ++ (if is_ignored then row ∷ [] else [])) }
{
    if is_ignored {
        parted.ignored.push(row)?;
    } else {
        parted.told.push(row)?;
    }
    Ok(())
}

/// The rows that are told, and those that are ignored.
pub fn part_rows(
    alloc: Global,
    symbols: &SymbolTable,
    ignores: &Ignores,
    rows: &[(Key, RaceRow)],
) -> Result<Parted, NoMemory>
    ensures told { IfOk result (λ parted.
        parted.told.items ≡ filter (spec.is_told symbols.now ignores.now) rows.now) }
    ensures ignored { IfOk result (λ parted.
        parted.ignored.items ≡ filter (spec.is_ignored symbols.now ignores.now) rows.now) }
{
    let mut parted = Parted {
        told: Vec::new(alloc),
        ignored: Vec::new(alloc),
    };
    let names = ignores.names(alloc, symbols.image())?;
    for row in rows {
        let is_ignored = ignores.fits(alloc, symbols, &names, &row.0, row.1.address)?;
        add(&mut parted, *row, is_ignored)?;
    }
    Ok(parted)
}
