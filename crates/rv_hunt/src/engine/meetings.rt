//! Races that are told the moment that they are met, while a hunt goes on.
use rv_explain::block::RaceClass;
use rv_explain::classes::rank;
use rv_explain::names::{function_text, variable_text};
use rv_explain::symbol_table::SymbolTable;
use rv_memory::store::NoMemory;
use rv_races::classes::class_word;
use rv_report::key::Key;
use rv_search::hunt::Watch;
use rv_search::hunted::Hunted;
use rv_tables::merge::ignore::Ignores;
use rv_tables::merge::parted::part_rows;
use rv_tables::row::RaceRow;
use rv_text::decimal::Decimal;
use std::alloc::Global;

/// How many races are told. Of more it is told that there are.
const MOST_TOLD: usize = 20;

const MORE: &[u8] = b".. and more";

/// The instructions of a race, the lower address first: of a changed report those that its block names.
#[derive(Clone, Copy, PartialEq, Eq)]
struct Pair {
    first: u32,
    second: Option<u32>,
}

fn pair_of(race: &(Key, RaceRow)) -> Pair {
    let plain = Pair {
        first: race.0.first,
        second: race.0.second,
    };
    let Some(accesses) = race.1.accesses else {
        return plain;
    };
    let Some(other) = accesses.other else {
        return plain;
    };
    Pair {
        first: accesses.paused.pc.min(other.pc),
        second: Some(accesses.paused.pc.max(other.pc)),
    }
}

/// Adds both functions.
fn push_functions(
    alloc: Global,
    text: &mut Vec<u8>,
    symbols: &SymbolTable,
    pair: Pair,
) -> Result<(), NoMemory> {
    text.extend_from_slice(&function_text(alloc, symbols, pair.first)?)?;
    if let Some(second) = pair.second {
        text.extend_from_slice(b" and ")?;
        text.extend_from_slice(&function_text(alloc, symbols, second)?)?;
    }
    Ok(())
}

/// The line of a race, as `met: put and take on rings+0x8, kept (run 12)`.
fn met_line(
    alloc: Global,
    symbols: &SymbolTable,
    pair: Pair,
    row: &RaceRow,
) -> Result<Vec<u8>, NoMemory> {
    let mut text = Vec::new(alloc);
    text.extend_from_slice(b"met: ")?;
    push_functions(alloc, &mut text, symbols, pair)?;
    if let Some(address) = row.address {
        text.extend_from_slice(b" on ")?;
        text.extend_from_slice(&variable_text(alloc, symbols, address)?)?;
    }
    text.extend_from_slice(b", ")?;
    text.extend_from_slice(class_word(row.class))?;
    text.extend_from_slice(b" (run ")?;
    text.extend_from_slice(Decimal::new(u64::from(row.run)).as_bytes())?;
    text.extend_from_slice(b")")?;
    Ok(text)
}

/// How many rows of the table were looked at, and the races that were told.
#[derive(Drop)]
pub(crate) struct Meetings {
    seen: usize,
    told: Vec<Pair>,
    is_over: bool,
}

impl Meetings {
    pub(crate) fn none(alloc: Global) -> Meetings {
        Meetings {
            seen: 0,
            told: Vec::new(alloc),
            is_over: false,
        }
    }

    /// Has a watch tell the races that the last run was the first to report: none of class named, none that is ignored, and each pair of
    /// instructions once.
    pub(crate) fn tell<W: Watch>(
        &mut self,
        alloc: Global,
        symbols: &SymbolTable,
        ignored: &Ignores,
        hunted: &Hunted,
        watch: &mut W,
    ) -> Result<(), NoMemory> {
        let first = self.seen;
        self.seen = hunted.table.len();
        if self.is_over || first >= self.seen {
            return Ok(());
        }
        let rows = hunted.table.rows_from(alloc, first)?;
        let parted = part_rows(alloc, symbols, ignored, &rows)?;
        for race in &parted.told {
            self.tell_race(alloc, symbols, race, watch)?;
        }
        Ok(())
    }

    fn tell_race<W: Watch>(
        &mut self,
        alloc: Global,
        symbols: &SymbolTable,
        race: &(Key, RaceRow),
        watch: &mut W,
    ) -> Result<(), NoMemory> {
        let pair = pair_of(race);
        let is_named = rank(race.1.class) >= rank(RaceClass::Named);
        if self.is_over || is_named || self.told.contains(&pair) {
            return Ok(());
        }
        if self.told.len() >= MOST_TOLD {
            self.is_over = true;
            watch.met(MORE);
            return Ok(());
        }
        self.told.push(pair)?;
        watch.met(&met_line(alloc, symbols, pair, &race.1)?);
        Ok(())
    }
}
