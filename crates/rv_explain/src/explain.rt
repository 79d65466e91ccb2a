//! The blocks that are shown of a run, as `specs/Explained.antt` has them.
ghost use Rattle.std.specs.Prelude.{◌≡◌, IfOk, map, option_map};
ghost use Rattle.rv_debug.specs.Placed.{moved};
ghost use Rattle.rv_explain.specs.BlockOf.{race_shown};
ghost use Rattle.rv_explain.specs.Blocks.{shown_of};
ghost use Rattle.rv_explain.specs.Explained as spec;
ghost use Rattle.rv_races.specs.Races.{AreTold, run_of};

use crate::block::Block;
use crate::race_block::{numbered_block, race_block};
use rv_debug::session::Session;
use rv_memory::store::NoMemory;
use rv_races::races::{Race, RunRaces};
use rv_symbols::symbol_table::SymbolTable;
use std::alloc::Global;

/// The blocks of the races of a session's run, with so many entries around each place, or that of race K alone, from 1 on;
/// None where there is no race K. The session is then at some place.
pub fn blocks_asked(
    alloc: Global,
    session: &mut Session,
    symbols: &SymbolTable,
    found: &RunRaces,
    around: u32,
    asked: Option<u64>,
) -> Result<Option<Vec<Block>>, NoMemory>
    requires image { session.old.image ≡ symbols.now.image }
    requires told { AreTold (run_of session.old) found.now.races.items }
    ensures blocks { IfOk result (λ blocks. option_map (λ some. map shown_of some.items) blocks
        ≡ spec.blocks_asked (run_of session.old) around found.now.races.items asked) }
    ensures same { session.new ≡ moved session.old session.new.place }
{
    let Some(k) = asked else {
        return Ok(Some(all_blocks(alloc, session, symbols, &found.races, around)?));
    };
    match numbered_block(alloc, session, symbols, found, around, k)? {
        Some(block) => Ok(Some(vec![in alloc; block]?)),
        None => Ok(None),
    }
}

/// The block of each race.
fn all_blocks(
    alloc: Global,
    session: &mut Session,
    symbols: &SymbolTable,
    races: &[Race],
    around: u32,
) -> Result<Vec<Block>, NoMemory>
    requires image { session.old.image ≡ symbols.now.image }
    requires told { AreTold (run_of session.old) races.now }
    ensures blocks { IfOk result (λ blocks. map shown_of blocks.items ≡ map (race_shown (run_of session.old) around) races.now) }
    ensures same { session.new ≡ moved session.old session.new.place }
{
    let mut blocks = Vec::new(alloc);
    for place in 0..races.len() {
        blocks.push(race_block(alloc, session, symbols, around, &races[place])?)?;
    }
    Ok(blocks)
}
