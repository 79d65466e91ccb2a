//! The block of a race of a run, as `specs/BlockOf.antt` has it.
ghost use Rattle.std.specs.Prelude.{◌≡◌, ◌<◌, IfOk, Some, length, map, option_map, slice_get};
ghost use Rattle.std.specs.Option.{option_copied};
ghost use Rattle.rv_collide.specs.Answers.{pause_of};
ghost use Rattle.rv_collide.specs.Pause.{within};
ghost use Rattle.rv_collide.specs.Verdict.{endings};
ghost use Rattle.rv_debug.specs.Placed.{moved};
ghost use Rattle.rv_explain.specs.BlockOf as spec;
ghost use Rattle.rv_explain.specs.Blocks.{shown_of};
ghost use Rattle.rv_explain.specs.Explained.{race_of};
ghost use Rattle.rv_races.specs.Races.{AreTold, run_of};
ghost use Rattle.rv_report.specs.OfPause.{IsOfPause};

use crate::block::Block;
use crate::lines::{About, lines};
use crate::row::Shown;
use crate::sides::side_at;
use crate::walk::{Walked, walk};
use rv_break::claim::Seen;
use rv_collide::ending::Ending;
use rv_debug::session::Session;
use rv_memory::store::NoMemory;
use rv_races::races::{Race, RunRaces};
use rv_races::second::{own_access, second_of};
use rv_report::exhibiting::endings_are_of_pauses;
use rv_symbols::symbol_table::SymbolTable;
use std::alloc::Global;

/// The places that a block is about.
fn places_about(
    alloc: Global,
    told: &Ending,
    other: &Seen,
    last: Option<Seen>,
) -> Result<Vec<u32>, NoMemory>
    ensures { IfOk result (λ places. places.items ≡ spec.places_about told.now other.now last) }
{
    let mut places = vec![in alloc; told.paused_at, other.place, told.resumed_at]?;
    if let Some(store) = last {
        places.push(store.place)?;
    }
    Ok(places)
}

/// The lines of a block, by what a walk over the pause has found.
fn lines_about(
    alloc: Global,
    session: &mut Session,
    told: &Ending,
    around: u32,
    other: &Seen,
    walked: Walked,
) -> Result<Vec<Shown>, NoMemory>
    requires knows { walked.meets.items ≡ map (spec.meets_at (run_of session.old) told.now) (within (pause_of told.now)) }
    requires starts { told.now.paused_at < told.now.resumed_at }
    requires inside { told.now.resumed_at < length session.old.entries }
    ensures lines { IfOk result (λ lines. lines.items
        ≡ spec.lines (run_of session.old) around told.now (spec.places_about told.now other.now walked.last)) }
    ensures same { session.new ≡ moved session.old session.new.place }
{
    let places = places_about(alloc, told, other, walked.last)?;
    let about = About {
        told: *told,
        places,
        around,
        meets: walked.meets,
    };
    lines(alloc, session, &about)
}

/// The block of a race of a session's run, with so many entries around each place. The session is then at some place.
/// It goes once over the pause, and to each other place from the checkpoint before.
pub fn race_block(
    alloc: Global,
    session: &mut Session,
    symbols: &SymbolTable,
    around: u32,
    race: &Race,
) -> Result<Block, NoMemory>
    requires image { session.old.image ≡ symbols.now.image }
    requires told { slice_get (endings (run_of session.old).start session.old.entries) race.now.told.number ≡ Some race.now.told.ending }
    ensures block { IfOk result (λ block. shown_of block ≡ spec.race_shown (run_of session.old) around race.now) }
    ensures same { session.new ≡ moved session.old session.new.place }
{
    endings_are_of_pauses();
    session.facts();
    block_of(alloc, session, symbols, around, race)
}

/// The block of a race whose report is of a pause.
#[tactic(auto, unfolding(crate::specs::BlockOf::race_shown, crate::specs::BlockOf::second))]
fn block_of(
    alloc: Global,
    session: &mut Session,
    symbols: &SymbolTable,
    around: u32,
    race: &Race,
) -> Result<Block, NoMemory>
    requires image { session.old.image ≡ symbols.now.image }
    requires of_pause { IsOfPause (run_of session.old).start session.old.entries race.now.told.ending }
    ensures block { IfOk result (λ block. shown_of block ≡ spec.race_shown (run_of session.old) around race.now) }
    ensures same { session.new ≡ moved session.old session.new.place }
{
    let told = race.told.ending;
    let paused = side_at(session, symbols, &own_access(&told))?;
    let walked = walk(alloc, session, &told)?;
    let other = second_of(&told, walked.last);
    let second = side_at(session, symbols, &other)?;
    let lines = lines_about(alloc, session, &told, around, &other, walked)?;
    Ok(Block {
        reports: race.reports,
        class: race.told.class,
        number: race.told.number,
        ending: told,
        paused,
        other: second,
        second: other.place,
        lines,
    })
}

/// The race of a number, from 1 on.
pub(crate) fn race_of(found: &RunRaces, k: u64) -> Option<&Race>
    ensures { option_copied result ≡ race_of found.now.races.items k }
{
    let place = k.checked_sub(1)?;
    found.races.get(place as usize)
}

/// The block of race K of a session's run, or None where there is no race K.
pub fn numbered_block(
    alloc: Global,
    session: &mut Session,
    symbols: &SymbolTable,
    found: &RunRaces,
    around: u32,
    k: u64,
) -> Result<Option<Block>, NoMemory>
    requires image { session.old.image ≡ symbols.now.image }
    requires told { AreTold (run_of session.old) found.now.races.items }
    ensures block { IfOk result (λ block. option_map shown_of block
        ≡ option_map (spec.race_shown (run_of session.old) around) (race_of found.now.races.items k)) }
    ensures same { session.new ≡ moved session.old session.new.place }
{
    match race_of(found, k) {
        None => Ok(None),
        Some(race) => Ok(Some(race_block(alloc, session, symbols, around, race)?)),
    }
}
