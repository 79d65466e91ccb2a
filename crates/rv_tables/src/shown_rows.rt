//! The races of a hunt as they are shown: a changed report is shown with the race of the pair that its block names.
ghost use Rattle.std.specs.Prelude.{◌≡◌, ◌++◌, IfOk, OnOk, map, filter, filter_map};
ghost use Rattle.std.specs.List.{fold, list_any};
ghost use Rattle.std.specs.Option.{option_to_list};
ghost use Rattle.rv_tables.specs.Rows.{has_race};
ghost use Rattle.rv_tables.specs.ShownRows as spec;

use crate::changed::ChangedKey;
use crate::row::RaceRow;
use rv_memory::store::NoMemory;
use rv_races::classes::rank;
use rv_report::key::Key;
use std::alloc::Global;

/// A row of changed reports that are not ignored: their own race, and the one with which they are shown.
#[derive(Clone, Copy)]
pub struct Placed {
    pub own: Key,
    pub race: Key,
    pub row: RaceRow,
}

/// Whether a race has a row.
fn has(rows: &[(Key, RaceRow)], key: &Key) -> bool
    ensures { result ≡ has_race key.now rows.now }
{
    rows.iter().any(|row| *key == row.0)
}

/// Whether the pair of changed reports has a race that is told.
fn has_pair(told: &[(Key, RaceRow)], key: &ChangedKey) -> bool
    ensures { result ≡ spec.has_pair told.now key.now }
{
    key.pair.second.is_some() && has(told, &key.pair)
}

/// Where changed reports are shown.
fn place(told: &[(Key, RaceRow)], changed: &(ChangedKey, RaceRow)) -> Placed
    ensures { result ≡ spec.place told.now changed.now }
{
    let (key, row) = changed;
    let race = if has_pair(told, key) {
        key.pair
    } else {
        key.own
    };
    Placed {
        own: key.own,
        race,
        row: *row,
    }
}

/// Those of the changed reports that are not ignored, each with the race that it is shown with.
fn placed_rows(
    alloc: Global,
    told: &[(Key, RaceRow)],
    changed: &[(ChangedKey, RaceRow)],
) -> Result<Vec<Placed>, NoMemory>
    ensures { IfOk result (λ placed. placed.items ≡ spec.placed told.now changed.now) }
{
    let those = changed.iter().filter(|row| has(told, &row.0.own));
    Ok(those.map(|row| place(told, row)).collect(alloc)?)
}

/// Those that are shown with a race.
fn with_race(alloc: Global, key: &Key, placed: &[Placed]) -> Result<Vec<Placed>, NoMemory>
    ensures { IfOk result (λ found. found.items ≡ spec.with_race key.now placed.now) }
{
    let those = placed.iter().copied();
    Ok(those.filter(|one| one.race == *key).collect(alloc)?)
}

/// Whether a race's own reports are shown with another.
fn moves(key: &Key, one: &Placed) -> bool
    ensures { result ≡ spec.moves key.now one.now }
{
    one.own == *key && one.race != *key
}

/// Whether some reports of a race are shown with that of their pair.
fn has_moved(key: &Key, placed: &[Placed]) -> bool
    ensures { result ≡ spec.has_moved key.now placed.now }
{
    placed.iter().any(|one| moves(key, one))
}

/// A row whose count is raised by those of changed reports. It stays at 2^64 - 1 once there.
#[tactic(auto, using(std::proofs::lemmas::List::Sums::fold_more))]
fn raised(row: &RaceRow, more: &[Placed]) -> RaceRow
    ensures { result ≡ spec.raised row.now more.now }
{
    let mut count = row.count;
    for one in more {
        count = count.saturating_add(one.row.count);
    }
    RaceRow { count, ..*row }
}

/// Whether a row tells of a stronger class, or of the same in an earlier run, or in an earlier part of that.
fn comes_before(one: &RaceRow, other: &RaceRow) -> bool
    ensures { result ≡ spec.comes_before one.now other.now }
{
    let (first, second) = (rank(one.class), rank(other.class));
    let is_earlier = one.run < other.run || one.run == other.run && one.part < other.part;
    first < second || first == second && is_earlier
}

/// Two rows of a race made one.
fn joined_first(first: &RaceRow, later: &Placed) -> RaceRow
    ensures { result ≡ spec.joined_first first.now later.now }
{
    let told = if comes_before(&later.row, first) {
        &later.row
    } else {
        first
    };
    RaceRow {
        count: first.count.saturating_add(later.row.count),
        ..*told
    }
}

/// One row of a row and later ones.
#[tactic(auto, using(std::proofs::lemmas::List::Sums::fold_more))]
fn joined_all(first: &RaceRow, later: &[Placed]) -> RaceRow
    ensures { result ≡ fold spec.joined_first first.now later.now }
{
    let mut row = *first;
    for one in later {
        row = joined_first(&row, one);
    }
    row
}

/// What is left of a race of one instruction.
fn left(rows: &[Placed]) -> Option<RaceRow>
    ensures { result ≡ spec.left rows.now }
{
    match rows {
        [] => None,
        [first, later @ ..] => Some(joined_all(&first.row, later)),
    }
}

/// How a race that is told is shown, if it is.
fn shown_row(
    alloc: Global,
    placed: &[Placed],
    row: &(Key, RaceRow),
) -> Result<Option<(Key, RaceRow)>, NoMemory>
    ensures { IfOk result (λ shown. shown ≡ spec.shown_row placed.now row.now) }
{
    let (key, own) = row;
    let is_of_two = key.second.is_some();
    if !is_of_two && !has_moved(key, placed) {
        return Ok(Some(*row));
    }
    let those = with_race(alloc, key, placed)?;
    if is_of_two {
        return Ok(Some((*key, raised(own, &those))));
    }
    Ok(left(&those).map(|one| (*key, one)))
}

/// Adds a row, where there is one.
fn push_if(rows: &mut Vec<(Key, RaceRow)>, row: Option<(Key, RaceRow)>) -> Result<(), NoMemory>
    ensures { OnOk result (rows.new.items ≡ rows.old.items ++ option_to_list row) }
{
    if let Some(row) = row {
        rows.push(row)?;
    }
    Ok(())
}

/// The races as they are shown, of the rows that are told and the rows of changed reports.
pub fn shown_rows(
    alloc: Global,
    told: &[(Key, RaceRow)],
    changed: &[(ChangedKey, RaceRow)],
) -> Result<Vec<(Key, RaceRow)>, NoMemory>
    ensures { IfOk result (λ shown. shown.items ≡ spec.shown_rows told.now changed.now) }
{
    let placed = placed_rows(alloc, told, changed)?;
    let mut shown = Vec::new(alloc);
    for row in told {
        let one = shown_row(alloc, &placed, row)?;
        push_if(&mut shown, one)?;
    }
    Ok(shown)
}
