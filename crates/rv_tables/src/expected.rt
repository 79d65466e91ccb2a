//! Which races a hunt counts.
ghost use Rattle.std.specs.Prelude.{◌≡◌, IfOk, filter};
ghost use Rattle.rv_tables.specs.Expected as spec;
ghost use Rattle.rv_tables.specs.merge.Merge as merge;

use crate::row::RaceRow;
use crate::table::HuntTable;
use rv_memory::store::NoMemory;
use rv_races::classes::RaceClass;
use rv_report::key::Key;
use std::alloc::Global;

/// Whether a race of the class may be a bug: it is kept, or a counter. What the rule takes for a statistics counter may
/// be a lost update.
pub fn may_be_bug(class: RaceClass) -> bool
    ensures { result ≡ spec.may_be_bug class }
{
    match class {
        RaceClass::Kept | RaceClass::Counter => true,
        RaceClass::Unwatched
        | RaceClass::Flag
        | RaceClass::Ordered
        | RaceClass::Atomic
        | RaceClass::Named => false,
    }
}

/// Whether a race of the class is likely benign: it is a flag, ordered, or of an atomic.
pub fn is_likely_benign(class: RaceClass) -> bool
    ensures { result ≡ spec.is_likely_benign class }
{
    match class {
        RaceClass::Flag | RaceClass::Ordered | RaceClass::Atomic => true,
        RaceClass::Kept | RaceClass::Counter | RaceClass::Unwatched | RaceClass::Named => false,
    }
}

/// Whether no data breakpoint watched what a race of the class found, which counts as neither.
pub fn is_unwatched(class: RaceClass) -> bool
    ensures { result ≡ spec.is_unwatched class }
{
    matches!(class, RaceClass::Unwatched)
}

/// Whether the race of a row may be a bug and has no row among those that are expected.
fn is_new(known: &HuntTable, row: &(Key, RaceRow)) -> bool
    ensures { result ≡ spec.is_unexpected known.now row.now }
{
    may_be_bug(row.1.class) && !known.has(&row.0)
}

/// Those of the rows whose races may be bugs and have no row among those that are expected.
pub(crate) fn new_in(
    alloc: Global,
    known: &HuntTable,
    rows: &[(Key, RaceRow)],
) -> Result<Vec<(Key, RaceRow)>, NoMemory>
    ensures { IfOk result (λ found. found.items ≡ filter (spec.is_unexpected known.now) rows.now) }
{
    let those = rows.iter().copied();
    Ok(those.filter(|row| is_new(known, row)).collect(alloc)?)
}

/// The same, where some are expected.
pub(crate) fn new_of(
    alloc: Global,
    known: &Option<HuntTable>,
    rows: &[(Key, RaceRow)],
) -> Result<Vec<(Key, RaceRow)>, NoMemory>
    ensures { IfOk result (λ found. found.items ≡ merge.unexpected_in known.now rows.now) }
{
    match known {
        Some(table) => new_in(alloc, table, rows),
        None => Ok(Vec::new(alloc)),
    }
}
