//! What the runs of a hunt saw.
ghost use Rattle.std.specs.Prelude.{◌≡◌, OnOk, map, [], length};
ghost use Rattle.std.specs.List.{fold};
ghost use Rattle.rv_tables.specs.Changed as changed;
ghost use Rattle.rv_search.specs.Hunted as spec;
ghost use Rattle.rv_tables.specs.Near as near;
ghost use Rattle.rv_tables.specs.Orders as orders;
ghost use Rattle.rv_tables.specs.Rows as rows;
ghost use Rattle.rv_search.specs.internal.Lots as internal;

use crate::kept_run::KeptRun;
use crate::tally::Tally;
use rv_memory::store::NoMemory;
use rv_tables::changed::ChangedTable;
use rv_tables::near::NearTable;
use rv_tables::orders::OrderTable;
use rv_tables::row::{PartReport, row_of};
use rv_tables::table::HuntTable;
use std::alloc::Global;

/// What runs saw: the sums over all of them, a row for each race, rows of the changed reports by their pairs, the near pairs of their walks, and the trials of orders. A row's run is the one that made
/// the report that the race is told by, and its entry the place of that report's pause.
#[derive(Drop)]
pub struct Hunted {
    pub tally: Tally,
    pub table: HuntTable,
    pub changed: ChangedTable,
    pub near: NearTable,
    pub orders: OrderTable,
}

/// Adds a row for each report of a run.
fn add_reports(table: &mut HuntTable, run: u32, reports: &[PartReport]) -> Result<(), NoMemory>
    ensures { OnOk result (table.new ≡ fold rows.added table.old (map (rows.row_of run) reports.now)) }
{
    for report in reports {
        let (key, row) = row_of(run, report);
        table.add(key, row)?;
    }
    Ok(())
}

impl Hunted {
    /// What no run has seen.
    #[tactic(auto, unfolding(crate::specs::Tally::tally_of, rv_tables::specs::Changed::changed_of, rv_tables::specs::Near::near_of, rv_tables::specs::Orders::orders_of))]
    pub(crate) fn new(alloc: Global) -> Hunted
        ensures { result ≡ record { tally = spec.summed []; table = []; changed = changed.changed_of []; near = near.near_of []; orders = orders.orders_of [] } }
    {
        Hunted {
            tally: Tally::new(alloc),
            table: HuntTable::new(alloc),
            changed: ChangedTable::new(alloc),
            near: NearTable::new(alloc),
            orders: OrderTable::new(alloc),
        }
    }

    /// Adds what the run of that number saw. After a refusal of growth it is of no further use.
    #[tactic(auto, unfolding(crate::specs::internal::Lots::with_run))]
    pub(crate) fn add(&mut self, run: u32, kept: &KeptRun) -> Result<(), NoMemory>
        ensures { OnOk result (self.new ≡ internal.with_run self.old run kept.now) }
    {
        self.tally.add(&kept.summary)?;
        add_reports(&mut self.table, run, &kept.reports)?;
        self.changed.add_all(run, &kept.reports)?;
        self.near.add_all(&kept.near)?;
        self.orders.add_all(run, &kept.tried)
    }
}
