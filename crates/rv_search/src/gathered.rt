//! What the probes of a walk come to, added up while they are made.
ghost use Rattle.std.specs.Prelude.{◌≡◌, ◌∷◌, ◌++◌, [], All, List, OnOk, IfOk, map};
ghost use Rattle.rv_explain.specs.Judged.{judged};
ghost use Rattle.rv_hart.specs.State.{State};
ghost use Rattle.rv_search.specs.Hunt.{Hunt as Asked};
ghost use Rattle.rv_search.specs.KeptRun as spec;
ghost use Rattle.rv_tables.specs.Near as near;
ghost use Rattle.rv_search.specs.internal.Gathered as internal;
ghost use Rattle.rv_walk.specs.declared.near_pair.NearPair.{NearPair as Pair};
ghost use Rattle.rv_walk.specs.declared.probes.Part.{Part as Made};

use crate::hunt::Hunt;
use crate::kept_run::reports_in_part;
use crate::run_walk::RunWalk;
use crate::stuck::{StuckSeen, is_reported};
use crate::summary::counts_of;
use crate::tally::counts::{Counts, sum};
use crate::trials::Trials;
use rv_explain::races::Judged;
use rv_memory::paged::Paged;
use rv_memory::store::NoMemory;
use rv_stuck::acts_of;
use rv_tables::near::{NearRow, probed_pair, seen_pair};
use rv_tables::row::PartReport;
use rv_walk::near_pair::{Addresses, NearPair};
use rv_walk::probes::{Part, Probes};
use std::alloc::Global;

/// The numbers of a walk and of its parts so far, how many these are, their reports, the near pairs, the stuck ends that are
/// reported, and the trials of orders.
#[derive(Drop)]
pub(crate) struct Gathered {
    pub(crate) counts: Counts,
    pub(crate) parts: u32,
    pub(crate) reports: Vec<PartReport>,
    pub(crate) near: Vec<(Addresses, NearRow)>,
    pub(crate) stuck: Vec<StuckSeen>,
    pub(crate) trials: Trials,
}

/// Adds what stands in a list to another.
fn append_reports(reports: &mut Vec<PartReport>, mut more: Vec<PartReport>) -> Result<(), NoMemory>
    ensures { OnOk result (reports.new.items ≡ reports.old.items ++ more.items) }
{
    reports.append(&mut more)?;
    Ok(())
}

/// The near pairs that a walk saw.
fn seen_pairs(alloc: Global, pairs: &[NearPair]) -> Result<Vec<(Addresses, NearRow)>, NoMemory>
    ensures { IfOk result (λ rows. rows.items ≡ map near.seen_pair pairs.now) }
{
    Ok(pairs.iter().map(seen_pair).collect(alloc)?)
}

/// Adds the stuck end of the part of that number, where it is one that is reported.
fn push_stuck(
    alloc: Global,
    stuck: &mut Vec<StuckSeen>,
    hunt: &Hunt<'_>,
    number: u32,
    part: &Part,
) -> Result<(), NoMemory> {
    let Some(end) = &part.stuck else {
        return Ok(());
    };
    let acts = acts_of(alloc, end)?;
    if is_reported(&acts, hunt.idle) {
        let own = counts_of(&part.probed.finished.entries, &[]).steps;
        stuck.push(StuckSeen {
            acts,
            part: number,
            steps: own.saturating_add(u64::from(part.place)),
        })?;
    }
    Ok(())
}

impl Gathered {
    /// Of a walk before its first probe.
    pub(crate) fn of(alloc: Global, walk: &RunWalk, trials: Trials) -> Result<Gathered, NoMemory>
        requires { trials.tried.items ≡ [] }
        ensures { IfOk result (λ gathered. (hunt : Asked) →
            (start : State) → internal.IsGathered hunt (record { start = start; harts = walk.now.left.harts.items })
            walk.now.left.pairs.items [] gathered) }
    {
        let near = seen_pairs(alloc, &walk.left.pairs)?;
        let counts = Counts {
            steps: walk.left.harts.len() as u64,
            ..Counts::none()
        };
        Ok(Gathered {
            counts,
            parts: 0,
            reports: Vec::new(alloc),
            near,
            stuck: Vec::new(alloc),
            trials,
        })
    }

    /// Adds what the next part comes to, whose endings come with what they are judged by.
    pub(crate) fn add(
        &mut self,
        alloc: Global,
        hunt: &Hunt<'_>,
        part: &Part,
        endings: &[Judged],
    ) -> Result<(), NoMemory>
        ensures { OnOk result ((gone : spec.Gone) (pairs : List Pair) (parts : List Made) →
            endings.now ≡ map (judged (spec.run_of_part hunt.now gone part.now)) part.now.probed.finished.endings.items
            → internal.IsGathered hunt.now gone pairs parts self.old
            → internal.IsGathered hunt.now gone pairs (parts ++ part.now ∷ []) self.new) }
    {
        // A walk has far fewer probes than 2^32.
        let Some(number) = self.parts.checked_add(1) else {
            return Err(NoMemory);
        };
        let finished = &part.probed.finished;
        let reports = reports_in_part(alloc, hunt, number, part.place, endings)?;
        append_reports(&mut self.reports, reports)?;
        self.near.push(probed_pair(part))?;
        self.parts = number;
        push_stuck(alloc, &mut self.stuck, hunt, number, part)?;
        self.counts = sum(self.counts, counts_of(&finished.entries, &finished.endings));
        Ok(())
    }

    /// Tries the orders of the reports of the part that was added last: of those from a place on.
    pub(crate) fn try_from(
        &mut self,
        alloc: Global,
        probes: &mut Probes<'_, Paged>,
        part: &Part,
        first: usize,
    ) -> Result<(), NoMemory>
        ensures probes { probes.new ≡ probes.old }
        ensures same { self.new ≡ record self.old { trials = self.new.trials } }
        ensures tried { OnOk result (All (spec.IsOfSome self.old.reports.items) self.old.trials.tried.items
            → All (spec.IsOfSome self.old.reports.items) self.new.trials.tried.items) }
    {
        for place in first..self.reports.len() {
            let report = self.reports[place];
            self.trials.add(alloc, probes, part, &report)?;
        }
        Ok(())
    }
}
