//! What a hunt has found so far, which its watch keeps while it goes on, so that a hunt that is killed loses little.
//!
//! The schedule of a race is kept when it is first reported, and anew when its class rises: of as many races as are shown in full, by their
//! classes and then by their runs. At each tenth of what was asked for the page, the list, the table and the object are kept anew. What wants
//! memory for that and gets none is left out, since the hunt goes on.
ghost use Rattle.std.specs.Prelude.{◌≡◌, ◌≤◌, false, IfOk, OnOk};
ghost use Rattle.rv_search.specs.Hunt.{IsHunt};
ghost use Rattle.rv_search.specs.Hunted as spec;

use crate::engine::lists::Lists;
use crate::engine::making::shown_of;
use crate::engine::meetings::Meetings;
use crate::engine::table_text::{heading_of, stretch_of, table_of};
use indexmap::IndexMap;
use rv_campaign::PoolFault;
use rv_explain::block::RaceClass;
use rv_explain::classes::rank;
use rv_explain::symbol_table::SymbolTable;
use rv_faults::source_lines::lines_miss;
use rv_memory::store::NoMemory;
use rv_object::object::{Beside, object_text};
use rv_page::page::page_text;
use rv_remade::early::{PartText, parts_of, texts_of};
use rv_report::key::Key;
use rv_search::done::Done;
use rv_search::hunt::{Along, Draft, Hunt, Watch};
use rv_search::hunted::Hunted;
use rv_search::noted::Noted;
use rv_shown::code_seen::{CodeSeen, code_seen};
use rv_shown::options::{HuntOptions, MOST_WORKERS};
use rv_shown::outcome::Outcome;
use rv_shown::saying::order::told_rows;
use rv_shown::shown::StuckEnds;
use rv_tables::merge::known::{gone, new_races};
use rv_tables::merge::listing::list_of;
use rv_tables::merge::parted::{Parted, part_rows};
use rv_tables::row::RaceRow;
use std::alloc::Global;
use std::sync::Wait;
use std::thread::Threads;

/// How often texts are kept.
const TIMES: u64 = 10;

/// What the texts of a hunt are made with.
#[derive(Clone, Copy)]
pub(crate) struct Given<'a, 'o, 'l, 's> {
    pub(crate) options: &'a HuntOptions<'o, 'l>,
    pub(crate) lists: &'a Lists,
    pub(crate) digits: &'a [u8],
    pub(crate) digest: &'a str,
    pub(crate) symbols: &'a SymbolTable<'s>,
}

/// What the page and the object are made of, beside what the hunt saw. Stuck ends are counted alone: no run is made again for them.
#[derive(Drop)]
struct SoFar {
    code: CodeSeen,
    races: Vec<(Key, RaceRow)>,
    told: Vec<(Key, RaceRow)>,
    unexpected: Vec<(Key, RaceRow)>,
    stuck: StuckEnds,
    gone: Option<u64>,
}

impl Given<'_, '_, '_, '_> {
    /// The rows of what a hunt saw: those that are told, and those that are ignored.
    fn parted(&self, alloc: Global, hunted: &Hunted) -> Result<Parted, NoMemory> {
        let rows = hunted.table.rows(alloc)?;
        part_rows(alloc, self.symbols, &self.lists.ignored, &rows)
    }

    /// The table.
    fn table(
        &self,
        alloc: Global,
        hunt: &Hunt,
        hunted: &Hunted,
        rows: &[(Key, RaceRow)],
    ) -> Result<Vec<u8>, NoMemory> {
        let heading = heading_of(hunt, &self.options.line, self.digits);
        table_of(alloc, rows, &heading, stretch_of(hunt, hunted))
    }

    fn so_far(
        &self,
        alloc: Global,
        hunt: &Hunt,
        hunted: &Hunted,
        noted: &Noted,
        parted: &Parted,
    ) -> Result<SoFar, NoMemory> {
        let races = shown_of(alloc, hunted, &parted.told)?;
        let expected = &self.lists.expected;
        Ok(SoFar {
            code: code_seen(alloc, self.symbols, hunt.code, &noted.words)?,
            told: told_rows(alloc, self.symbols, &hunted.orders, &races)?,
            races,
            unexpected: new_races(alloc, self.symbols, expected, &parted.told)?,
            stuck: StuckEnds {
                count: noted.stuck.len(),
                shown: Vec::new(alloc),
            },
            gone: gone(alloc, self.symbols.image(), &self.lists.source, expected)?,
        })
    }

    fn outcome<'a>(
        &self,
        hunt: &Hunt,
        hunted: &'a Hunted,
        noted: &'a Noted,
        parted: &'a Parted,
        so_far: &'a SoFar,
    ) -> Outcome<'a> {
        Outcome {
            sites: hunt.sampler.len() as u64,
            mix: hunt.plans.mix(),
            saw: hunted,
            code: &so_far.code,
            ends: &noted.ends,
            stuck: &so_far.stuck,
            rows: &parted.told,
            races: &so_far.races,
            ignored: &parted.ignored,
            new: &so_far.unexpected,
            gone: so_far.gone,
            misses: lines_miss(self.symbols.image(), &self.lists.source),
            built: self.lists.built,
        }
    }

    /// The page, which has a line of each race.
    fn page(
        &self,
        alloc: Global,
        outcome: &Outcome,
        told: &[(Key, RaceRow)],
    ) -> Result<Vec<u8>, NoMemory> {
        let line = &self.options.line;
        page_text(alloc, line, self.symbols, outcome, told, &[], &[])
    }

    /// The object, which has each race by its line alone.
    fn object(
        &self,
        alloc: Global,
        outcome: &Outcome,
        told: &[(Key, RaceRow)],
    ) -> Result<Vec<u8>, NoMemory> {
        let beside = Beside {
            command: "hunt",
            options: self.options,
            first: u64::from(self.options.first),
            digest: self.digest,
            status: None,
        };
        object_text(alloc, self.symbols, outcome, &beside, told, &[], &[])
    }
}

/// How many rows a table has, and their classes together: it is another one where a race was added, or the class of one has risen.
#[derive(Clone, Copy, PartialEq, Eq)]
struct Standing {
    rows: usize,
    ranks: u64,
}

fn standing_of(rows: &[(Key, RaceRow)]) -> Standing {
    let mut ranks = 0u64;
    for (_, row) in rows {
        ranks = ranks.saturating_add(u64::from(rank(row.class)));
    }
    Standing {
        rows: rows.len(),
        ranks,
    }
}

/// Has a watch tell and keep what a hunt has found.
#[derive(Drop)]
struct Keeping<'a, 'o, 'l, 's, W> {
    alloc: Global,
    watch: &'a mut W,
    meetings: Meetings,
    given: Given<'a, 'o, 'l, 's>,
    /// As what class a race's schedule was kept last.
    kept: IndexMap<Key, u8>,
    /// How the table stood then.
    stood: Standing,
    tenths: u64,
}

impl<W: Watch> Keeping<'_, '_, '_, '_, W> {
    /// Whether the schedule of a race is to be kept: it was not yet, or the race's class has risen.
    fn is_due(&self, race: &(Key, RaceRow)) -> bool {
        match self.kept.get(&race.0) {
            Some(before) => rank(race.1.class) < *before,
            None => true,
        }
    }

    /// The races whose schedules are to be kept, by the rows of the table: of the first of those that are told, as many as are shown in
    /// full, the ones that are due. They are in the order of their runs and parts.
    fn due(&self, alloc: Global, rows: &[(Key, RaceRow)]) -> Result<Vec<(Key, RaceRow)>, NoMemory> {
        let given = self.given;
        let parted = part_rows(alloc, given.symbols, &given.lists.ignored, rows)?;
        let mut told = parted.told;
        told.sort_unstable_by_key(|(_, row)| (rank(row.class), row.run, row.part));
        let mut due = Vec::new(alloc);
        for race in told.iter().take(given.options.blocks as usize) {
            if rank(race.1.class) < rank(RaceClass::Named) && self.is_due(race) {
                due.push(*race)?;
            }
        }
        due.sort_unstable_by_key(|(_, row)| (row.run, row.part));
        Ok(due)
    }

    /// Notes that the schedules of these races are kept.
    fn note(&mut self, races: &[(Key, RaceRow)]) -> Result<(), NoMemory> {
        for (key, row) in races {
            self.kept.insert(*key, rank(row.class))?;
        }
        Ok(())
    }

    /// Keeps the schedules of races, which are in the order of their runs and parts.
    fn keep_races<R: Threads + Wait>(
        &mut self,
        rt: &R,
        alloc: Global,
        hunt: &Hunt,
        races: &[(Key, RaceRow)],
    ) -> Result<(), PoolFault> {
        let workers = self.given.options.workers.min(MOST_WORKERS).max(1);
        for parts in parts_of(alloc, races)?.chunks(usize::from(workers)) {
            let texts = texts_of(rt, alloc, hunt, races, parts, workers)?;
            for text in &texts {
                self.keep_texts(races, text);
            }
        }
        Ok(())
    }

    /// Keeps the schedules of parts of a run for the races that are told by them.
    fn keep_texts(&mut self, races: &[(Key, RaceRow)], texts: &[PartText]) {
        for text in texts {
            for (key, row) in races {
                if text.tells_of(row) {
                    self.watch.keep_schedule(key, &text.schedule);
                }
            }
        }
    }

    /// Keeps the schedules of the races that are due, where the table is another one than before.
    fn keep_schedules<R: Threads + Wait>(
        &mut self,
        rt: &R,
        alloc: Global,
        hunt: &Hunt,
        hunted: &Hunted,
    ) -> Result<(), PoolFault> {
        let rows = hunted.table.rows(alloc)?;
        let stands = standing_of(&rows);
        if stands == self.stood {
            return Ok(());
        }
        let due = self.due(alloc, &rows)?;
        self.keep_races(rt, alloc, hunt, &due)?;
        self.note(&due)?;
        self.stood = stands;
        Ok(())
    }

    /// Whether texts are to be kept again.
    fn is_time(&mut self, hunt: &Hunt, hunted: &Hunted) -> bool {
        let before = self.tenths;
        self.tenths = Done::of(hunt.limit, hunted).parts(TIMES);
        before < self.tenths
    }

    /// Keeps those texts that are wanted.
    fn keep_drafts(
        &mut self,
        alloc: Global,
        hunt: &Hunt,
        hunted: &Hunted,
        noted: &Noted,
    ) -> Result<(), NoMemory> {
        let given = self.given;
        let parted = given.parted(alloc, hunted)?;
        if self.watch.keeps(Draft::List) {
            let text = list_of(alloc, given.symbols, &parted.told)?;
            self.watch.keep(Draft::List, &text);
        }
        if self.watch.keeps(Draft::Table) {
            let text = given.table(alloc, hunt, hunted, &parted.told)?;
            self.watch.keep(Draft::Table, &text);
        }
        if self.keeps_whole() {
            let so_far = given.so_far(alloc, hunt, hunted, noted, &parted)?;
            let outcome = given.outcome(hunt, hunted, noted, &parted, &so_far);
            self.keep_whole(alloc, &outcome, &so_far.told)?;
        }
        Ok(())
    }

    /// Keeps those that have all that was found.
    fn keep_whole(
        &mut self,
        alloc: Global,
        outcome: &Outcome,
        told: &[(Key, RaceRow)],
    ) -> Result<(), NoMemory> {
        let given = self.given;
        if self.watch.keeps(Draft::Page) {
            let text = given.page(alloc, outcome, told)?;
            self.watch.keep(Draft::Page, &text);
        }
        if self.watch.keeps(Draft::Object) {
            let text = given.object(alloc, outcome, told)?;
            self.watch.keep(Draft::Object, &text);
        }
        Ok(())
    }

    /// Whether a text that has all is wanted.
    fn keeps_whole(&self) -> bool {
        let watch = &*self.watch;
        watch.keeps(Draft::Page) || watch.keeps(Draft::Object)
    }

    /// Whether any text is wanted.
    fn keeps_any(&self) -> bool {
        let watch = &*self.watch;
        watch.keeps(Draft::List) || watch.keeps(Draft::Table) || self.keeps_whole()
    }

    /// The table of the whole hunt goes to the watch, where it takes one.
    fn end(&mut self, alloc: Global, hunt: &Hunt, hunted: &Hunted) -> Result<(), NoMemory> {
        if self.watch.takes_table() {
            let given = self.given;
            let parted = given.parted(alloc, hunted)?;
            let text = given.table(alloc, hunt, hunted, &parted.told)?;
            self.watch.take_table(&text);
        }
        Ok(())
    }
}

impl<W: Watch> Along for Keeping<'_, '_, '_, '_, W> {
    fn saw(&mut self, hunted: &Hunted) {
        if self.watch.tells_meetings() {
            let given = self.given;
            let ignored = &given.lists.ignored;
            // What gets no memory isn't told.
            let _ = self
                .meetings
                .tell(self.alloc, given.symbols, ignored, hunted, self.watch);
        }
        self.watch.saw(hunted);
    }

    fn added<R: Threads + Wait>(
        &mut self,
        rt: &R,
        alloc: Global,
        hunt: &Hunt,
        hunted: &Hunted,
        noted: &Noted,
    ) {
        // What gets no memory is kept the next time, or at the end.
        if self.watch.keeps_schedules() {
            let _ = self.keep_schedules(rt, alloc, hunt, hunted);
        }
        if self.is_time(hunt, hunted) && self.keeps_any() {
            let _ = self.keep_drafts(alloc, hunt, hunted, noted);
        }
    }
}

/// What the runs of a hunt see, as `Hunt::hunted` has it. The watch keeps what was found so far, and takes the table at the end.
pub(crate) fn hunted<R: Threads + Wait, W: Watch>(
    rt: &R,
    alloc: Global,
    hunt: &Hunt,
    given: Given<'_, '_, '_, '_>,
    noted: &mut Noted,
    watch: &mut W,
) -> Result<Hunted, PoolFault>
    requires hunt { IsHunt hunt.now }
    requires workers { given.options.now.workers ≤ 16 }
    requires none { noted.old.ends.is_wrong ≡ false }
    ensures hunted { IfOk result (λ hunted. spec.IsNoted hunt.now hunted noted.new.ends) }
    ensures right { OnOk result (noted.new.ends.right ≡ noted.old.ends.right) }
{
    watch.begins()?;
    let mut keeping = Keeping {
        alloc,
        watch,
        meetings: Meetings::none(alloc),
        given,
        kept: IndexMap::new(alloc),
        stood: standing_of(&[]),
        tenths: 0,
    };
    let workers = given.options.workers;
    let hunted = hunt.hunted(rt, alloc, workers, noted, &mut keeping)?;
    match keeping.end(alloc, hunt, &hunted) {
        Ok(()) => Ok(hunted),
        Err(NoMemory) => Err(PoolFault::NoMemory),
    }
}
