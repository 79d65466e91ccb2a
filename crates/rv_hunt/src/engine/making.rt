//! The runs of a hunt, and the texts and the files of what they saw.
ghost use Rattle.std.specs.Prelude.{◌≡◌, ◌≤◌, ◌∷◌, ◌||◌, [], IfOk, OnOk, is_err, is_some, length, take, true};
ghost use Rattle.rv_engines.specs.Campaigns.{passes};
ghost use Rattle.rv_search.specs.Hunted.{IsNoted};
ghost use Rattle.rv_shown.specs.Asked.{AreLegal, asked};
ghost use Rattle.rv_remade.specs.FolderFault as looking;
ghost use Rattle.rv_hunt.specs.engine.Hunting as spec;
ghost use Rattle.rv_hunt.specs.engine.Late.{IfListed, IfPaged, IfWritten};
ghost use Rattle.rv_hunt.specs.engine.Outputs.{AreWantedAlike, one_failed};
ghost use Rattle.rv_remade.specs.Saved.{IfSaved};
ghost use Rattle.rv_tables.specs.merge.Ignore.{naming_of};
ghost use Rattle.rv_tables.specs.merge.Listing.{list_text};
ghost use Rattle.rv_search.specs.RightEnds.{right_codes};
ghost use Rattle.rv_hunt.specs.internal.MakeFault.{fails_by_write};
ghost use Rattle.rv_hunt.specs.internal.Opened.{hunt_in, hunting_with, texts_in};
ghost use Rattle.rv_object.specs.HuntObject.{hunt_facts};
ghost use Rattle.rv_page.specs.PageFacts.{page_facts};
ghost use Rattle.rv_tables.specs.ShownRows.{shown_rows};

use crate::engine::fault::MakeFault;
use crate::engine::keeping::{Given, hunted};
use crate::engine::lists::Lists;
use crate::engine::opening::Opened;
use crate::engine::outputs::Outputs;
use crate::engine::survey::surveyed;
use crate::engine::table_text::{heading_of, stretch_of, table_of};
use rv_campaign::PoolFault;
use rv_engines::new_file::NewFile;
use rv_explain::symbol_table::SymbolTable;
use rv_faults::fault::Fault;
use rv_faults::source_lines::lines_miss;
use rv_memory::flagged::WriteFault;
use rv_memory::store::NoMemory;
use rv_object::object::{Beside, object_text};
use rv_page::page::page_text;
use rv_remade::beside::save_ends;
use rv_remade::folder::{Folder, FolderFault};
use rv_remade::orders::shown_orders;
use rv_remade::shown::InFull;
use rv_remade::stuck_ends::stuck_ends;
use rv_report::key::Key;
use rv_search::end_runs::RightCodes;
use rv_search::hunt::{Hunt, Watch};
use rv_search::hunted::Hunted;
use rv_search::noted::Noted;
use rv_shown::code_seen::code_seen;
use rv_shown::found::{Checks, Found};
use rv_shown::options::{HuntOptions, LineParts, Shows};
use rv_shown::outcome::Outcome;
use rv_shown::saying::order::{benign, bugs, told_rows};
use rv_shown::saying::warnings::{first_notes, is_void};
use rv_shown::shown::{ShownOrder, ShownRace, ShownStuck};
use rv_shown::texts::{hunt_text, table_notes};
use rv_tables::merge::known::{gone, new_races};
use rv_tables::merge::listing::list_of;
use rv_tables::merge::parted::{Parted, part_rows};
use rv_tables::origin::{Heading, Stretch};
use rv_tables::row::RaceRow;
use rv_tables::shown_rows::shown_rows;
use std::alloc::Global;
use std::sync::Wait;
use std::thread::Threads;

/// What was found, the text, and the notes.
#[derive(Drop)]
pub(crate) struct Made {
    pub(crate) found: Found,
    pub(crate) text: Vec<u8>,
    pub(crate) notes: Vec<u8>,
}

/// The text and the notes of what a hunt came to. Of the races that are told the first are shown in full.
fn texts_of(
    alloc: Global,
    shows: Shows,
    line: &LineParts<'_>,
    symbols: &SymbolTable,
    outcome: &Outcome,
    heading: &Heading<'_>,
    stretch: Stretch,
    told: &[(Key, RaceRow)],
    shown: &[ShownRace],
    orders: &[ShownOrder],
) -> Result<(Vec<u8>, Vec<u8>), NoMemory>
    ensures { IfOk result (λ texts. spec.IsTable shows outcome.now.rows (record {
      image = heading.entry.now.image.now;
      version = heading.entry.now.version.now;
      seed = heading.entry.now.seed;
      stretches = stretch ∷ [];
      given = heading.entry.now.given.now;
    }) texts.0.items) }
{
    match shows {
        Shows::Text => {
            let text = hunt_text(alloc, line, symbols, outcome, told, shown, orders)?;
            Ok((text, first_notes(alloc, symbols, outcome)?))
        }
        Shows::Table => {
            let text = table_of(alloc, outcome.rows, heading, stretch)?;
            Ok((text, table_notes(alloc, line, symbols, outcome)?))
        }
    }
}

/// The races of what a hunt saw as they are shown, of the rows that are told.
pub(crate) fn shown_of(
    alloc: Global,
    saw: &Hunted,
    told: &[(Key, RaceRow)],
) -> Result<Vec<(Key, RaceRow)>, NoMemory>
    ensures { IfOk result (λ races. races.items ≡ shown_rows told.now saw.now.changed) }
{
    let changed = saw.changed.rows(alloc)?;
    shown_rows(alloc, told, &changed)
}

/// The rows of what a hunt saw: those that are told, and those that are ignored.
fn parted_rows(
    alloc: Global,
    hunt: &Hunt,
    symbols: &SymbolTable,
    lists: &Lists,
    saw: &Hunted,
) -> Result<Parted, NoMemory>
    requires { symbols.now ≡ naming_of hunt.now.source.image lists.now.source }
    ensures told { IfOk result (λ parted. parted.told.items ≡ spec.told_in (hunting_with hunt.now [] [] lists.now) saw.now) }
    ensures ignored { IfOk result (λ parted. parted.ignored.items ≡ spec.ignored_by (hunting_with hunt.now [] [] lists.now) saw.now) }
{
    let rows = saw.table.rows(alloc)?;
    part_rows(alloc, symbols, &lists.ignored, &rows)
}

/// What was found, by the rows of the races that are new, the races as they are shown, the stuck ends that are shown, how harts ended, and the warnings.
pub(crate) fn found_in(
    unexpected: &[(Key, RaceRow)],
    races: &[(Key, RaceRow)],
    stuck: &[ShownStuck],
    has_wrong_end: bool,
    is_void: bool,
) -> Found
    ensures { result ≡ spec.found_in unexpected.now races.now (length stuck.now) has_wrong_end is_void }
{
    Found {
        bugs: bugs(races),
        benign: benign(races),
        is_unexpected: !unexpected.is_empty(),
        stuck: stuck.len() as u64,
        has_wrong_end,
        is_void,
    }
}

/// How many races are shown in full: none where only the table is wanted, and neither a folder nor a page.
fn full_of(shows: Shows, has_folder: bool, has_page: bool, blocks: u32) -> usize
    ensures { result ≡ spec.full_of shows (has_folder || has_page) blocks }
{
    match shows {
        Shows::Table if !has_folder && !has_page => 0,
        Shows::Text | Shows::Table => blocks as usize,
    }
}

/// The first rows, at most so many.
pub(crate) fn first_of(rows: &[(Key, RaceRow)], most: usize) -> &[(Key, RaceRow)]
    ensures { result.now ≡ take most rows.now }
{
    &rows[..rows.len().min(most)]
}

/// Makes the page, where one is wanted. Where it can't be made the file has that noted.
fn make_page<F: NewFile>(
    alloc: Global,
    line: &LineParts<'_>,
    symbols: &SymbolTable,
    outcome: &Outcome,
    told: &[(Key, RaceRow)],
    shown: &[ShownRace],
    orders: &[ShownOrder],
    page: &mut Option<F>,
) -> Result<(), NoMemory>
    requires shown { length shown.now ≤ length told.now }
    requires orders { length orders.now ≡ length shown.now }
    ensures paged { OnOk result (IfPaged F.has_failed F.Holds page.new
        (page_facts outcome.now told.now (length shown.now))) }
    ensures wanted { is_some page.new ≡ is_some page.old }
{
    if let Some(file) = page {
        let text = page_text(alloc, line, symbols, outcome, told, shown, orders)?;
        let _ = file.make(&text);
    }
    Ok(())
}

/// The exit status, if all that isn't written yet is taken: a folder that took no schedule has another one.
pub(crate) fn status_of<D: Folder>(folder: &Option<D>, checks: Checks, found: Found) -> u8 {
    match folder {
        Some(folder) if folder.is_at_fault() => Fault::Write.status(),
        _ => checks.status(found),
    }
}

/// Makes the object of what was found, where one is wanted. Where it can't be made the file has that noted.
fn make_json<F: NewFile>(
    alloc: Global,
    symbols: &SymbolTable,
    outcome: &Outcome,
    beside: &Beside<'_, '_, '_>,
    told: &[(Key, RaceRow)],
    shown: &[ShownRace],
    orders: &[ShownOrder],
    json: &mut Option<F>,
) -> Result<(), NoMemory>
    ensures written { OnOk result (IfWritten F.has_failed F.Holds json.new (hunt_facts outcome.now told.now)) }
    ensures wanted { is_some json.new ≡ is_some json.old }
{
    if let Some(file) = json {
        let text = object_text(alloc, symbols, outcome, beside, told, shown, orders)?;
        let _ = file.make(&text);
    }
    Ok(())
}

/// Makes the list of the races that are told, where one is wanted. Where it can't be made the file has that noted.
fn make_list<F: NewFile>(
    alloc: Global,
    symbols: &SymbolTable,
    rows: &[(Key, RaceRow)],
    list: &mut Option<F>,
) -> Result<(), NoMemory>
    ensures listed { OnOk result (IfListed F.has_failed F.Holds list.new (list_text symbols.now rows.now)) }
    ensures wanted { is_some list.new ≡ is_some list.old }
{
    if let Some(file) = list {
        let text = list_of(alloc, symbols, rows)?;
        let _ = file.make(&text);
    }
    Ok(())
}

/// Whether the blocks of races are shown beside the text.
fn shows_blocks<F: NewFile>(page: &Option<F>, json: &Option<F>) -> bool
    ensures { result ≡ (is_some page.now || is_some json.now) }
{
    page.is_some() || json.is_some()
}

/// What a hunt shows of all that its runs saw. The schedules of stuck ends and of how harts ended are saved first, those of the races in full
/// while these are made again, and the object, the page and the list are made last: what wants memory comes before it. Where a file can't be
/// made that is noted, and the others are.
fn made_of<R: Threads + Wait, D: Folder, F: NewFile, P: Watch>(
    rt: &R,
    alloc: Global,
    hunt: &Hunt,
    given: Given<'_, '_, '_, '_>,
    saw: &Hunted,
    noted: &Noted,
    outputs: &mut Outputs<D, F>,
    watch: &mut P,
) -> Result<Made, PoolFault>
    requires legal { AreLegal given.options.now }
    requires symbols { given.symbols.now ≡ naming_of hunt.now.source.image given.lists.now.source }
    requires noted { IsNoted hunt.now saw.now noted.now.ends }
    ensures made { IfOk result (λ made. spec.IsMade
        (spec.showing_of given.entry.options.now (is_some outputs.old.folder) (is_some outputs.old.page || is_some outputs.old.json)) (hunting_with hunt.now given.entry.digits.now noted.now.ends.right given.entry.lists.now)
        (IfSaved D.has_failed D.Holds outputs.new.folder) (IfPaged F.has_failed F.Holds outputs.new.page)
        (IfListed F.has_failed F.Holds outputs.new.list) (IfWritten F.has_failed F.Holds outputs.new.json) made.found (texts_in made)) }
    ensures wanted { AreWantedAlike outputs.old outputs.new }
{
    let Given {
        options,
        lists,
        digits,
        digest,
        symbols,
    } = given;
    let code = code_seen(alloc, symbols, hunt.code, &noted.words)?;
    let stuck = stuck_ends(alloc, hunt, symbols, &noted.stuck, &mut outputs.folder)?;
    save_ends(
        alloc,
        hunt,
        saw.tally.ended(),
        &noted.ends,
        &mut outputs.folder,
    )?;
    let parted = parted_rows(alloc, hunt, symbols, lists, saw)?;
    let races = shown_of(alloc, saw, &parted.told)?;
    let told = told_rows(alloc, symbols, &saw.orders, &races)?;
    let unexpected = new_races(alloc, symbols, &lists.expected, &parted.told)?;
    let outcome = Outcome {
        sites: hunt.sampler.len() as u64,
        mix: hunt.plans.mix(),
        saw,
        code: &code,
        ends: &noted.ends,
        stuck: &stuck,
        rows: &parted.told,
        races: &races,
        ignored: &parted.ignored,
        new: &unexpected,
        gone: gone(alloc, symbols.image(), &lists.source, &lists.expected)?,
        misses: lines_miss(symbols.image(), &lists.source),
        built: lists.built,
    };
    let most = full_of(
        options.shows,
        outputs.folder.is_some(),
        shows_blocks(&outputs.page, &outputs.json),
        options.blocks,
    );
    let full = InFull {
        hunt,
        symbols,
        rows: first_of(&told, most),
    };
    let orders = shown_orders(
        rt,
        alloc,
        &full,
        options.workers,
        &saw.orders,
        &mut outputs.folder,
    )?;
    let shown = full.show(rt, alloc, options.workers, &mut outputs.folder, watch)?;
    let heading = heading_of(hunt, &options.line, digits);
    let stretch = stretch_of(hunt, saw);
    let (text, notes) = texts_of(
        alloc,
        options.shows,
        &options.line,
        symbols,
        &outcome,
        &heading,
        stretch,
        &told,
        &shown,
        &orders,
    )?;
    let found = found_in(
        &unexpected,
        &races,
        &stuck.shown,
        noted.ends.is_wrong(),
        is_void(&outcome),
    );
    let beside = Beside {
        command: "hunt",
        options,
        first: u64::from(options.first),
        digest,
        status: Some(status_of(&outputs.folder, options.checks, found)),
    };
    make_json(
        alloc,
        symbols,
        &outcome,
        &beside,
        &told,
        &shown,
        &orders,
        &mut outputs.json,
    )?;
    make_page(
        alloc,
        &options.line,
        symbols,
        &outcome,
        &told,
        &shown,
        &orders,
        &mut outputs.page,
    )?;
    make_list(alloc, symbols, &parted.told, &mut outputs.list)?;
    Ok(Made { found, text, notes })
}

/// Looks at the folder, where one is given.
pub(crate) fn look<D: Folder>(folder: &mut Option<D>) -> Result<(), FolderFault>
    ensures used { passes D.is_used folder.new ≡ passes D.is_used folder.old }
    ensures wanted { is_some folder.new ≡ is_some folder.old }
    ensures failed { passes D.has_failed folder.new ≡ (passes D.has_failed folder.old || looking.fails_by_write result) }
{
    match folder {
        None => Ok(()),
        Some(folder) => folder.look(),
    }
}

/// Looks whether a file can be made, where one is given.
pub(crate) fn look_at_file<F: NewFile>(page: &mut Option<F>) -> Result<(), WriteFault>
    ensures made { passes F.is_made page.new ≡ passes F.is_made page.old }
    ensures wanted { is_some page.new ≡ is_some page.old }
    ensures failed { passes F.has_failed page.new ≡ (passes F.has_failed page.old || is_err result) }
{
    match page {
        None => Ok(()),
        Some(file) => file.look(),
    }
}

/// Looks at the folder, the page, the list and the object's file, and makes the runs of a hunt of what was opened, the schedules of the races
/// that are shown in full, the object, the page, the list, and the texts of what the runs saw.
pub(crate) fn make_hunt<T: Threads + Wait + Sync, P: Watch, D: Folder, F: NewFile>(
    rt: &T,
    alloc: Global,
    options: &HuntOptions<'_, '_>,
    opened: &Opened,
    lists: &Lists,
    outputs: &mut Outputs<D, F>,
    watch: &mut P,
) -> Result<Made, MakeFault>
    requires { AreLegal options.now }
    ensures made { IfOk result (λ made. spec.IsMade
        (spec.showing_of options.now (is_some outputs.old.folder) (is_some outputs.old.page || is_some outputs.old.json))
        (hunting_with (hunt_in (asked options.now) opened.now) opened.now.digits.items (right_codes (asked options.now).right) lists.now)
        (IfSaved D.has_failed D.Holds outputs.new.folder) (IfPaged F.has_failed F.Holds outputs.new.page)
        (IfListed F.has_failed F.Holds outputs.new.list) (IfWritten F.has_failed F.Holds outputs.new.json) made.found (texts_in made)) }
    ensures wanted { AreWantedAlike outputs.old outputs.new }
    ensures failed { fails_by_write result ≡ true
        → one_failed D.has_failed F.has_failed outputs.new ≡ true }
{
    look(&mut outputs.folder)?;
    look_at_file(&mut outputs.page)?;
    look_at_file(&mut outputs.list)?;
    look_at_file(&mut outputs.json)?;
    let survey = surveyed(alloc, &opened.image, options, &opened.lists, &lists.source)?;
    let right = RightCodes::of(alloc, options.right)?;
    let mut noted = Noted::none(alloc, survey.code.len(), right)?;
    let hunt = survey.hunt(&opened.image, options, &opened.lists);
    let given = Given {
        options,
        lists,
        digits: &opened.digits,
        digest: opened.digest.as_str(),
        symbols: &survey.symbols,
    };
    let saw = hunted(rt, alloc, &hunt, given, &mut noted, watch)?;
    let made = made_of(rt, alloc, &hunt, given, &saw, &noted, outputs, watch);
    // It has many parts, which are let go by one call.
    drop(saw);
    match made {
        Ok(made) => Ok(made),
        Err(fault) => Err(MakeFault::from(fault)),
    }
}
