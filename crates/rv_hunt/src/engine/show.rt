//! The engine of `show`: an image and the table of a hunt of it in, the table's races out, as the hunt shows them.
//!
//! The run of each row is made again, by what the table's last line says of the runs. What is written is stated in
//! `specs/engine/TableShown.antt`.
ghost use Rattle.std.specs.Prelude.{◌≡◌, ◌≤◌, ◌||◌, false, true, is_some, Ok, IfErr, IfOk, IfSome, OnOk, length, map};
ghost use Rattle.std.specs.Io.KnownBytes.{Keeps};
ghost use Rattle.rv_memory.specs.Buffered as buffer;
ghost use Rattle.rv_memory.specs.Flagged.{device};
ghost use Rattle.rv_engines.specs.Campaigns.{passes};
ghost use Rattle.rv_hunt.specs.GivenRuns.{given as runs_given};
ghost use Rattle.rv_object.specs.HuntObject.{object_facts, table_sums};
ghost use Rattle.rv_page.specs.PageFacts.{table_facts};
ghost use Rattle.rv_hunt.specs.declared.engine.tabled.ShownTable.{ShownTable};
ghost use Rattle.rv_shown.specs.Asked.{asked as asked_for};
ghost use Rattle.rv_hunt.specs.engine.Hunting.{expected_in, files_of, ignored_in};
ghost use Rattle.rv_hunt.specs.engine.Late.{IfListed, IfPaged, IfWritten};
ghost use Rattle.rv_hunt.specs.engine.Outputs.{AreUntouched};
ghost use Rattle.rv_remade.specs.Saved.{IfSaved};
ghost use Rattle.rv_hunt.specs.engine.TableShown as spec;
ghost use Rattle.rv_hunt.specs.engine.TableShown.{without_place};
ghost use Rattle.rv_tables.specs.merge.Ignore.{naming_of};
ghost use Rattle.rv_tables.specs.merge.Merge.{bytes_if};
ghost use Rattle.rv_faults.specs.SourceFile.{source_in};
ghost use Rattle.rv_hunt.specs.internal.Opened.{hunt_by, hunt_with};
ghost use Rattle.rv_hunt.specs.internal.Remaking as internal;

use crate::engine::fault::{HuntFault, MakeFault};
use crate::engine::inputs::Inputs;
use crate::engine::lists::{Lists, read_aim, read_ignored, read_known};
use crate::engine::making::{Made, first_of, found_in, look, look_at_file, status_of};
use crate::engine::opening::{FileRead, Listed, read_file, read_lists};
use crate::engine::outputs::Outputs;
use crate::engine::publish;
use crate::engine::remaking::{RemakeFault, WatchRuns, remade_rows};
use crate::engine::survey::surveyed;
use crate::engine::tabled::{ShownTable, read_shown, shape_fault};
use crate::given::{GivenRuns, given_in};
use rv_campaign::PoolFault;
use rv_engines::new_file::NewFile;
use rv_explain::symbol_table::SymbolTable;
use rv_faults::command::CommandFault;
use rv_faults::fault::Fault;
use rv_faults::source_lines::{lines_miss, read_source_if};
use rv_memory::buffered::Buffered;
use rv_memory::flagged::{Flagged, WriteFault};
use rv_memory::store::NoMemory;
use rv_object::object::{Beside, tabled_object};
use rv_object::races::Races;
use rv_page::tabled::tabled_page;
use rv_plans::limit::Limit;
use rv_plans::plans::Plans;
use rv_remade::folder::{Folder, FolderFault};
use rv_remade::orders::shown_orders;
use rv_remade::shown::InFull;
use rv_report::key::Key;
use rv_search::hunt::{Hunt, Watch};
use rv_shown::found::{Checks, Found};
use rv_shown::options::{HuntOptions, LineParts, SaidOptions, Shows};
use rv_shown::outcome::Tabled;
use rv_shown::saying::order::told_rows;
use rv_shown::saying::warnings::tabled_notes;
use rv_shown::shown::{ShownOrder, ShownRace};
use rv_shown::texts::tabled_text;
use rv_tables::fault::{TableFault, TableKind};
use rv_tables::merge::fault::FileFault;
use rv_tables::merge::known::{gone, new_races};
use rv_tables::merge::listing::list_of;
use rv_tables::merge::parted::part_rows;
use rv_tables::orders::OrderTable;
use rv_tables::row::RaceRow;
use std::alloc::Global;
use std::io::{Read, Write};
use std::sync::Wait;
use std::thread::Threads;

/// The options of `show`.
#[derive(Clone, Copy)]
pub struct ShowOptions<'b> {
    /// How many workers make the runs. What is written does not depend on it.
    pub workers: u8,
    /// How many races are shown in full.
    pub blocks: u32,
    /// What the text tells of the command line.
    pub line: LineParts<'b>,
    /// What the exit status is asked to tell.
    pub checks: Checks,
}

/// Why `show` writes nothing, or not all.
#[derive(Clone, Copy)]
pub enum ShowFault {
    /// The table is refused.
    Table(FileFault),
    /// What `hunt` tells too.
    Hunt(HuntFault<'static>),
}

impl From<MakeFault> for ShowFault {
    ghost from_gives = { λ given fault. fault ≡ internal.of_make given };

    fn from(given: MakeFault) -> ShowFault {
        ShowFault::Hunt(HuntFault::Command(given.as_command()))
    }
}

impl From<PoolFault> for ShowFault {
    ghost from_gives = { λ given fault. fault ≡ internal.of_pool given };

    fn from(given: PoolFault) -> ShowFault {
        ShowFault::from(MakeFault::from(given))
    }
}

impl From<NoMemory> for ShowFault {
    ghost from_gives = { λ _ fault. fault ≡ internal.no_memory };

    fn from(given: NoMemory) -> ShowFault {
        ShowFault::from(MakeFault::from(given))
    }
}

impl From<WriteFault> for ShowFault {
    ghost from_gives = { λ _ fault. fault ≡ internal.write_failed };

    fn from(given: WriteFault) -> ShowFault {
        ShowFault::from(MakeFault::from(given))
    }
}

impl From<FolderFault> for ShowFault {
    ghost from_gives = { λ given fault. fault ≡ internal.of_folder given };

    fn from(given: FolderFault) -> ShowFault {
        ShowFault::from(MakeFault::from(given))
    }
}

impl From<RemakeFault> for ShowFault {
    ghost from_gives = { λ given fault. fault ≡ internal.of_remake given };

    fn from(given: RemakeFault) -> ShowFault {
        match given {
            RemakeFault::Pool(fault) => ShowFault::from(fault),
            RemakeFault::NotMet { line } => ShowFault::Table(FileFault::Table(TableFault {
                line,
                kind: TableKind::NotMet,
            })),
        }
    }
}

/// What other programs are told of the runs that have that given, beside the lists of the line.
fn said_of<'b>(given: &GivenRuns<'_>, line: &LineParts<'b>) -> SaidOptions<'b> {
    SaidOptions {
        harts: given.harts,
        slots: given.slots(),
        lengths: given.lengths,
        ..line.said
    }
}

/// The options of the hunt whose runs have that given and this seed.
fn hunt_options<'a, 'b>(
    given: &GivenRuns<'a>,
    seed: u64,
    options: &ShowOptions<'b>,
) -> Option<HuntOptions<'a, 'b>>
    ensures asked { IfSome result (λ made. asked_for made ≡ spec.asked_by seed (runs_given given.now)) }
    ensures shown { IfSome result (λ made. (made.workers ≡ options.now.workers) × (made.blocks ≡ options.now.blocks)) }
{
    let Ok(seed) = u32::try_from(seed) else {
        return None;
    };
    let plans = Plans::new(given.mix(), given.harts, given.slots(), given.lengths)?;
    Some(HuntOptions {
        plans,
        seed,
        first: 0,
        limit: Limit::Runs(1),
        workers: options.workers,
        named: given.named,
        skip: given.skip,
        idle: None,
        right: None,
        aim: given.aim,
        shows: Shows::Text,
        blocks: options.blocks,
        line: LineParts {
            said: said_of(given, &options.line),
            ..options.line
        },
        orders: false,
        checks: options.checks,
    })
}

/// Reads the lists that the table's last line has.
fn read_its_lists(
    alloc: Global,
    hunt: &HuntOptions<'_, '_>,
    file: &FileRead,
    table: &ShownTable,
) -> Result<Listed, ShowFault>
    ensures ok { IfOk result (λ lists. hunt_with (asked_for hunt.now) file.now.image ≡ Ok (hunt_by (asked_for hunt.now) file.now.image lists)) }
    ensures err { IfErr result (internal.IsUnsaid table.now) }
{
    match read_lists(alloc, hunt, &file.image) {
        Ok(lists) => Ok(lists),
        Err(CommandFault::Plain(Fault::NoMemory)) => Err(ShowFault::from(NoMemory)),
        // The image is the one that the line was written of.
        Err(_) => Err(shape_fault(table)),
    }
}

/// Reads the lists of files, and looks for what the table's last line aims at.
fn read_files<R: Read>(
    alloc: Global,
    hunt: &HuntOptions<'_, '_>,
    file: &FileRead,
    table: &ShownTable,
    inputs: &mut Inputs<R>,
) -> Result<Lists, ShowFault>
    ensures source { IfOk result (λ lists. IfSome (bytes_if R.remaining inputs.old.lines) (λ bytes.
        source_in bytes ≡ Ok lists.source)) }
    ensures ignored { IfOk result (λ lists. IfSome (bytes_if R.remaining inputs.old.ignored) (λ bytes.
        ignored_in (naming_of file.now.image lists.source) bytes ≡ Ok lists.ignored)) }
    ensures expected { IfOk result (λ lists. IfSome (bytes_if R.remaining inputs.old.expected) (λ bytes.
        expected_in bytes ≡ Ok lists.expected)) }
    ensures err { IfErr result (λ fault. IfSome (bytes_if R.remaining inputs.old.lines) (λ lines.
        IfSome (bytes_if R.remaining inputs.old.ignored) (λ ignored.
        IfSome (bytes_if R.remaining inputs.old.expected) (λ expected.
        internal.IsLateTold table.now file.now.image lines ignored expected fault)))) }
{
    let aim = match read_aim(alloc, &file.image, hunt) {
        Ok(aim) => aim,
        Err(FileFault::Plain(Fault::NoMemory)) => return Err(ShowFault::from(NoMemory)),
        // So is what it aims at.
        Err(_) => return Err(shape_fault(table)),
    };
    let source = match read_source_if(alloc, &mut inputs.lines) {
        Ok(source) => source,
        Err(fault) => return Err(ShowFault::Hunt(HuntFault::Lines(fault))),
    };
    let ignored = match read_ignored(alloc, &file.image, &source, &mut inputs.ignored) {
        Ok(ignored) => ignored,
        Err(fault) => return Err(ShowFault::Hunt(HuntFault::Ignored(fault))),
    };
    match read_known(alloc, &mut inputs.expected) {
        Ok(expected) => Ok(Lists {
            source,
            ignored,
            expected,
            aim,
            built: file.built,
        }),
        Err(fault) => Err(ShowFault::Hunt(HuntFault::Expected(fault))),
    }
}

/// What is told of a table, whose rows have their places, and of which the races in full are made again: the text, the notes, the object, the
/// page and the list.
fn made_of<T: Threads + Wait, D: Folder, F: NewFile, P: Watch>(
    rt: &T,
    alloc: Global,
    hunt: &Hunt,
    beside: &Beside<'_, '_, '_>,
    lists: &Lists,
    symbols: &SymbolTable,
    table: &ShownTable,
    rows: &[(Key, RaceRow)],
    outputs: &mut Outputs<D, F>,
    watch: &mut P,
) -> Result<Made, PoolFault>
    requires workers { beside.now.options.now.workers ≤ 16 }
    requires symbols { symbols.now ≡ naming_of hunt.now.source.image lists.now.source }
    requires rows { map without_place rows.now ≡ map without_place table.now.rows }
    ensures { IfOk result (λ made. spec.IsMade (internal.shown_by hunt.now lists.now) beside.now.options.now.blocks table.now
        (IfSaved D.has_failed D.Holds outputs.new.folder) (IfPaged F.has_failed F.Holds outputs.new.page)
        (IfListed F.has_failed F.Holds outputs.new.list) (IfWritten F.has_failed F.Holds outputs.new.json) made.found) }
{
    let options = beside.options;
    let parted = part_rows(alloc, symbols, &lists.ignored, rows)?;
    let untried = OrderTable::new(alloc);
    let told = told_rows(alloc, symbols, &untried, &parted.told)?;
    let unexpected = new_races(alloc, symbols, &lists.expected, &parted.told)?;
    let tabled = Tabled {
        runs: table.origin.runs(),
        rows: &parted.told,
        ignored: &parted.ignored,
        new: &unexpected,
        gone: gone(alloc, symbols.image(), &lists.source, &lists.expected)?,
        misses: lines_miss(symbols.image(), &lists.source),
    };
    let full = InFull {
        hunt,
        symbols,
        rows: first_of(&told, options.blocks as usize),
    };
    let orders = shown_orders(
        rt,
        alloc,
        &full,
        options.workers,
        &untried,
        &mut outputs.folder,
    )?;
    let shown = full.show(rt, alloc, options.workers, &mut outputs.folder, watch)?;
    let line = &options.line;
    let text = tabled_text(alloc, line, symbols, &tabled, &told, &shown, &orders)?;
    let notes = tabled_notes(alloc, symbols, &tabled)?;
    let found = found_in(&unexpected, &parted.told, &[], false, false);
    // What wants memory comes before the first file.
    let listed = list_of(alloc, symbols, &parted.told)?;
    let beside = Beside {
        status: Some(status_of(&outputs.folder, options.checks, found)),
        ..*beside
    };
    let races = Races {
        told: &told,
        shown: &shown,
        orders: &orders,
        tried: &untried,
        new: &unexpected,
    };
    make_object(alloc, symbols, &tabled, &beside, &races, &mut outputs.json)?;
    make_page(
        alloc,
        line,
        symbols,
        &tabled,
        &told,
        &shown,
        &orders,
        &mut outputs.page,
    )?;
    put_list(&mut outputs.list, &listed);
    Ok(Made { found, text, notes })
}

/// Makes the object of what was found, where one is wanted. Where it can't be made the file has that noted.
fn make_object<F: NewFile>(
    alloc: Global,
    symbols: &SymbolTable,
    tabled: &Tabled,
    beside: &Beside<'_, '_, '_>,
    races: &Races<'_>,
    json: &mut Option<F>,
) -> Result<(), NoMemory>
    ensures { OnOk result (IfWritten F.has_failed F.Holds json.new
        (object_facts (table_sums tabled.now.rows.now tabled.now.ignored.now tabled.now.runs) races.now.told.now)) }
{
    if let Some(file) = json {
        let text = tabled_object(alloc, symbols, tabled, beside, races)?;
        let _ = file.make(&text);
    }
    Ok(())
}

/// Makes the list, where one is wanted. Where it can't be made the file has that noted.
fn put_list<F: NewFile>(list: &mut Option<F>, text: &[u8])
    ensures { IfListed F.has_failed F.Holds list.new text.now }
{
    if let Some(file) = list {
        let _ = file.make(text);
    }
}

/// Makes the page, where one is wanted. Where it can't be made the file has that noted.
fn make_page<F: NewFile>(
    alloc: Global,
    line: &LineParts<'_>,
    symbols: &SymbolTable,
    tabled: &Tabled,
    told: &[(Key, RaceRow)],
    shown: &[ShownRace],
    orders: &[ShownOrder],
    page: &mut Option<F>,
) -> Result<(), NoMemory>
    requires shown { length shown.now ≤ length told.now }
    requires orders { length orders.now ≡ length shown.now }
    ensures { OnOk result (IfPaged F.has_failed F.Holds page.new
        (table_facts (is_some tabled.now.gone || tabled.now.misses) tabled.now.rows.now tabled.now.ignored.now told.now (length shown.now))) }
{
    if let Some(file) = page {
        let text = tabled_page(alloc, line, symbols, tabled, told, shown, orders)?;
        let _ = file.make(&text);
    }
    Ok(())
}

/// Makes the runs of the table's rows again, and what is told of them.
fn make_rows<T: Threads + Wait, D: Folder, F: NewFile, P: Watch + WatchRuns>(
    rt: &T,
    alloc: Global,
    asked: &HuntOptions<'_, '_>,
    file: &FileRead,
    listed: &Listed,
    lists: &Lists,
    table: &ShownTable,
    outputs: &mut Outputs<D, F>,
    watch: &mut P,
) -> Result<Made, ShowFault>
    requires { asked.now.workers ≤ 16 }
    ensures made { IfOk result (λ made. spec.IsMade (internal.shown_with (asked_for asked.now) file.now.image listed.now lists.now)
        asked.now.blocks table.now (IfSaved D.has_failed D.Holds outputs.new.folder) (IfPaged F.has_failed F.Holds outputs.new.page)
        (IfListed F.has_failed F.Holds outputs.new.list) (IfWritten F.has_failed F.Holds outputs.new.json) made.found) }
    ensures err { IfErr result internal.IsRunFault }
    ensures untouched { IfErr result (λ fault. spec.is_of_files fault ≡ true
        → AreUntouched D.is_used F.is_made outputs.old outputs.new) }
{
    look(&mut outputs.folder)?;
    look_at_file(&mut outputs.page)?;
    look_at_file(&mut outputs.list)?;
    look_at_file(&mut outputs.json)?;
    let survey = surveyed(alloc, &file.image, asked, listed, &lists.source)?;
    let hunt = survey.hunt(&file.image, asked, listed);
    let rows = remade_rows(rt, alloc, &hunt, &table.rows, asked.workers, watch)?;
    let beside = Beside {
        command: "show",
        options: asked,
        first: table.origin.first_run(),
        digest: file.digest.as_str(),
        status: None,
    };
    Ok(made_of(
        rt,
        alloc,
        &hunt,
        &beside,
        lists,
        &survey.symbols,
        table,
        &rows,
        outputs,
        watch,
    )?)
}

/// The same, with the lists that are read.
fn make_with<T: Threads + Wait, R: Read, D: Folder, F: NewFile, P: Watch + WatchRuns>(
    rt: &T,
    alloc: Global,
    options: &ShowOptions<'_>,
    inputs: &mut Inputs<R>,
    file: &FileRead,
    table: &ShownTable,
    outputs: &mut Outputs<D, F>,
    watch: &mut P,
) -> Result<Made, ShowFault>
    requires { options.now.workers ≤ 16 }
    ensures made { IfOk result (λ made. IfSome (bytes_if R.remaining inputs.old.lines) (λ lines.
        IfSome (bytes_if R.remaining inputs.old.ignored) (λ ignored.
        IfSome (bytes_if R.remaining inputs.old.expected) (λ expected. (shown : spec.TableShown)
        × internal.IsShownBy file.now.image lines ignored expected table.now shown
        × spec.IsMade shown options.now.blocks table.now (IfSaved D.has_failed D.Holds outputs.new.folder) (IfPaged F.has_failed F.Holds outputs.new.page)
        (IfListed F.has_failed F.Holds outputs.new.list) (IfWritten F.has_failed F.Holds outputs.new.json) made.found)))) }
    ensures err { IfErr result (λ fault. IfSome (bytes_if R.remaining inputs.old.lines) (λ lines.
        IfSome (bytes_if R.remaining inputs.old.ignored) (λ ignored.
        IfSome (bytes_if R.remaining inputs.old.expected) (λ expected.
        internal.IsLateTold table.now file.now.image lines ignored expected fault)))) }
    ensures untouched { IfErr result (λ fault. spec.is_of_files fault ≡ true
        → AreUntouched D.is_used F.is_made outputs.old outputs.new) }
{
    let words = table.origin.given_words(alloc)?;
    let Some(given) = given_in(&words) else {
        return Err(shape_fault(table));
    };
    let Some(asked) = hunt_options(&given, table.origin.seed(), options) else {
        return Err(shape_fault(table));
    };
    let listed = read_its_lists(alloc, &asked, file, table)?;
    let lists = read_files(alloc, &asked, file, table, inputs)?;
    match make_rows(
        rt, alloc, &asked, file, &listed, &lists, table, outputs, watch,
    ) {
        Ok(made) => Ok(made),
        Err(fault) => Err(fault),
    }
}

/// Reads the files, and makes what is written.
fn make<T: Threads + Wait, R: Read, D: Folder, F: NewFile, P: Watch + WatchRuns>(
    rt: &T,
    alloc: Global,
    options: &ShowOptions<'_>,
    inputs: &mut Inputs<R>,
    table: &mut Flagged<R>,
    outputs: &mut Outputs<D, F>,
    watch: &mut P,
) -> Result<Made, ShowFault>
    requires { options.now.workers ≤ 16 }
    ensures made { IfOk result (λ made. IfSome (files_of R.remaining inputs.old) (λ files.
        IfSome (R.remaining (device table.old)) (λ bytes. (read : ShownTable) × (shown : spec.TableShown)
        × spec.IsShownOf options.now.line.version.now files bytes read shown
        × spec.IsMade shown options.now.blocks read (IfSaved D.has_failed D.Holds outputs.new.folder) (IfPaged F.has_failed F.Holds outputs.new.page)
        (IfListed F.has_failed F.Holds outputs.new.list) (IfWritten F.has_failed F.Holds outputs.new.json) made.found))) }
    ensures refused { IfErr result (λ fault. IfSome (files_of R.remaining inputs.old) (λ files.
        IfSome (R.remaining (device table.old)) (λ bytes.
        spec.IsTold options.now.line.version.now files bytes fault))) }
    ensures untouched { IfErr result (λ fault. spec.is_of_files fault ≡ true
        → AreUntouched D.is_used F.is_made outputs.old outputs.new) }
{
    let file = match read_file(alloc, &mut inputs.image) {
        Ok(file) => file,
        Err(fault) => return Err(ShowFault::Hunt(HuntFault::Command(CommandFault::Plain(fault)))),
    };
    let version = options.line.version.as_bytes();
    let table = match read_shown(alloc, &file.digits, version, table) {
        Ok(table) => table,
        Err(fault) => return Err(ShowFault::Table(fault)),
    };
    match make_with(rt, alloc, options, inputs, &file, &table, outputs, watch) {
        Ok(made) => Ok(made),
        Err(fault) => Err(fault),
    }
}

/// Reads the image, the table, and the lists of files; looks at the folder; makes the runs of the table's rows again, the schedules of
/// the races that are shown in full, the object, the page and the list of the races; and writes what the rows say. `notes` is the standard error: it has
/// got all of the notes before the first byte of the text is written. Where a file or a list is refused, or a row is not met, nothing is
/// made or written. A file that fails after the runs has it noted: all others are made, and the text is written.
pub fn run_show<
    T: Threads + Wait,
    R: Read,
    D: Folder,
    F: NewFile,
    W: Write,
    E: Write,
    P: Watch + WatchRuns,
>(
    rt: &T,
    alloc: Global,
    options: &ShowOptions<'_>,
    inputs: &mut Inputs<R>,
    table: &mut Flagged<R>,
    outputs: &mut Outputs<D, F>,
    writer: &mut Buffered<W>,
    notes: &mut Buffered<E>,
    watch: &mut P,
) -> Result<Found, ShowFault>
    requires { options.now.workers ≤ 16 }
    ensures told { IfOk result (λ found. IfSome (files_of R.remaining inputs.old) (λ files.
        IfSome (R.remaining (device table.old)) (λ bytes. (read : ShownTable) × (shown : spec.TableShown)
        × spec.IsShownOf options.now.line.version.now files bytes read shown
        × spec.IsMade shown options.now.blocks read (IfSaved D.has_failed D.Holds outputs.new.folder) (IfPaged F.has_failed F.Holds outputs.new.page)
        (IfListed F.has_failed F.Holds outputs.new.list) (IfWritten F.has_failed F.Holds outputs.new.json) found))) }
    ensures refused { IfErr result (λ fault. IfSome (files_of R.remaining inputs.old) (λ files.
        IfSome (R.remaining (device table.old)) (λ bytes.
        spec.IsTold options.now.line.version.now files bytes fault))) }
    ensures nothing { IfErr result (λ fault. spec.is_write fault ≡ false
        → Keeps (buffer.sent W.contents writer.old) (buffer.sent W.contents writer.new)) }
    ensures no_notes { IfErr result (λ fault. spec.is_write fault ≡ false
        → Keeps (buffer.sent E.contents notes.old) (buffer.sent E.contents notes.new)) }
    ensures untouched { IfErr result (λ fault. spec.is_of_files fault ≡ true
        → AreUntouched D.is_used F.is_made outputs.old outputs.new) }
{
    let made = make(rt, alloc, options, inputs, table, outputs, watch)?;
    watch.ends();
    publish(&made, writer, notes)?;
    Ok(made.found)
}
