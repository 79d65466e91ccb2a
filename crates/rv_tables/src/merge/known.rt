//! The races that are expected: those of a table, or those that a line of a list fits.
ghost use Rattle.std.specs.Prelude.{◌≡◌, ◌≤◌, ◌||◌, ◌∷◌, ◌++◌, [], false, if◌then◌else◌, Ok, IfOk, IfErr, IfSome, OnOk, filter, is_some, length};
ghost use Rattle.rv_memory.specs.Flagged as flag;
ghost use Rattle.rv_tables.specs.internal.Sought.{AreTheNames};
ghost use Rattle.rv_tables.specs.declared.merge.known.Known.TheVariants as known;
ghost use Rattle.rv_tables.specs.merge.FileFault.{IsTold, fails_by, is_read, is_write};
ghost use Rattle.rv_tables.specs.merge.Ignore.{naming_of};
ghost use Rattle.rv_tables.specs.merge.Known as spec;

use crate::expected::{may_be_bug, new_in};
use crate::line::is_first;
use crate::merge::fault::FileFault;
use crate::merge::ignore::{Ignores, Names, lines_of};
use crate::merge::table_file::expected_rows;
use crate::row::RaceRow;
use crate::table::HuntTable;
use rv_elf::Image;
use rv_lines::lines::SourceLines;
use rv_memory::flagged::{Flagged, INPUT_LIMIT, read_whole};
use rv_memory::store::NoMemory;
use rv_report::key::Key;
use rv_symbols::symbol_table::SymbolTable;
use rv_text::pieces::Pieces;
use std::alloc::Global;
use std::io::Read;

/// The races that are expected.
#[derive(Drop)]
pub enum Known {
    /// Those that have a row, of whatever class.
    Table(HuntTable),
    /// Those that a line fits.
    Lines(Ignores),
}

/// Whether a text is a table.
fn is_table(text: &[u8]) -> bool
    ensures { result ≡ spec.is_table text.now }
{
    match Pieces::of(text, b'\n').next_piece() {
        Some(first) => is_first(first),
        None => is_first(&[]),
    }
}

/// The races of a table.
fn table_of(alloc: Global, text: &[u8]) -> Result<Known, FileFault>
    ensures ok { IfOk result (λ known. spec.table_of text.now ≡ Ok known) }
    ensures err { IfErr result (IsTold (spec.table_of text.now)) }
    ensures reader { fails_by is_read result ≡ false }
    ensures writer { fails_by is_write result ≡ false }
{
    match expected_rows(alloc, text) {
        Ok(rows) => Ok(Known::Table(rows)),
        Err(fault) => Err(fault),
    }
}

/// The races of a list.
fn list_of(alloc: Global, text: &[u8]) -> Result<Known, FileFault>
    requires { length text.now ≤ INPUT_LIMIT }
    ensures ok { IfOk result (λ known. spec.list_of text.now ≡ Ok known) }
    ensures err { IfErr result (IsTold (spec.list_of text.now)) }
    ensures reader { fails_by is_read result ≡ false }
    ensures writer { fails_by is_write result ≡ false }
{
    match lines_of(alloc, text) {
        Ok(lines) => Ok(Known::Lines(lines)),
        Err(fault) => Err(fault),
    }
}

/// The races that the bytes of a file say, which are not too many.
#[tactic(auto, unfolding(crate::specs::merge::Known::known_of))]
fn known_of(alloc: Global, text: &[u8]) -> Result<Known, FileFault>
    requires { length text.now ≤ INPUT_LIMIT }
    ensures ok { IfOk result (λ known. spec.known_of text.now ≡ Ok known) }
    ensures err { IfErr result (IsTold (spec.known_of text.now)) }
    ensures reader { fails_by is_read result ≡ false }
    ensures writer { fails_by is_write result ≡ false }
{
    if is_table(text) {
        table_of(alloc, text)
    } else {
        list_of(alloc, text)
    }
}

/// Reads the races that are expected: a table, or a list.
#[tactic(auto, unfolding(crate::specs::merge::Known::known_of))]
pub fn read_known<R: Read>(alloc: Global, reader: &mut Flagged<R>) -> Result<Known, FileFault>
    ensures ok { IfOk result (λ known. IfSome (R.remaining (flag.device reader.old)) (λ bytes.
        spec.known_of bytes ≡ Ok known)) }
    ensures err { IfErr result (λ fault. IfSome (R.remaining (flag.device reader.old)) (λ bytes.
        IsTold (spec.known_of bytes) fault)) }
    ensures reader { flag.has_failed reader.new ≡ (flag.has_failed reader.old || fails_by is_read result) }
    ensures writer { fails_by is_write result ≡ false }
{
    let bytes = read_whole(alloc, reader, INPUT_LIMIT)?;
    known_of(alloc, &bytes)
}

/// Adds a race, if it is new.
fn add_if(
    found: &mut Vec<(Key, RaceRow)>,
    race: (Key, RaceRow),
    is_new: bool,
) -> Result<(), NoMemory>
    ensures { OnOk result (found.new.items ≡ found.old.items ++ (if is_new then race ∷ [] else [])) }
{
    if is_new {
        found.push(race)?;
    }
    Ok(())
}

/// Whether a race may be a bug and no line fits it.
fn is_new(
    alloc: Global,
    symbols: &SymbolTable,
    lines: &Ignores,
    names: &Names,
    race: &(Key, RaceRow),
) -> Result<bool, NoMemory>
    requires { AreTheNames names.now symbols.now.image lines.now }
    ensures { IfOk result (λ is_new. is_new ≡ spec.is_new symbols.now (known.Lines lines.now) race.now) }
{
    let is_expected = lines.fits(alloc, symbols, names, &race.0, race.1.address)?;
    Ok(may_be_bug(race.1.class) && !is_expected)
}

/// The races that may be bugs and that no line fits.
fn new_by(
    alloc: Global,
    symbols: &SymbolTable,
    lines: &Ignores,
    races: &[(Key, RaceRow)],
) -> Result<Vec<(Key, RaceRow)>, NoMemory>
    ensures { IfOk result (λ found. found.items ≡ filter (spec.is_new symbols.now (known.Lines lines.now)) races.now) }
{
    let mut found = Vec::new(alloc);
    let names = lines.names(alloc, symbols.image())?;
    for race in races {
        let is_new = is_new(alloc, symbols, lines, &names, race)?;
        add_if(&mut found, *race, is_new)?;
    }
    Ok(found)
}

/// The races that may be bugs and are not expected, where some are.
pub fn new_races(
    alloc: Global,
    symbols: &SymbolTable,
    known: &Option<Known>,
    races: &[(Key, RaceRow)],
) -> Result<Vec<(Key, RaceRow)>, NoMemory>
    ensures { IfOk result (λ found. found.items ≡ spec.new_races symbols.now known.now races.now) }
{
    match known {
        None => Ok(Vec::new(alloc)),
        Some(Known::Table(rows)) => new_in(alloc, rows, races),
        Some(Known::Lines(lines)) => new_by(alloc, symbols, lines, races),
    }
}

/// The number of the first line with a name that no symbol of the image and no source line has, where a list says what is expected.
pub fn gone(
    alloc: Global,
    image: &Image,
    source: &Option<SourceLines>,
    known: &Option<Known>,
) -> Result<Option<u64>, NoMemory>
    ensures { IfOk result (λ line. is_some line ≡ spec.has_gone (naming_of image.now source.now) known.now) }
{
    match known {
        Some(Known::Lines(lines)) => lines.unknown(alloc, image, source),
        Some(Known::Table(_)) | None => Ok(None),
    }
}
