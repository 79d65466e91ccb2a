//! Files of source lines that commands read.
ghost use Rattle.std.specs.Prelude.{◌≡◌, ◌≤◌, ◌&&◌, ◌||◌, false, Ok, IfOk, IfErr, IfSome, [], length};
ghost use Rattle.std.specs.Option.{option_map_or, unwrap_or};
ghost use Rattle.rv_lines.specs.SourceLines.{reach};
ghost use Rattle.rv_memory.specs.Extent.{end_of};
ghost use Rattle.rv_memory.specs.Flagged as flag;
ghost use Rattle.rv_faults.specs.SourceFile as spec;

use crate::fault::Fault;
use rv_elf::Image;
use rv_lines::fault::{LinesFault, LinesRefusal};
use rv_lines::lines::{SourceLines, read_lines};
use rv_memory::flagged::{Flagged, INPUT_LIMIT, ReadFault, read_whole};
use rv_memory::region::Region;
use rv_memory::store::NoMemory;
use rv_symbols::symbol_table::SymbolTable;
use std::alloc::Global;
use std::io::Read;

/// Why a file of source lines is refused, or a device failed.
#[derive(Clone, Copy)]
pub enum SourceFault {
    /// The file is too long, a device failed, or memory is out.
    Plain(Fault),
    /// The first line with a fault, and its fault.
    Line(LinesFault),
}

impl From<ReadFault> for SourceFault {
    ghost from_gives = { λ given made. made ≡ spec.fault_of_read given };

    fn from(given: ReadFault) -> SourceFault {
        SourceFault::Plain(Fault::from(given))
    }
}

impl From<LinesRefusal> for SourceFault {
    ghost from_gives = { λ given made. made ≡ spec.fault_of_lines given };

    fn from(given: LinesRefusal) -> SourceFault {
        match given {
            LinesRefusal::Line(fault) => SourceFault::Line(fault),
            LinesRefusal::NoMemory => SourceFault::Plain(Fault::NoMemory),
        }
    }
}

/// The source lines of a text, which is not too long.
fn lines_of(alloc: Global, text: &[u8]) -> Result<SourceLines, SourceFault>
    requires { length text.now ≤ INPUT_LIMIT }
    ensures ok { IfOk result (λ lines. spec.lines_of text.now ≡ Ok lines) }
    ensures err { IfErr result (spec.IsTold (spec.lines_of text.now)) }
    ensures reader { spec.fails_by spec.is_read result ≡ false }
    ensures writer { spec.fails_by spec.is_write result ≡ false }
{
    match read_lines(alloc, text) {
        Ok(lines) => Ok(lines),
        Err(fault) => Err(SourceFault::from(fault)),
    }
}

/// Reads a file of source lines.
#[tactic(auto, unfolding(crate::specs::SourceFile::source_of))]
fn read_source<R: Read>(alloc: Global, reader: &mut Flagged<R>) -> Result<SourceLines, SourceFault>
    ensures ok { IfOk result (λ lines. IfSome (R.remaining (flag.device reader.old)) (λ bytes.
        spec.source_of bytes ≡ Ok lines)) }
    ensures err { IfErr result (λ fault. IfSome (R.remaining (flag.device reader.old)) (λ bytes.
        spec.IsTold (spec.source_of bytes) fault)) }
    ensures reader { flag.has_failed reader.new ≡ (flag.has_failed reader.old || spec.fails_by spec.is_read result) }
    ensures writer { spec.fails_by spec.is_write result ≡ false }
{
    let bytes = read_whole(alloc, reader, INPUT_LIMIT)?;
    lines_of(alloc, &bytes)
}

/// Reads a file of source lines, where one is given.
pub fn read_source_if<R: Read>(
    alloc: Global,
    file: &mut Option<Flagged<R>>,
) -> Result<Option<SourceLines>, SourceFault>
    ensures ok { IfOk result (λ lines. IfSome (spec.bytes_if R.remaining file.old) (λ bytes.
        spec.source_in bytes ≡ Ok lines)) }
    ensures err { IfErr result (λ fault. IfSome (spec.bytes_if R.remaining file.old) (λ bytes.
        spec.IsTold (spec.source_in bytes) fault)) }
    ensures reader { option_map_or flag.has_failed file.new false
        ≡ (option_map_or flag.has_failed file.old false || spec.fails_by spec.is_read result) }
    ensures writer { spec.fails_by spec.is_write result ≡ false }
{
    match file {
        None => Ok(None),
        Some(reader) => match read_source(alloc, reader) {
            Ok(lines) => Ok(Some(lines)),
            Err(fault) => Err(fault),
        },
    }
}

/// An image, and the lines of its sources, where they are known.
#[derive(Drop)]
pub struct Sourced {
    pub image: Image,
    pub lines: Option<SourceLines>,
}

impl Sourced {
    /// The symbols of the image, with the lines.
    pub fn symbols<'a>(&'a self, alloc: Global) -> Result<SymbolTable<'a>, NoMemory>
        ensures image { IfOk result (λ symbols. symbols.image ≡ self.now.image) }
        ensures lines { IfOk result (λ symbols. symbols.lines ≡ unwrap_or self.now.lines []) }
    {
        let symbols = SymbolTable::new(alloc, &self.image)?;
        match &self.lines {
            Some(lines) => Ok(symbols.with_lines(lines)),
            None => Ok(symbols),
        }
    }
}

/// The warning of a file of source lines that is of another program.
pub const MISS_WORDS: &str =
    "the file of --lines names no instruction of the image: was it made from another program?";

/// Whether lines have frames of an instruction of a segment.
fn reach_code(lines: &SourceLines, segment: &Region) -> bool
    ensures { result ≡ (segment.now.x && reach segment.now.start (end_of segment.now) lines.now) }
{
    segment.x
        && lines.reach(
            segment.start,
            u64::from(segment.start) + u64::from(segment.len),
        )
}

/// Whether lines have frames of an instruction of an image.
fn reach_image(lines: &SourceLines, image: &Image) -> bool
    ensures { result ≡ spec.reach_image image.now lines.now }
{
    image
        .segments()
        .iter()
        .any(|segment| reach_code(lines, segment))
}

/// Whether lines, where they are given, have none.
pub fn lines_miss(image: &Image, lines: &Option<SourceLines>) -> bool
    ensures { result ≡ spec.lines_miss image.now lines.now }
{
    match lines {
        None => false,
        Some(lines) => !reach_image(lines, image),
    }
}
