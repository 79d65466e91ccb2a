//! The lists of files: races that are to be ignored, and races that are expected; and what is aimed at.
ghost use Rattle.std.specs.Prelude.{◌≡◌, ◌||◌, false, Ok, IfOk, IfErr, IfSome};
ghost use Rattle.std.specs.Option.{option_map_or};
ghost use Rattle.rv_memory.specs.Flagged as flag;
ghost use Rattle.rv_shown.specs.Asked.{asked};
ghost use Rattle.rv_hunt.specs.engine.Hunting as spec;
ghost use Rattle.rv_tables.specs.merge.FileFault.{IsTold, fails_by, is_read, is_write};
ghost use Rattle.rv_tables.specs.merge.Ignore.{aimed_in, naming_of};
ghost use Rattle.rv_tables.specs.merge.Merge as merge;

use rv_elf::Image;
use rv_engines::built::Built;
use rv_lines::lines::SourceLines;
use rv_memory::flagged::Flagged;
use rv_shown::options::HuntOptions;
use rv_tables::merge::fault::FileFault;
use rv_tables::merge::ignore::{Ignores, aimed, read_ignores};
use rv_tables::merge::known::{self, Known};
use std::alloc::Global;
use std::io::Read;

/// The source lines, where they are given, the races that are to be ignored, those that are expected, the line of what is aimed at, if
/// something is, and what the image was built with.
#[derive(Drop)]
pub(crate) struct Lists {
    pub(crate) source: Option<SourceLines>,
    pub(crate) ignored: Ignores,
    pub(crate) expected: Option<Known>,
    pub(crate) aim: Ignores,
    pub(crate) built: Built,
}

/// Reads the list of races that are to be ignored, where one is given.
pub(crate) fn read_ignored<R: Read>(
    alloc: Global,
    image: &Image,
    source: &Option<SourceLines>,
    list: &mut Option<Flagged<R>>,
) -> Result<Ignores, FileFault>
    ensures ok { IfOk result (λ lines. IfSome (merge.bytes_if R.remaining list.old) (λ bytes.
        spec.ignored_in (naming_of image.now source.now) bytes ≡ Ok lines)) }
    ensures err { IfErr result (λ fault. IfSome (merge.bytes_if R.remaining list.old) (λ bytes.
        IsTold (spec.ignored_in (naming_of image.now source.now) bytes) fault)) }
    ensures reader { option_map_or flag.has_failed list.new false
        ≡ (option_map_or flag.has_failed list.old false || fails_by is_read result) }
    ensures writer { fails_by is_write result ≡ false }
{
    match list {
        None => Ok(Ignores::none(alloc)),
        Some(reader) => read_ignores(alloc, image, source, reader),
    }
}

/// Reads the table or the list of the races that are expected, where one is given.
pub(crate) fn read_known<R: Read>(
    alloc: Global,
    table: &mut Option<Flagged<R>>,
) -> Result<Option<Known>, FileFault>
    ensures ok { IfOk result (λ known. IfSome (merge.bytes_if R.remaining table.old) (λ bytes.
        spec.expected_in bytes ≡ Ok known)) }
    ensures err { IfErr result (λ fault. IfSome (merge.bytes_if R.remaining table.old) (λ bytes.
        IsTold (spec.expected_in bytes) fault)) }
    ensures reader { option_map_or flag.has_failed table.new false
        ≡ (option_map_or flag.has_failed table.old false || fails_by is_read result) }
    ensures writer { fails_by is_write result ≡ false }
{
    match table {
        None => Ok(None),
        Some(reader) => match known::read_known(alloc, reader) {
            Ok(known) => Ok(Some(known)),
            Err(fault) => Err(fault),
        },
    }
}

/// The line of what is aimed at, none where nothing is.
pub(crate) fn read_aim(
    alloc: Global,
    image: &Image,
    options: &HuntOptions<'_, '_>,
) -> Result<Ignores, FileFault>
    ensures ok { IfOk result (λ lines. aimed_in image.now (asked options.now).aim ≡ Ok lines) }
    ensures err { IfErr result (IsTold (aimed_in image.now (asked options.now).aim)) }
    ensures reader { fails_by is_read result ≡ false }
    ensures writer { fails_by is_write result ≡ false }
{
    match options.aim {
        None => Ok(Ignores::none(alloc)),
        Some(sides) => aimed(alloc, image, sides.one.as_bytes(), sides.other.as_bytes()),
    }
}
