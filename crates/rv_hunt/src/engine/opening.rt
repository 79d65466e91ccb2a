//! What `hunt` reads before it makes a run.
ghost use Rattle.std.specs.Prelude.{◌≡◌, ◌||◌, false, Ok, IfOk, IfErr, IfSome};
ghost use Rattle.rv_memory.specs.Flagged as flag;
ghost use Rattle.rv_engines.specs.Built.{built_of};
ghost use Rattle.rv_faults.specs.CommandFault.{IsTold, refusal, fails_by, is_read, is_thread, is_write};
ghost use Rattle.rv_faults.specs.Fault as plain;
ghost use Rattle.rv_engines.specs.Images.{image_of};
ghost use Rattle.rv_tables.specs.Origin.{image_digits};
ghost use Rattle.rv_shown.specs.Asked.{asked};
ghost use Rattle.rv_hunt.specs.engine.HuntFault as hunt;
ghost use Rattle.rv_hunt.specs.engine.Hunting.{hunt_of};
ghost use Rattle.rv_hunt.specs.internal.Opened as spec;
ghost use Rattle.rv_hunt.specs.internal.Opened.{hunt_by, hunt_in, hunt_with};
ghost use Rattle.rv_tables.specs.merge.Ignore.{aimed_in};

use crate::engine::fault::HuntFault;
use crate::engine::lists::read_aim;
use rv_elf::Image;
use rv_engines::built::{Built, built_of};
use rv_engines::digest::digest_of;
use rv_engines::image::image_of;
use rv_engines::run::lists::{read_named, read_skipped};
use rv_faults::command::CommandFault;
use rv_faults::fault::Fault;
use rv_memory::flagged::{Flagged, INPUT_LIMIT, read_whole};
use rv_prune::named_bytes::NamedBytes;
use rv_shown::options::HuntOptions;
use rv_tables::merge::ignore::Ignores;
use rv_tables::origin::image_digits;
use std::alloc::Global;
use std::io::Read;

/// The addresses that are no sites, the bytes of the listed names, and those of the idle functions.
#[derive(Drop)]
pub struct Listed {
    pub excluded: Vec<u32>,
    pub ranges: NamedBytes,
    pub idle: NamedBytes,
}

/// An image, the first digits of its file's digest and all of them, the lists of the line, and what the image was built with.
#[derive(Drop)]
pub struct Opened {
    pub image: Image,
    pub digits: Vec<u8>,
    pub digest: String,
    pub lists: Listed,
    pub built: Built,
}

/// Reads the lists.
pub(crate) fn read_lists<'a>(
    alloc: Global,
    options: &HuntOptions<'a, '_>,
    image: &Image,
) -> Result<Listed, CommandFault<'a>>
    ensures ok { IfOk result (λ lists. hunt_with (asked options.now) image.now ≡ Ok (hunt_by (asked options.now) image.now lists)) }
    ensures err { IfErr result (λ fault. IsTold (hunt_with (asked options.now) image.now) (refusal fault)) }
    ensures reader { fails_by is_read result ≡ false }
    ensures writer { fails_by is_write result ≡ false }
    ensures thread { fails_by is_thread result ≡ false }
{
    let excluded = match read_skipped(alloc, options.skip) {
        Ok(excluded) => excluded,
        Err(fault) => return Err(fault),
    };
    let ranges = match read_named(alloc, image, options.named) {
        Ok(ranges) => ranges,
        Err(fault) => return Err(fault),
    };
    match read_named(alloc, image, options.idle) {
        Ok(idle) => Ok(Listed {
            excluded,
            ranges,
            idle,
        }),
        Err(fault) => Err(fault),
    }
}

/// What the bytes of an image's file say.
#[derive(Drop)]
pub struct FileRead {
    pub image: Image,
    pub digits: Vec<u8>,
    pub digest: String,
    pub built: Built,
}

/// Reads the file of an image.
#[tactic(auto, unfolding(rv_engines::specs::Images::image_of))]
pub(crate) fn read_file<R: Read>(alloc: Global, reader: &mut Flagged<R>) -> Result<FileRead, Fault>
    ensures image { IfOk result (λ read. IfSome (R.remaining (flag.device reader.old)) (λ bytes.
        image_of bytes ≡ Ok read.image)) }
    ensures digits { IfOk result (λ read. IfSome (R.remaining (flag.device reader.old)) (λ bytes.
        read.digits.items ≡ image_digits bytes)) }
    ensures built { IfOk result (λ read. IfSome (R.remaining (flag.device reader.old)) (λ bytes.
        read.built ≡ built_of bytes)) }
    ensures err { IfErr result (λ fault. IfSome (R.remaining (flag.device reader.old)) (λ bytes.
        plain.IsToldFault (image_of bytes) fault)) }
    ensures reader { flag.has_failed reader.new ≡ (flag.has_failed reader.old || plain.fails_by plain.is_read result) }
    ensures writer { plain.fails_by plain.is_write result ≡ false }
{
    let bytes = read_whole(alloc, reader, INPUT_LIMIT)?;
    let digits = image_digits(alloc, &bytes)?;
    let digest = digest_of(alloc, &bytes)?;
    let built = built_of(&bytes);
    Ok(FileRead {
        image: image_of(alloc, &bytes)?,
        digits,
        digest,
        built,
    })
}

/// Reads the lists of the line, and looks for what is aimed at before the idle functions.
fn read_line<'a>(
    alloc: Global,
    options: &HuntOptions<'a, '_>,
    image: &Image,
) -> Result<(Listed, Ignores), HuntFault<'a>>
    ensures ok { IfOk result (λ read. hunt_with (asked options.now) image.now ≡ Ok (hunt_by (asked options.now) image.now read.0)) }
    ensures aim { IfOk result (λ read. aimed_in image.now (asked options.now).aim ≡ Ok read.1) }
    ensures err { IfErr result (spec.IsLineTold (asked options.now) image.now) }
    ensures reader { hunt.fails_by hunt.is_read result ≡ false }
    ensures writer { hunt.fails_by hunt.is_write result ≡ false }
{
    let excluded = match read_skipped(alloc, options.skip) {
        Ok(excluded) => excluded,
        Err(fault) => return Err(HuntFault::Command(fault)),
    };
    let ranges = match read_named(alloc, image, options.named) {
        Ok(ranges) => ranges,
        Err(fault) => return Err(HuntFault::Command(fault)),
    };
    let aim = match read_aim(alloc, image, options) {
        Ok(aim) => aim,
        Err(fault) => return Err(HuntFault::Aimed(fault)),
    };
    match read_named(alloc, image, options.idle) {
        Ok(idle) => {
            let lists = Listed {
                excluded,
                ranges,
                idle,
            };
            Ok((lists, aim))
        }
        Err(fault) => Err(HuntFault::Command(fault)),
    }
}

/// Reads an image, and then the lists of the line, and looks for what is aimed at.
pub(crate) fn open<'a, R: Read>(
    alloc: Global,
    options: &HuntOptions<'a, '_>,
    image: &mut Flagged<R>,
) -> Result<(Opened, Ignores), HuntFault<'a>>
    ensures ok { IfOk result (λ read. IfSome (R.remaining (flag.device image.old)) (λ bytes.
        hunt_of (asked options.now) bytes ≡ Ok (hunt_in (asked options.now) read.0))) }
    ensures built { IfOk result (λ read. IfSome (R.remaining (flag.device image.old)) (λ bytes. read.0.built ≡ built_of bytes)) }
    ensures digits { IfOk result (λ read. IfSome (R.remaining (flag.device image.old)) (λ bytes.
        read.0.digits.items ≡ image_digits bytes)) }
    ensures aim { IfOk result (λ read. aimed_in read.0.image (asked options.now).aim ≡ Ok read.1) }
    ensures err { IfErr result (λ fault. IfSome (R.remaining (flag.device image.old)) (λ bytes.
        spec.IsOpenTold (asked options.now) bytes fault)) }
    ensures reader { flag.has_failed image.new ≡ (flag.has_failed image.old || hunt.fails_by hunt.is_read result) }
    ensures writer { hunt.fails_by hunt.is_write result ≡ false }
{
    let read = match read_file(alloc, image) {
        Ok(read) => read,
        Err(fault) => return Err(HuntFault::Command(CommandFault::Plain(fault))),
    };
    match read_line(alloc, options, &read.image) {
        Ok((lists, aim)) => {
            let opened = Opened {
                image: read.image,
                digits: read.digits,
                digest: read.digest,
                lists,
                built: read.built,
            };
            Ok((opened, aim))
        }
        Err(fault) => Err(fault),
    }
}
