//! Images that commands read.
ghost use Rattle.std.specs.Prelude.{◌≡◌, ◌≤◌, ◌||◌, false, Ok, IfOk, IfErr, IfSome, length};
ghost use Rattle.rv_memory.specs.Flagged as flag;
ghost use Rattle.rv_faults.specs.Fault.{IsToldFault, fails_by, is_read, is_write};
ghost use Rattle.rv_engines.specs.Images as spec;

use crate::digest::digest_of;
use rv_elf::{Image, load};
use rv_faults::fault::Fault;
use rv_memory::flagged::{Flagged, INPUT_LIMIT, read_whole};
use std::alloc::Global;
use std::io::Read;

/// The image of the bytes of a file, which are not too many.
#[tactic(auto, unfolding(crate::specs::Images::image_of))]
pub fn image_of(alloc: Global, bytes: &[u8]) -> Result<Image, Fault>
    requires { length bytes.now ≤ INPUT_LIMIT }
    ensures ok { IfOk result (λ image. spec.image_of bytes.now ≡ Ok image) }
    ensures err { IfErr result (IsToldFault (spec.image_of bytes.now)) }
    ensures reader { fails_by is_read result ≡ false }
    ensures writer { fails_by is_write result ≡ false }
{
    match load(alloc, bytes) {
        Ok(image) => Ok(image),
        Err(fault) => Err(Fault::from(fault)),
    }
}

/// Reads an image.
#[tactic(auto, unfolding(crate::specs::Images::image_of))]
pub fn read_image<R: Read>(alloc: Global, reader: &mut Flagged<R>) -> Result<Image, Fault>
    ensures ok { IfOk result (λ image. IfSome (R.remaining (flag.device reader.old)) (λ bytes.
        spec.image_of bytes ≡ Ok image)) }
    ensures err { IfErr result (λ fault. IfSome (R.remaining (flag.device reader.old)) (λ bytes.
        IsToldFault (spec.image_of bytes) fault)) }
    ensures reader { flag.has_failed reader.new ≡ (flag.has_failed reader.old || fails_by is_read result) }
    ensures writer { fails_by is_write result ≡ false }
{
    let bytes = read_whole(alloc, reader, INPUT_LIMIT)?;
    image_of(alloc, &bytes)
}

/// Reads an image, with the digest of its file.
#[tactic(auto, unfolding(crate::specs::Images::image_of))]
pub fn read_digested<R: Read>(
    alloc: Global,
    reader: &mut Flagged<R>,
) -> Result<(Image, String), Fault>
    ensures ok { IfOk result (λ read. IfSome (R.remaining (flag.device reader.old)) (λ bytes.
        spec.image_of bytes ≡ Ok read.0)) }
    ensures err { IfErr result (λ fault. IfSome (R.remaining (flag.device reader.old)) (λ bytes.
        IsToldFault (spec.image_of bytes) fault)) }
    ensures reader { flag.has_failed reader.new ≡ (flag.has_failed reader.old || fails_by is_read result) }
    ensures writer { fails_by is_write result ≡ false }
{
    let bytes = read_whole(alloc, reader, INPUT_LIMIT)?;
    let digest = digest_of(alloc, &bytes)?;
    Ok((image_of(alloc, &bytes)?, digest))
}
