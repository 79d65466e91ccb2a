//! Loading: every test in order, and then the image.
ghost use Rattle.std.specs.Prelude.{◌≡◌, IfOk, IfErr, Ok};
ghost use Rattle.rv_elf.specs.Loaded.{loaded, refusal};

use crate::fault::LoadFault;
use crate::header::header_of;
use crate::image::{Image, tested_image};
use crate::segments::{each_segment_test, loaded_headers, segments};
use crate::stretch::segments_test;
use crate::symbols::symbol_table;
use std::alloc::Global;

/// The image that a file describes (System V ABI, ELF32), or the first test that the file fails, in the
/// order of `specs/Loaded.antt`. Memory is asked for after the last test, so `NoMemory` comes last.
#[tactic(auto, unfolding(crate::specs::Loaded::loaded))]
pub fn load(alloc: Global, bytes: &[u8]) -> Result<Image, LoadFault>
    ensures ok { IfOk result (λ image. loaded bytes.now ≡ Ok image) }
    ensures err { IfErr result (λ fault. fault ≡ refusal (loaded bytes.now)) }
{
    let header = header_of(bytes)?;
    let headers = loaded_headers(&header, bytes)?;
    each_segment_test(bytes, headers.as_slice())?;
    segments_test(header.e_entry, headers.as_slice())?;
    let table = symbol_table(&header, bytes)?;
    let names = table.names(alloc);
    table.test(&names)?;
    names.ready()?;
    let segments = segments(alloc, bytes, headers.as_slice())?;
    let symbols = table.symbols(alloc, &names)?;
    Ok(tested_image(header.e_entry, segments, symbols))
}
