//! The segments of a file, from its program headers.
ghost use Rattle.std.specs.Prelude.{◌≡◌, ◌*◌, ◌≤◌, map, length, take, drop, IsTrue, IfOk};
ghost use Rattle.std.specs.List.{All, filter, list_any};
ghost use Rattle.rv_elf.specs.Layout as layout_spec;
ghost use Rattle.rv_elf.specs.Loaded as spec;

use crate::fault::LoadFault;
use crate::headers::Headers;
use crate::layout::{FileHeader, PROGRAM_HEADER_SIZE, ProgramHeader, part};
use rv_memory::region::Region;
use rv_memory::store::NoMemory;
use std::alloc::Global;

const PT_LOAD: u32 = 1;

const PT_DYNAMIC: u32 = 2;

const PT_INTERP: u32 = 3;

const PF_X: u32 = 1;

const PF_W: u32 = 2;

const PF_R: u32 = 4;

fn is_dynamic(header: &ProgramHeader) -> bool
    ensures { result ≡ spec.is_dynamic header.now }
{
    header.p_type == PT_DYNAMIC || header.p_type == PT_INTERP
}

fn is_loaded(header: &ProgramHeader) -> bool
    ensures { result ≡ spec.is_loaded header.now }
{
    header.p_type == PT_LOAD && header.p_memsz != 0
}

fn has_dynamic(headers: &[ProgramHeader]) -> bool
    ensures { result ≡ list_any spec.is_dynamic headers.now }
{
    headers.iter().any(is_dynamic)
}

/// The program headers of a table of `count`.
fn headers_in(table: &[u8], count: u16) -> Headers
    requires size { length table.now ≡ 32 * count }
    requires few { count ≤ 64 }
    ensures { result ≡ layout_spec.records layout_spec.program_header 32 count table.now }
{
    let mut headers = Headers::new();
    let mut rest = table;
    for _ in 0..count {
        headers.push(ProgramHeader::read(rest));
        let (_, after) = rest.split_at(PROGRAM_HEADER_SIZE);
        rest = after;
    }
    headers
}

/// Those of the headers that describe a segment with a byte of memory.
fn loaded(headers: &[ProgramHeader]) -> Headers
    requires { length headers.now ≤ 64 }
    ensures those { result ≡ filter spec.is_loaded headers.now }
    ensures each { All (λ h. IsTrue (spec.is_loaded h)) result }
{
    let mut loaded = Headers::new();
    for header in headers {
        if is_loaded(header) {
            loaded.push(*header);
        }
    }
    loaded
}

/// The program headers of the file's segments, in order.
#[tactic(auto, unfolding(crate::specs::Loaded::loaded_headers))]
pub fn loaded_headers(header: &FileHeader, bytes: &[u8]) -> Result<Headers, LoadFault>
    ensures value { result ≡ spec.loaded_headers header.now bytes.now }
    ensures each { IfOk result (λ found. All (λ h. IsTrue (spec.is_loaded h)) found) }
{
    if header.e_phnum > 64 {
        return Err(LoadFault::TooManySegments);
    }
    let size = 32 * u32::from(header.e_phnum);
    let Some(table) = part(bytes, header.e_phoff, size) else {
        return Err(LoadFault::Truncated);
    };
    let headers = headers_in(table, header.e_phnum);
    if has_dynamic(headers.as_slice()) {
        return Err(LoadFault::NotStatic);
    }
    Ok(loaded(headers.as_slice()))
}

#[tactic(auto, unfolding(crate::specs::Loaded::segment_test))]
fn segment_test(bytes: &[u8], header: &ProgramHeader) -> Result<(), LoadFault>
    ensures { result ≡ spec.segment_test bytes.now header.now }
{
    if header.p_filesz > header.p_memsz {
        return Err(LoadFault::FileLongerThanMemory);
    }
    if part(bytes, header.p_offset, header.p_filesz).is_none() {
        return Err(LoadFault::Truncated);
    }
    if u64::from(header.p_vaddr) + u64::from(header.p_memsz) > 1 << 32 {
        return Err(LoadFault::PastEnd);
    }
    Ok(())
}

/// What is wanted of each segment by itself, in order.
pub fn each_segment_test(bytes: &[u8], headers: &[ProgramHeader]) -> Result<(), LoadFault>
    ensures { result ≡ spec.each_segment_test bytes.now headers.now }
{
    for header in headers {
        segment_test(bytes, header)?;
    }
    Ok(())
}

/// The `size` bytes from `offset` on, as far as there are any.
fn bytes_at(bytes: &[u8], offset: u32, size: u32) -> &[u8]
    ensures { result.now ≡ take size (drop offset bytes.now) }
{
    let (_, after) = bytes.split_at(bytes.len().min(offset as usize));
    let (found, _) = after.split_at(after.len().min(size as usize));
    found
}

/// The segment that a program header describes.
fn segment(alloc: Global, bytes: &[u8], header: &ProgramHeader) -> Result<Region, NoMemory>
    ensures { IfOk result (λ region. region ≡ spec.segment bytes.now header.now) }
{
    Ok(Region {
        start: header.p_vaddr,
        bytes: Vec::from_slice(alloc, bytes_at(bytes, header.p_offset, header.p_filesz))?,
        len: header.p_memsz,
        r: header.p_flags & PF_R != 0,
        w: header.p_flags & PF_W != 0,
        x: header.p_flags & PF_X != 0,
    })
}

/// The segments that the program headers describe.
pub fn segments(
    alloc: Global,
    bytes: &[u8],
    headers: &[ProgramHeader],
) -> Result<Vec<Region>, NoMemory>
    ensures { IfOk result (λ segments. segments.items ≡ map (spec.segment bytes.now) headers.now) }
{
    let mut segments = Vec::new(alloc);
    for header in headers {
        segments.push(segment(alloc, bytes, header)?)?;
    }
    Ok(segments)
}
