ghost use Rattle.std.specs.Prelude.{◌≡◌, ◌+◌, ◌++◌, ◌-◌, ◌^◌, ◌<◌, ◌≤◌, false, ⊤, refl, None, is_some, IsTrue, IfOk, IfSome, All, HoldsAt, length, map};
ghost use Rattle.rv_memory.specs.Extent.{IsExtent, span, filled};
ghost use Rattle.rv_memory.specs.Memory as spec;
ghost use Rattle.rv_memory.specs.internal.Flat.{number_at, put_at};
ghost use Rattle.rv_memory.specs.internal.Code.{IsCode};
ghost use Rattle.rv_memory.specs.internal.Index.{Skips};

use crate::code::Code;
use crate::copies::{AT_ONCE, add_copies};
use crate::fit::fault_of_both;
use crate::index::{first_of, index_of};
use crate::region::Region;
use crate::store::{ByteStore, Fork, MemFault, Need, NoMemory, Steady};
use std::alloc::Global;
use std::marker::Model;

/// The store that keeps every byte of its regions, the zeros too. It takes its memory when it is
/// made, and none after.
#[derive(Drop)]
pub struct Flat {
    regions: Vec<Region>,
    /// Where an access looks for its region, from its block on.
    firsts: Vec<u16>,
    code: Code,
}

impl Model for Flat {
    ghost use Rattle.rv_memory.specs.Memory.{Memory};
    ghost use Rattle.rv_memory.specs.internal.Code.{IsCode};
    ghost use Rattle.rv_memory.specs.internal.Flat.{IsFlat};

    ghost Value = { Memory };

    ghost view = { λ a. a.regions.items };

    ghost invariant = { λ a. IsFlat a.regions.items a.firsts.items × IsCode a.regions.items a.code };
}

impl ByteStore for Flat {
    ghost memory = { λ s. s };

    ghost is_ready = { λ s address size. ⊤ };

    ghost can_refuse = { false };

    fn make_of_both(alloc: Global, first: &[Region], second: &[Region]) -> Result<Flat, MemFault> {
        if let Some(fault) = fault_of_both(first, second) {
            return Err(fault);
        }
        match keep(alloc, first, second) {
            Ok(flat) => Ok(flat),
            Err(NoMemory) => Err(MemFault::NoMemory),
        }
    }

    #[inline]
    #[tactic(auto, using(crate::proofs::LookFrom::skips))]
    fn permits(&self, address: u32, size: u8, need: Need) -> bool {
        let first = first_of(&self.firsts, address);
        find_permitted(&self.regions, first, address, size, need).is_some()
    }

    #[inline]
    #[tactic(auto, using(crate::proofs::Places::load_found, crate::proofs::LookFrom::skips))]
    fn load(&self, address: u32, size: u8) -> u32 {
        let first = first_of(&self.firsts, address);
        let region = &self.regions[find(&self.regions, first, address, size)];
        number_at(&region.bytes, (address - region.start) as usize, size)
    }

    #[inline(always)]
    #[tactic(auto, using(crate::proofs::Places::load_found, crate::proofs::LookFrom::skips))]
    fn load_permitted(&self, address: u32, size: u8, need: Need) -> Option<u32> {
        let first = first_of(&self.firsts, address);
        let region = &self.regions[find_permitted(&self.regions, first, address, size, need)?];
        Some(number_at(&region.bytes, (address - region.start) as usize, size))
    }

    #[inline(always)]
    fn fetch_at_once(&self, address: u32) -> Option<u32> {
        let offset = self.code.offset(address)?;
        Some(number_at(&self.regions[self.code.place].bytes, offset as usize, 4))
    }

    #[inline]
    fn ready(&mut self, _address: u32, _size: u8) -> Result<(), NoMemory> {
        Ok(())
    }

    #[inline]
    #[tactic(auto, using(crate::proofs::Places::store_found, crate::proofs::LookFrom::skips))]
    fn store(&mut self, address: u32, size: u8, value: u32) {
        let first = first_of(&self.firsts, address);
        let region = find(&self.regions, first, address, size);
        put(&mut self.regions[region], address, size, value);
    }

    #[inline(always)]
    #[tactic(auto, using(crate::proofs::Places::store_found, crate::proofs::LookFrom::skips))]
    fn store_permitted(&mut self, address: u32, size: u8, value: u32, need: Need) -> bool {
        let first = first_of(&self.firsts, address);
        match find_permitted(&self.regions, first, address, size, need) {
            None => false,
            Some(place) => {
                put(&mut self.regions[place], address, size, value);
                true
            }
        }
    }
}

/// All bytes are copied.
impl Fork for Flat {
    fn fork(&mut self) -> Result<Flat, NoMemory> {
        let regions = copy_all(&self.regions)?;
        let firsts = self.firsts.clone()?;
        Ok(Flat {
            regions,
            firsts,
            code: self.code,
        })
    }
}

impl Steady for Flat {
    ghost never_refuses = { refl };
}

/// Whether the bytes lie wholly within the region.
#[inline(always)]
fn holds(region: &Region, address: u32, size: u8) -> bool
    ensures { result ≡ spec.holds region.now address size }
{
    region.start <= address
        && u64::from(address - region.start) + u64::from(size) <= u64::from(region.len)
}

#[inline(always)]
fn allows(region: &Region, need: Need) -> bool
    ensures { result ≡ spec.allows region.now need }
{
    match need {
        Need::Nothing => true,
        Need::Read => region.r,
        Need::Write => region.w,
        Need::ReadWrite => region.r && region.w,
        Need::Execute => region.x,
    }
}

/// The place of a region that the bytes lie in, where none before `first` has them.
#[inline]
fn find(regions: &[Region], first: usize, address: u32, size: u8) -> usize
    requires some { IsTrue (spec.permits regions.now address size Need.Nothing) }
    requires skips { Skips regions.now first address size Need.Nothing }
    ensures within { result < length regions.now }
    ensures holds { HoldsAt (λ e. IsTrue (spec.holds e address size)) regions.now result }
{
    for place in first..regions.len() {
        if holds(&regions[place], address, size) {
            return place;
        }
    }
    unreachable!()
}

/// The place of a region that the bytes lie in and that has the permissions, where none before `first` does.
#[inline(always)]
fn find_permitted(
    regions: &[Region],
    first: usize,
    address: u32,
    size: u8,
    need: Need,
) -> Option<usize>
    requires { Skips regions.now first address size need }
    ensures permitted { is_some result ≡ spec.permits regions.now address size need }
    ensures within { IfSome result (λ place. place < length regions.now) }
    ensures holds { IfSome result (HoldsAt (λ e. IsTrue (spec.holds e address size)) regions.now) }
{
    for place in first..regions.len() {
        let region = &regions[place];
        if holds(region, address, size) && allows(region, need) {
            return Some(place);
        }
    }
    None
}

/// The `size` bytes at `offset` as a little-endian number.
#[inline(always)]
pub(crate) fn number_at(bytes: &[u8], offset: usize, size: u8) -> u32
    requires size { spec.IsSize size }
    requires within { offset + size ≤ length bytes.now }
    ensures value { result ≡ number_at bytes.now offset size }
    ensures below { result < 256 ^ size }
{
    match size {
        1 => u32::from(bytes[offset]),
        2 => u32::from(bytes[offset]) + (u32::from(bytes[offset + 1]) << 8),
        _ => match bytes[offset..offset + 4].try_into() {
            Ok(word) => u32::from_le_bytes(word),
            Err(_) => unreachable!(),
        },
    }
}

/// Puts the low `size` bytes of the number at `offset`, the least significant first.
#[inline(always)]
pub(crate) fn put_at(bytes: &mut [u8], offset: usize, size: u8, value: u32)
    requires size { spec.IsSize size }
    requires within { offset + size ≤ length bytes.old }
    ensures { bytes.new ≡ put_at bytes.old offset size value }
{
    match size {
        1 => bytes[offset] = (value % 256) as u8,
        2 => {
            bytes[offset] = (value % 256) as u8;
            bytes[offset + 1] = (value / 256 % 256) as u8;
        }
        _ => {
            bytes[offset] = (value % 256) as u8;
            bytes[offset + 1] = (value / 256 % 256) as u8;
            bytes[offset + 2] = (value / 65_536 % 256) as u8;
            bytes[offset + 3] = (value / 16_777_216) as u8;
        }
    }
}

/// Puts the low `size` bytes of the number from the address on.
#[inline(always)]
fn put(region: &mut Region, address: u32, size: u8, value: u32)
    requires size { spec.IsSize size }
    requires start { region.old.start ≤ address }
    requires end { address - region.old.start + size ≤ length region.old.bytes }
    ensures put { region.new ≡ record region.old { bytes = put_at region.old.bytes (address - region.old.start) size value } }
    ensures span { span region.new ≡ span region.old }
    ensures length { length region.new.bytes ≡ length region.old.bytes }
{
    let offset = (address - region.start) as usize;
    put_at(&mut region.bytes, offset, size, value);
}

/// The store of regions that passed the tests.
fn keep(alloc: Global, first: &[Region], second: &[Region]) -> Result<Flat, NoMemory>
    requires first { All IsExtent first.now }
    requires second { All IsExtent second.now }
    requires passed { spec.fault_of (first.now ++ second.now) ≡ None }
    ensures { IfOk result (λ flat. flat ≡ spec.memory_of (first.now ++ second.now)) }
{
    let regions = fill_both(alloc, first, second)?;
    let firsts = index_of(alloc, &regions)?;
    let code = code_of(&regions);
    Ok(Flat {
        regions,
        firsts,
        code,
    })
}

/// The first executable region, where there is one.
fn code_of(regions: &[Region]) -> Code
    ensures { IsCode regions.now result }
{
    match regions.iter().position(|region| region.x) {
        Some(place) => Code::at(place, &regions[place]),
        None => Code::none(),
    }
}

/// The region with its zeros written out. Each byte is written once.
fn fill(alloc: Global, region: &Region) -> Result<Region, NoMemory>
    requires { IsExtent region.now }
    ensures { IfOk result (λ full. full ≡ filled region.now) }
{
    let len = region.len as usize;
    let mut bytes = Vec::with_capacity(alloc, len)?;
    bytes.extend_from_slice(&region.bytes)?;
    add_copies(&mut bytes, &[0; AT_ONCE], 0, len - region.bytes.len())?;
    Ok(Region {
        start: region.start,
        bytes,
        len: region.len,
        r: region.r,
        w: region.w,
        x: region.x,
    })
}

fn fill_all(alloc: Global, regions: &[Region]) -> Result<Vec<Region>, NoMemory>
    requires { All IsExtent regions.now }
    ensures { IfOk result (λ all. all.items ≡ map filled regions.now) }
{
    let mut all = Vec::with_capacity(alloc, regions.len())?;
    for region in regions {
        all.push(fill(alloc, region)?)?;
    }
    Ok(all)
}

pub(crate) fn fill_both(
    alloc: Global,
    first: &[Region],
    second: &[Region],
) -> Result<Vec<Region>, NoMemory>
    requires first { All IsExtent first.now }
    requires second { All IsExtent second.now }
    ensures { IfOk result (λ all. all.items ≡ map filled (first.now ++ second.now)) }
{
    let mut all = fill_all(alloc, first)?;
    let mut more = fill_all(alloc, second)?;
    all.append(&mut more)?;
    Ok(all)
}

fn copy_all(regions: &Vec<Region>) -> Result<Vec<Region>, NoMemory>
    ensures { IfOk result (λ copies. copies.items ≡ regions.now.items) }
{
    let alloc = *regions.allocator();
    let mut copies = Vec::with_capacity(alloc, regions.len())?;
    for region in regions {
        copies.push(region.copy(alloc)?)?;
    }
    Ok(copies)
}
