//! The store that keeps its regions in pages, which stores share until one writes.
ghost use Rattle.std.specs.Prelude.{◌≡◌, ℕ, false, OnOk, ◌+◌, ◌++◌, ◌-◌, ◌^◌, ◌<◌, ◌≤◌, true, None, is_some, IsTrue, IfOk, IfSome, All, HoldsAt, length, map};
ghost use Rattle.std.specs.Result.{IsOk};
ghost use Rattle.rv_memory.specs.Extent.{IsExtent, IsFull};
ghost use Rattle.rv_memory.specs.Memory as spec;
ghost use Rattle.rv_memory.specs.Pages.{bytes_of, extent, is_own, memory_in, place_of, AreOwn, IsReady};
ghost use Rattle.rv_memory.specs.internal.Flat.{number_at, put_at};
ghost use Rattle.rv_memory.specs.internal.Paged.{permits_in, LieIn, SkipsIn, padded};

use crate::fit::fault_of_both;
use crate::flat::fill_both;
use crate::index::{first_of, index_of};
use crate::region::Region;
use crate::store::{ByteStore, Fork, MemFault, Need, NoMemory};
use page::PAGE_SIZE;
use pages::Pages;
use std::alloc::Global;
use std::marker::Model;
use std::rc::Rc;

pub mod page;
pub mod pages;

/// One region, its bytes in pages that stand at multiples of a page's size. Two regions in one page keep a
/// page each.
#[derive(Drop)]
pub struct Table {
    start: u32,
    pages: Pages,
    len: u32,
    r: bool,
    w: bool,
    x: bool,
}

impl Model for Table {
    ghost use Rattle.rv_memory.specs.Pages.{PagedExtent};

    ghost Value = { PagedExtent };

    ghost view = { λ a. record { start = a.start; pages = a.pages; len = a.len; r = a.r; w = a.w; x = a.x } };
}

/// The store whose pages may be shared with others. A store into a shared page wants memory for an own copy.
#[derive(Drop)]
pub struct Paged {
    tables: Vec<Table>,
    /// Where an access looks for its region, from its address on.
    firsts: Rc<Vec<u16>>,
    /// The place of the first executable region, where a fetch looks first. It is no more than a place to try.
    code: usize,
    alloc: Global,
}

impl Model for Paged {
    ghost use Rattle.std.specs.Prelude.{List};
    ghost use Rattle.rv_memory.specs.Pages.{PagedExtent, memory_in};
    ghost use Rattle.rv_memory.specs.internal.Flat.{IsFlat};

    ghost Value = { List PagedExtent };

    ghost view = { λ a. a.tables.items };

    ghost invariant = { λ a. IsFlat (memory_in a.tables.items) a.firsts.value.items };
}

impl ByteStore for Paged {
    ghost memory = { memory_in };

    ghost is_ready = { IsReady };

    ghost can_refuse = { true };

    fn make_of_both(alloc: Global, first: &[Region], second: &[Region]) -> Result<Paged, MemFault> {
        if let Some(fault) = fault_of_both(first, second) {
            return Err(fault);
        }
        match keep(alloc, first, second) {
            Ok(paged) => Ok(paged),
            Err(NoMemory) => Err(MemFault::NoMemory),
        }
    }

    #[inline]
    #[tactic(auto, using(crate::proofs::Lie::skips_in, crate::proofs::Lie::permits_is))]
    fn permits(&self, address: u32, size: u8, need: Need) -> bool {
        let first = first_of(&self.firsts, address);
        find_permitted(&self.tables, first, address, size, need).is_some()
    }

    #[inline]
    fn load(&self, address: u32, size: u8) -> u32 {
        let first = first_of(&self.firsts, address);
        let table = &self.tables[find(&self.tables, first, address, size)];
        table.load(address, size)
    }

    #[inline(always)]
    fn load_permitted(&self, address: u32, size: u8, need: Need) -> Option<u32> {
        let first = first_of(&self.firsts, address);
        match find_permitted(&self.tables, first, address, size, need) {
            None => None,
            Some(found) => {
                let table = &self.tables[found];
                Some(table.load(address, size))
            }
        }
    }

    #[inline(always)]
    fn fetch_at_once(&self, address: u32) -> Option<u32> {
        if permits_at(&self.tables, self.code, address, 4, Need::Execute) {
            let table = &self.tables[self.code];
            return Some(table.load(address, 4));
        }
        None
    }

    fn ready(&mut self, address: u32, size: u8) -> Result<(), NoMemory> {
        let first = first_of(&self.firsts, address);
        if let Some(found) = find_permitted(&self.tables, first, address, size, Need::Nothing) {
            let table = &mut self.tables[found];
            table.ready(self.alloc, address, size)?;
        }
        Ok(())
    }

    #[inline]
    fn store(&mut self, address: u32, size: u8, value: u32) {
        let first = first_of(&self.firsts, address);
        let found = find(&self.tables, first, address, size);
        let table = &mut self.tables[found];
        table.store(address, size, value);
    }

    #[inline(always)]
    fn store_permitted(&mut self, address: u32, size: u8, value: u32, need: Need) -> bool {
        let first = first_of(&self.firsts, address);
        match find_permitted(&self.tables, first, address, size, need) {
            None => false,
            Some(found) => {
                let table = &mut self.tables[found];
                table.put_or_copy(self.alloc, address, size, value)
            }
        }
    }
}

/// The pages are shared.
impl Fork for Paged {
    fn fork(&mut self) -> Result<Paged, NoMemory> {
        self.share()
    }
}

impl Paged {
    /// A second store of the same contents. From then on the two share their pages, each until it writes there.
    /// The contents of this one stay, also where memory is refused.
    pub fn share(&mut self) -> Result<Paged, NoMemory>
        ensures same { memory_in self.new ≡ memory_in self.old }
        ensures equal { IfOk result (λ copy. memory_in copy ≡ memory_in self.old) }
    {
        let tables = share_all(self.alloc, &mut self.tables)?;
        Ok(Paged {
            tables,
            firsts: self.firsts.clone()?,
            code: self.code,
            alloc: self.alloc,
        })
    }
}

impl Table {
    /// The `size` bytes from the address on as a little-endian number.
    #[inline(always)]
    fn load(&self, address: u32, size: u8) -> u32
        requires size { spec.IsSize size }
        requires lies { LieIn self.now address size }
        ensures value { result ≡ number_at (bytes_of self.now.pages) (place_of self.now address) size }
        ensures below { result < 256 ^ size }
    {
        self.pages.load(place(self, address), size)
    }

    /// Makes the pages own that the bytes stand in. The bytes stay either way.
    fn ready(&mut self, alloc: Global, address: u32, size: u8) -> Result<(), NoMemory>
        requires lies { LieIn self.old address size }
        ensures rest { self.new ≡ record self.old { pages = self.new.pages } }
        ensures bytes { bytes_of self.new.pages ≡ bytes_of self.old.pages }
        ensures keeps { (page : ℕ) → IsTrue (is_own self.old.pages page) → IsTrue (is_own self.new.pages page) }
        ensures ready { OnOk result (AreOwn self.new.pages (place_of self.old address) size) }
        ensures granted { AreOwn self.old.pages (place_of self.old address) size → IsOk result }
    {
        let at = place(self, address);
        self.pages.ready(alloc, at, size)?;
        Ok(())
    }

    /// Puts the low `size` bytes of the number from the address on, into own pages.
    #[inline(always)]
    fn store(&mut self, address: u32, size: u8, value: u32)
        requires size { spec.IsSize size }
        requires lies { LieIn self.old address size }
        requires own { AreOwn self.old.pages (place_of self.old address) size }
        ensures rest { self.new ≡ record self.old { pages = self.new.pages } }
        ensures put { bytes_of self.new.pages ≡ put_at (bytes_of self.old.pages) (place_of self.old address) size value }
        ensures owners { map (λ p. p.own) self.new.pages ≡ map (λ p. p.own) self.old.pages }
    {
        let at = place(self, address);
        self.pages.store(at, size, value);
    }

    /// The same, in own copies of its pages where they are shared; says whether there was memory for them.
    #[inline(always)]
    fn put_or_copy(&mut self, alloc: Global, address: u32, size: u8, value: u32) -> bool
        requires size { spec.IsSize size }
        requires lies { LieIn self.old address size }
        ensures rest { self.new ≡ record self.old { pages = self.new.pages } }
        ensures put { IsTrue result
            → bytes_of self.new.pages ≡ put_at (bytes_of self.old.pages) (place_of self.old address) size value }
        ensures same { (result ≡ false) → bytes_of self.new.pages ≡ bytes_of self.old.pages }
        ensures keeps { (page : ℕ) → IsTrue (is_own self.old.pages page) → IsTrue (is_own self.new.pages page) }
        ensures granted { AreOwn self.old.pages (place_of self.old address) size → IsTrue result }
    {
        let at = place(self, address);
        self.pages.put_or_copy(alloc, at, size, value)
    }

    /// A table of the same bytes that shares the pages of this one.
    fn share(&mut self, alloc: Global) -> Result<Table, NoMemory>
        ensures same { extent self.new ≡ extent self.old }
        ensures equal { IfOk result (λ copy. extent copy ≡ extent self.old) }
    {
        let pages = self.pages.share(alloc)?;
        Ok(Table {
            start: self.start,
            pages,
            len: self.len,
            r: self.r,
            w: self.w,
            x: self.x,
        })
    }
}

/// Tables that share the pages of these.
fn share_all(alloc: Global, tables: &mut Vec<Table>) -> Result<Vec<Table>, NoMemory>
    ensures same { map extent tables.new.items ≡ map extent tables.old.items }
    ensures equal { IfOk result (λ copies. map extent copies.items ≡ map extent tables.old.items) }
{
    let mut copies = Vec::with_capacity(alloc, tables.len())?;
    for found in 0..tables.len() {
        copies.push(tables[found].share(alloc)?)?;
    }
    Ok(copies)
}

/// Where the byte of the address stands in the pages of its region.
#[inline(always)]
fn place(table: &Table, address: u32) -> u32
    requires { table.now.start ≤ address }
    ensures { result ≡ place_of table.now address }
{
    address - table.start + table.start % PAGE_SIZE as u32
}

/// Whether the bytes lie wholly within the region.
#[inline(always)]
fn holds(table: &Table, address: u32, size: u8) -> bool
    ensures { result ≡ spec.holds (extent table.now) address size }
{
    table.start <= address
        && u64::from(address - table.start) + u64::from(size) <= u64::from(table.len)
}

#[inline(always)]
fn allows(table: &Table, need: Need) -> bool
    ensures { result ≡ spec.allows (extent table.now) need }
{
    match need {
        Need::Nothing => true,
        Need::Read => table.r,
        Need::Write => table.w,
        Need::ReadWrite => table.r && table.w,
        Need::Execute => table.x,
    }
}

/// Whether the region of the place, where there is one, has the bytes and the permissions.
#[inline(always)]
#[tactic(auto, using(crate::proofs::Lie::permitted_in))]
fn permits_at(tables: &[Table], place: usize, address: u32, size: u8, need: Need) -> bool
    ensures permitted { IsTrue result → IsTrue (permits_in tables.now address size need) }
    ensures within { IsTrue result → place < length tables.now }
    ensures holds { IsTrue result → HoldsAt (λ t. IsTrue (spec.holds (extent t) address size)) tables.now place }
{
    if place >= tables.len() {
        return false;
    }
    let table = &tables[place];
    holds(table, address, size) && allows(table, need)
}

/// The place of a region that the bytes lie in, where none before `first` has them.
#[inline]
fn find(tables: &[Table], first: usize, address: u32, size: u8) -> usize
    requires some { IsTrue (permits_in tables.now address size Need.Nothing) }
    requires skips { SkipsIn tables.now first address size Need.Nothing }
    ensures within { result < length tables.now }
    ensures holds { HoldsAt (λ t. IsTrue (spec.holds (extent t) address size)) tables.now result }
{
    for place in first..tables.len() {
        if holds(&tables[place], address, size) {
            return place;
        }
    }
    unreachable!()
}

/// The place of a region that the bytes lie in and that has the permissions, where none before `first` does.
#[inline(always)]
fn find_permitted(
    tables: &[Table],
    first: usize,
    address: u32,
    size: u8,
    need: Need,
) -> Option<usize>
    requires { SkipsIn tables.now first address size need }
    ensures permitted { is_some result ≡ permits_in tables.now address size need }
    ensures within { IfSome result (λ place. place < length tables.now) }
    ensures holds { IfSome result (HoldsAt (λ t. IsTrue (spec.holds (extent t) address size)) tables.now) }
{
    for place in first..tables.len() {
        let table = &tables[place];
        if holds(table, address, size) && allows(table, need) {
            return Some(place);
        }
    }
    None
}

/// The store of regions that passed the tests.
fn keep(alloc: Global, first: &[Region], second: &[Region]) -> Result<Paged, NoMemory>
    requires first { All IsExtent first.now }
    requires second { All IsExtent second.now }
    requires passed { spec.fault_of (first.now ++ second.now) ≡ None }
    ensures { IfOk result (λ paged. memory_in paged ≡ spec.memory_of (first.now ++ second.now)) }
{
    let regions = fill_both(alloc, first, second)?;
    let tables = tables_of(alloc, &regions)?;
    let firsts = Rc::new(alloc, index_of(alloc, &regions)?)?;
    let code = regions.iter().position(|region| region.x).unwrap_or(0);
    Ok(Paged {
        tables,
        firsts,
        code,
        alloc,
    })
}

fn tables_of(alloc: Global, regions: &[Region]) -> Result<Vec<Table>, NoMemory>
    requires { All IsFull regions.now }
    ensures { IfOk result (λ tables. map extent tables.items ≡ regions.now) }
{
    let mut tables = Vec::with_capacity(alloc, regions.len())?;
    for region in regions {
        tables.push(table_of(alloc, region)?)?;
    }
    Ok(tables)
}

/// The region in own pages.
fn table_of(alloc: Global, region: &Region) -> Result<Table, NoMemory>
    requires { IsFull region.now }
    ensures { IfOk result (λ table. extent table ≡ region.now) }
{
    let bytes = pad(alloc, region)?;
    Ok(Table {
        start: region.start,
        pages: Pages::make(alloc, &bytes)?,
        len: region.len,
        r: region.r,
        w: region.w,
        x: region.x,
    })
}

/// The bytes of the region's pages, with the zeros before and after its own.
fn pad(alloc: Global, region: &Region) -> Result<Vec<u8>, NoMemory>
    requires { IsFull region.now }
    ensures { IfOk result (λ bytes. bytes.items ≡ padded region.now) }
{
    let gap = region.start as usize % PAGE_SIZE;
    let used = gap + region.len as usize;
    let whole = used + (PAGE_SIZE - used % PAGE_SIZE) % PAGE_SIZE;
    let mut bytes = Vec::with_capacity(alloc, whole)?;
    bytes.resize(gap, 0)?;
    bytes.extend_from_slice(&region.bytes)?;
    bytes.resize(whole, 0)?;
    Ok(bytes)
}
