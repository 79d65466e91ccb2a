//! The pages of one region, one after another.
ghost use Rattle.std.specs.Prelude.{◌≡◌, ℕ, ◌+◌, ◌*◌, ◌/◌, ◌%◌, ◌^◌, ◌<◌, ◌≤◌, false, All, IsTrue, IfOk, OnOk, length, map, take, drop, slice_index, slice_set};
ghost use Rattle.std.specs.Result.{IsOk};
ghost use Rattle.rv_memory.specs.Memory as spec;
ghost use Rattle.rv_memory.specs.Pages.{bytes_of, is_own, AreOwn};
ghost use Rattle.rv_memory.specs.internal.Flat.{number_at, put_at};
ghost use Rattle.rv_memory.specs.internal.Paged.{IsPage};

use super::page::{PAGE_SIZE, Page};
use crate::store::NoMemory;
use std::alloc::Global;
use std::marker::Model;

#[derive(Drop)]
pub struct Pages {
    pages: Vec<Page>,
}

impl Model for Pages {
    ghost use Rattle.std.specs.Prelude.{List, All};
    ghost use Rattle.rv_memory.specs.Pages.{KeptPage};

    ghost Value = { List KeptPage };

    ghost use Rattle.rv_memory.specs.internal.Paged.{IsPage};

    ghost view = { λ a. a.pages.items };

    ghost invariant = { λ a. All IsPage a.pages.items };
}

impl Pages {
    /// Own pages of these bytes.
    pub(crate) fn make(alloc: Global, bytes: &[u8]) -> Result<Pages, NoMemory>
        requires { length bytes.now % PAGE_SIZE ≡ 0 }
        ensures { IfOk result (λ pages. bytes_of pages ≡ bytes.now) }
    {
        let count = bytes.len() / PAGE_SIZE;
        let mut pages = Vec::with_capacity(alloc, count)?;
        for place in 0..count {
            pages.push(Page::own(alloc, page_at(bytes, place))?)?;
        }
        Ok(Pages { pages })
    }

    /// The `size` bytes from a place on as a little-endian number.
    #[inline(always)]
    pub(crate) fn load(&self, at: u32, size: u8) -> u32
        requires size { spec.IsSize size }
        requires within { at + size ≤ length (bytes_of self.now) }
        ensures value { result ≡ number_at (bytes_of self.now) at size }
        ensures below { result < 256 ^ size }
    {
        let place = at as usize;
        if place % PAGE_SIZE + usize::from(size) <= PAGE_SIZE {
            self.load_within(place, size)
        } else {
            self.load_across(at, size)
        }
    }

    /// The number of bytes that stand in one page.
    #[inline(always)]
    #[tactic(auto, using(crate::proofs::InPages::load_in, crate::proofs::InPages::page_below))]
    fn load_within(&self, at: usize, size: u8) -> u32
        requires size { spec.IsSize size }
        requires within { at + size ≤ length (bytes_of self.now) }
        requires page { at % PAGE_SIZE + size ≤ PAGE_SIZE }
        ensures value { result ≡ number_at (bytes_of self.now) at size }
        ensures below { result < 256 ^ size }
    {
        self.pages[at / PAGE_SIZE].load(at % PAGE_SIZE, size)
    }

    /// The number of bytes that stand in two pages, byte by byte.
    #[cold]
    fn load_across(&self, at: u32, size: u8) -> u32
        requires size { spec.IsSize size }
        requires within { at + size ≤ length (bytes_of self.now) }
        ensures value { result ≡ number_at (bytes_of self.now) at size }
        ensures below { result < 256 ^ size }
    {
        let at = at as usize;
        match size {
            1 => self.byte(at),
            2 => self.byte(at) + 256 * self.byte(at + 1),
            _ => {
                let high = self.byte(at + 2) + 256 * self.byte(at + 3);
                self.byte(at) + 256 * (self.byte(at + 1) + 256 * high)
            }
        }
    }

    fn byte(&self, at: usize) -> u32
        requires { at < length (bytes_of self.now) }
        ensures value { result ≡ slice_index (bytes_of self.now) at }
        ensures below { result < 256 }
    {
        self.load_within(at, 1)
    }

    /// Puts the low `size` bytes of the number from a place on, where they stand in one own page; says whether
    /// they do.
    #[inline(always)]
    pub(crate) fn put(&mut self, at: usize, size: u8, value: u32) -> bool
        requires size { spec.IsSize size }
        requires within { at + size ≤ length (bytes_of self.old) }
        ensures put { IsTrue result → bytes_of self.new ≡ put_at (bytes_of self.old) at size value }
        ensures same { (result ≡ false) → bytes_of self.new ≡ bytes_of self.old }
        ensures owners { map (λ p. p.own) self.new ≡ map (λ p. p.own) self.old }
        ensures done { at % PAGE_SIZE + size ≤ PAGE_SIZE → IsTrue (is_own self.old (at / PAGE_SIZE)) → IsTrue result }
    {
        if at % PAGE_SIZE + usize::from(size) > PAGE_SIZE {
            return false;
        }
        let page = &mut self.pages[at / PAGE_SIZE];
        page.put(at % PAGE_SIZE, size, value)
    }

    /// Puts the number from a place on, where its bytes stand in own pages.
    #[inline(always)]
    pub(crate) fn store(&mut self, at: u32, size: u8, value: u32)
        requires size { spec.IsSize size }
        requires within { at + size ≤ length (bytes_of self.old) }
        requires own { AreOwn self.old at size }
        ensures put { bytes_of self.new ≡ put_at (bytes_of self.old) at size value }
        ensures owners { map (λ p. p.own) self.new ≡ map (λ p. p.own) self.old }
    {
        if !self.put(at as usize, size, value) {
            self.store_across(at, size, value);
        }
    }

    #[cold]
    fn store_across(&mut self, at: u32, size: u8, value: u32)
        requires size { spec.IsSize size }
        requires within { at + size ≤ length (bytes_of self.old) }
        requires own { AreOwn self.old at size }
        ensures put { bytes_of self.new ≡ put_at (bytes_of self.old) at size value }
        ensures owners { map (λ p. p.own) self.new ≡ map (λ p. p.own) self.old }
    {
        let at = at as usize;
        match size {
            1 => self.put_byte(at, value),
            2 => {
                self.put_byte(at, value);
                self.put_byte(at + 1, value / 256);
            }
            _ => {
                self.put_byte(at, value);
                self.put_byte(at + 1, value / 256);
                self.put_byte(at + 2, value / 65_536);
                self.put_byte(at + 3, value / 16_777_216);
            }
        }
    }

    /// Puts the low byte of the number into an own page.
    fn put_byte(&mut self, at: usize, value: u32)
        requires within { at < length (bytes_of self.old) }
        requires own { IsTrue (is_own self.old (at / PAGE_SIZE)) }
        ensures put { bytes_of self.new ≡ slice_set (bytes_of self.old) at (value % 256) }
        ensures owners { map (λ p. p.own) self.new ≡ map (λ p. p.own) self.old }
    {
        self.put(at, 1, value);
    }

    /// Makes the pages own that the bytes stand in. The bytes stay either way.
    pub(crate) fn ready(&mut self, alloc: Global, at: u32, size: u8) -> Result<(), NoMemory>
        requires within { at + size ≤ length (bytes_of self.old) }
        ensures bytes { bytes_of self.new ≡ bytes_of self.old }
        ensures keeps { (place : ℕ) → IsTrue (is_own self.old place) → IsTrue (is_own self.new place) }
        ensures ready { OnOk result (AreOwn self.new at size) }
        ensures granted { AreOwn self.old at size → IsOk result }
    {
        if size > 0 {
            self.make_own(alloc, at as usize)?;
            self.make_own(alloc, at as usize + usize::from(size) - 1)?;
        }
        Ok(())
    }

    /// Makes the page of a byte own.
    fn make_own(&mut self, alloc: Global, at: usize) -> Result<(), NoMemory>
        requires within { at < length (bytes_of self.old) }
        ensures bytes { bytes_of self.new ≡ bytes_of self.old }
        ensures keeps { (place : ℕ) → IsTrue (is_own self.old place) → IsTrue (is_own self.new place) }
        ensures own { OnOk result (IsTrue (is_own self.new (at / PAGE_SIZE))) }
        ensures granted { IsTrue (is_own self.old (at / PAGE_SIZE)) → IsOk result }
    {
        let page = &mut self.pages[at / PAGE_SIZE];
        page.make_own(alloc)?;
        Ok(())
    }

    /// Puts the number from a place on, in own copies of its pages where they are shared; says whether there
    /// was memory for them.
    #[inline(always)]
    pub(crate) fn put_or_copy(&mut self, alloc: Global, at: u32, size: u8, value: u32) -> bool
        requires size { spec.IsSize size }
        requires within { at + size ≤ length (bytes_of self.old) }
        ensures put { IsTrue result → bytes_of self.new ≡ put_at (bytes_of self.old) at size value }
        ensures same { (result ≡ false) → bytes_of self.new ≡ bytes_of self.old }
        ensures keeps { (place : ℕ) → IsTrue (is_own self.old place) → IsTrue (is_own self.new place) }
        ensures granted { AreOwn self.old at size → IsTrue result }
    {
        if self.put(at as usize, size, value) {
            return true;
        }
        self.copy_and_store(alloc, at, size, value)
    }

    #[cold]
    fn copy_and_store(&mut self, alloc: Global, at: u32, size: u8, value: u32) -> bool
        requires size { spec.IsSize size }
        requires within { at + size ≤ length (bytes_of self.old) }
        ensures put { IsTrue result → bytes_of self.new ≡ put_at (bytes_of self.old) at size value }
        ensures same { (result ≡ false) → bytes_of self.new ≡ bytes_of self.old }
        ensures keeps { (place : ℕ) → IsTrue (is_own self.old place) → IsTrue (is_own self.new place) }
        ensures granted { AreOwn self.old at size → IsTrue result }
    {
        if self.ready(alloc, at, size).is_err() {
            return false;
        }
        self.store(at, size, value);
        true
    }

    /// Pages of the same bytes that share them with these.
    pub(crate) fn share(&mut self, alloc: Global) -> Result<Pages, NoMemory>
        ensures same { bytes_of self.new ≡ bytes_of self.old }
        ensures equal { IfOk result (λ copy. bytes_of copy ≡ bytes_of self.old) }
    {
        let pages = share_all(alloc, &mut self.pages)?;
        Ok(Pages { pages })
    }
}

/// The bytes of the page at a place.
fn page_at(bytes: &[u8], place: usize) -> [u8; PAGE_SIZE]
    requires { PAGE_SIZE * (place + 1) ≤ length bytes.now }
    ensures { result ≡ take PAGE_SIZE (drop (PAGE_SIZE * place) bytes.now) }
{
    let from = PAGE_SIZE * place;
    match bytes[from..from + PAGE_SIZE].try_into() {
        Ok(page) => page,
        Err(_) => unreachable!(),
    }
}

/// Pages that share the bytes of these.
fn share_all(alloc: Global, pages: &mut Vec<Page>) -> Result<Vec<Page>, NoMemory>
    requires { All IsPage pages.old.items }
    ensures whole { All IsPage pages.new.items }
    ensures same { bytes_of pages.new.items ≡ bytes_of pages.old.items }
    ensures equal { IfOk result (λ copies. bytes_of copies.items ≡ bytes_of pages.old.items) }
    ensures all_whole { IfOk result (λ copies. All IsPage copies.items) }
{
    let mut copies = Vec::with_capacity(alloc, pages.len())?;
    for place in 0..pages.len() {
        copies.push(pages[place].share(alloc)?)?;
    }
    Ok(copies)
}
