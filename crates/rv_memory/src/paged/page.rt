//! One page of a store: 4,096 bytes that are the store's own, or that it shares with others.
ghost use Rattle.std.specs.Prelude.{◌≡◌, ◌+◌, ◌^◌, ◌<◌, ◌≤◌, true, false, IsTrue, IfOk, OnOk};
ghost use Rattle.std.specs.Result.{IsOk};
ghost use Rattle.rv_memory.specs.Memory as spec;
ghost use Rattle.rv_memory.specs.internal.Flat.{number_at as spec_number_at, put_at as spec_put_at};
ghost use Rattle.rv_memory.specs.internal.Paged.{IsPage};

use crate::flat::{number_at, put_at};
use crate::store::NoMemory;
use std::alloc::Global;
use std::marker::Model;
use std::rc::Rc;

/// The bytes of a page.
pub const PAGE_SIZE: usize = 4_096;

/// Where the bytes are kept. No store writes into shared ones.
#[derive(Drop)]
pub enum Kept {
    Own(Box<[u8; PAGE_SIZE]>),
    Shared(Rc<[u8; PAGE_SIZE]>),
}

#[derive(Drop)]
pub struct Page {
    kept: Kept,
}

impl Model for Page {
    ghost use Rattle.rv_memory.specs.Pages.{KeptPage};

    ghost Value = { KeptPage };

    ghost use Rattle.rv_memory.specs.internal.Paged.{kept_page, IsPage};

    ghost view = { λ a. kept_page a.kept };

    ghost invariant = { λ a. IsPage (kept_page a.kept) };
}

impl Page {
    /// A page of these bytes, the store's own.
    pub(crate) fn own(alloc: Global, bytes: [u8; PAGE_SIZE]) -> Result<Page, NoMemory>
        ensures bytes { IfOk result (λ page. page ≡ record { bytes = bytes; own = true }) }
        ensures whole { IfOk result IsPage }
    {
        Ok(Page {
            kept: Kept::Own(Box::new(alloc, bytes)?),
        })
    }

    #[inline(always)]
    pub(crate) fn bytes(&self) -> &[u8; PAGE_SIZE]
        ensures { result.now ≡ self.now.bytes }
    {
        match &self.kept {
            Kept::Own(bytes) => &**bytes,
            Kept::Shared(bytes) => &**bytes,
        }
    }

    /// The `size` bytes at a place as a little-endian number.
    #[inline(always)]
    pub(crate) fn load(&self, at: usize, size: u8) -> u32
        requires size { spec.IsSize size }
        requires within { at + size ≤ PAGE_SIZE }
        ensures value { result ≡ spec_number_at self.now.bytes at size }
        ensures below { result < 256 ^ size }
    {
        number_at(self.bytes(), at, size)
    }

    /// Puts the low `size` bytes of the number at a place, where the page is own; says whether it is.
    #[inline(always)]
    pub(crate) fn put(&mut self, at: usize, size: u8, value: u32) -> bool
        requires size { spec.IsSize size }
        requires within { at + size ≤ PAGE_SIZE }
        ensures own { result ≡ self.old.own }
        ensures put { IsTrue result
            → self.new ≡ record self.old { bytes = spec_put_at self.old.bytes at size value } }
        ensures same { (result ≡ false) → self.new ≡ self.old }
    {
        match &mut self.kept {
            Kept::Own(bytes) => {
                put_at(&mut **bytes, at, size, value);
                true
            }
            Kept::Shared(_) => false,
        }
    }

    /// Makes the page own: a copy of the shared bytes takes their place.
    pub(crate) fn make_own(&mut self, alloc: Global) -> Result<(), NoMemory>
        ensures bytes { self.new.bytes ≡ self.old.bytes }
        ensures own { OnOk result (self.new.own ≡ true) }
        ensures keeps { IsTrue self.old.own → IsTrue self.new.own }
        ensures granted { IsTrue self.old.own → IsOk result }
    {
        if let Kept::Shared(bytes) = &self.kept {
            let own = Box::new(alloc, **bytes)?;
            self.kept = Kept::Own(own);
        }
        Ok(())
    }

    /// A page of the same bytes that shares them with this one.
    pub(crate) fn share(&mut self, alloc: Global) -> Result<Page, NoMemory>
        ensures bytes { self.new.bytes ≡ self.old.bytes }
        ensures equal { IfOk result (λ copy. copy.bytes ≡ self.old.bytes) }
    {
        if let Kept::Own(bytes) = &self.kept {
            let shared = Rc::new(alloc, **bytes)?;
            self.kept = Kept::Shared(shared);
        }
        match &self.kept {
            Kept::Shared(bytes) => Ok(Page {
                kept: Kept::Shared(bytes.clone()?),
            }),
            Kept::Own(_) => unreachable!(),
        }
    }
}
