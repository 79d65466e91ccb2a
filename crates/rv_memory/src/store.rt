ghost use Rattle.std.specs.Prelude.{◌≡◌, ℕ, ◌^◌, ◌<◌, ◌++◌, Bool, false, IsTrue, IfSome, IfOk, IfErr, OnOk, OnErr, None, Some, codes, unwrap_or, All};
ghost use Rattle.std.specs.Result.{IsOk};
ghost use Rattle.rv_memory.specs.Extent.{IsExtent};
ghost use Rattle.rv_memory.specs.Memory as spec;
ghost use Rattle.rv_memory.specs.declared.store.MemFault.TheVariants.{NoMemory as OutOfMemory};

use crate::region::Region;
use std::alloc::{AllocError, AllocFailed, Global};
use std::error::Error;
use std::fmt;

/// The most bytes that the regions of one store may have together.
pub const LIMIT: u64 = 17_825_792;

/// What an access needs of the region that it lies in.
#[derive(Clone, Copy, Debug, PartialEq, Eq)]
pub enum Need {
    Nothing,
    Read,
    Write,
    ReadWrite,
    Execute,
}

/// A growth was refused.
#[derive(Clone, Copy, Debug, PartialEq, Eq)]
pub struct NoMemory;

/// Why a list of regions makes no store. A region ends past 2^32, two share an address, or their
/// lengths sum to more than `LIMIT`, tested in this order; then growth was refused.
#[derive(Clone, Copy, Debug, PartialEq, Eq)]
pub enum MemFault {
    NoMemory,
    Overlap,
    TooLarge,
    PastEnd,
}

impl From<AllocError> for NoMemory {
    fn from(_: AllocError) -> NoMemory {
        NoMemory
    }
}

impl<T: Drop> From<AllocFailed<T>> for NoMemory {
    fn from(_: AllocFailed<T>) -> NoMemory {
        NoMemory
    }
}

impl From<AllocError> for MemFault {
    ghost from_gives = { λ _ fault. fault ≡ OutOfMemory };

    fn from(_: AllocError) -> MemFault {
        MemFault::NoMemory
    }
}

impl<T: Drop> From<AllocFailed<T>> for MemFault {
    ghost from_gives = { λ _ fault. fault ≡ OutOfMemory };

    fn from(_: AllocFailed<T>) -> MemFault {
        MemFault::NoMemory
    }
}

impl fmt::Display for NoMemory {
    ghost output = { λ fault. Some (codes "out of memory") };

    fn fmt<W: fmt::Write>(&self, f: &mut fmt::Formatter<W>) -> fmt::Result {
        f.write_str("out of memory")
    }
}

impl Error for NoMemory {}

/// The bytes of a guest, however a store keeps them. `memory` is what a store holds, as a map from
/// addresses to bytes.
pub trait ByteStore: Drop {
    ghost memory: { Self → spec.Memory };

    /// These bytes may be stored to without asking for memory.
    ghost is_ready: { Self → ℕ → ℕ → Type 0 };

    /// Whether the store ever asks for memory after it is made.
    ghost can_refuse: { Bool };

    /// A store of the regions: their bytes, then zeros.
    fn make(alloc: Global, regions: &[Region]) -> Result<Self, MemFault>
        requires { All IsExtent regions.now }
        ensures ok { IfOk result (λ store. (spec.fault_of regions.now ≡ None)
            × (memory store ≡ spec.memory_of regions.now)) }
        ensures err { IfErr result (λ fault.
            fault ≡ unwrap_or (spec.fault_of regions.now) MemFault.NoMemory) }
    {
        Self::make_of_both(alloc, regions, &[])
    }

    /// A store of the regions of two lists, one after the other, which are tested together: so a caller may add
    /// regions to those that it is lent.
    fn make_of_both(alloc: Global, first: &[Region], second: &[Region]) -> Result<Self, MemFault>
        requires first { All IsExtent first.now }
        requires second { All IsExtent second.now }
        ensures ok { IfOk result (λ store. (spec.fault_of (first.now ++ second.now) ≡ None)
            × (memory store ≡ spec.memory_of (first.now ++ second.now))) }
        ensures err { IfErr result (λ fault.
            fault ≡ unwrap_or (spec.fault_of (first.now ++ second.now)) MemFault.NoMemory) };

    /// Whether the bytes lie wholly in one region that has the permissions.
    fn permits(&self, address: u32, size: u8, need: Need) -> bool
        ensures { result ≡ spec.permits (memory self.now) address size need };

    /// The bytes as a little-endian number.
    fn load(&self, address: u32, size: u8) -> u32
        requires size { spec.IsSize size }
        requires within { IsTrue (spec.permits (memory self.now) address size Need.Nothing) }
        ensures value { result ≡ spec.load (memory self.now) address size }
        ensures below { result < 256 ^ size };

    /// The bytes as a little-endian number where they are permitted: `permits` and then `load`, for which a
    /// store may look the bytes up once.
    #[tactic(auto, using(crate::proofs::Permitted::permitted_is_there))]
    fn load_permitted(&self, address: u32, size: u8, need: Need) -> Option<u32>
        requires { spec.IsSize size }
        ensures value { result ≡ spec.load_permitted (memory self.now) address size need }
        ensures below { IfSome result (λ value. value < 256 ^ size) }
    {
        if self.permits(address, size, need) {
            Some(self.load(address, size))
        } else {
            None
        }
    }

    /// The word at an address, as `load_permitted` gives it for Execute, where the store finds it at once; None
    /// says nothing. A store that has no place to try first looks the word up.
    fn fetch_at_once(&self, address: u32) -> Option<u32>
        ensures { IfSome result (λ word. spec.load_permitted (memory self.now) address 4 Need.Execute ≡ Some word) }
    {
        self.load_permitted(address, 4, Need::Execute)
    }

    /// Makes the bytes ready to be stored to. Those that are ready are never refused. The contents stay either way.
    fn ready(&mut self, address: u32, size: u8) -> Result<(), NoMemory>
        ensures same { memory self.new ≡ memory self.old }
        ensures ready { OnOk result (is_ready self.new address size) }
        ensures keeps { (a n : ℕ) → is_ready self.old a n → is_ready self.new a n }
        ensures granted { is_ready self.old address size → IsOk result }
        ensures refused { OnErr result (IsTrue can_refuse) };

    /// Stores the low bytes of the number, the least significant first.
    fn store(&mut self, address: u32, size: u8, value: u32)
        requires size { spec.IsSize size }
        requires within { IsTrue (spec.permits (memory self.old) address size Need.Nothing) }
        requires ready { is_ready self.old address size }
        ensures stored { memory self.new ≡ spec.store (memory self.old) address size value }
        ensures keeps { (a n : ℕ) → is_ready self.old a n → is_ready self.new a n };

    /// The same where the bytes are permitted, and no memory is refused for them: `permits`, `ready` and then
    /// `store`, for which a store may look the bytes up once. Elsewhere the contents stay. Answers whether the
    /// bytes were stored.
    #[tactic(auto, using(crate::proofs::Permitted::permitted_is_there))]
    fn store_permitted(&mut self, address: u32, size: u8, value: u32, need: Need) -> bool
        requires { spec.IsSize size }
        ensures permitted { IsTrue result → IsTrue (spec.permits (memory self.old) address size need) }
        ensures stored { IsTrue result → memory self.new ≡ spec.store (memory self.old) address size value }
        ensures same { (result ≡ false) → memory self.new ≡ memory self.old }
        ensures granted { is_ready self.old address size
            → IsTrue (spec.permits (memory self.old) address size need)
            → IsTrue result }
        ensures refused { (result ≡ false) → IsTrue (spec.permits (memory self.old) address size need) → IsTrue can_refuse }
        ensures keeps { (a n : ℕ) → is_ready self.old a n → is_ready self.new a n }
    {
        if !self.permits(address, size, need) || self.ready(address, size).is_err() {
            return false;
        }
        self.store(address, size, value);
        true
    }
}

/// A store from which another one of the same contents goes on apart.
pub trait Fork: ByteStore {
    /// A second store of the same contents. From then on what is stored in one changes nothing in the other. The contents of
    /// this one stay, also where memory is refused.
    fn fork(&mut self) -> Result<Self, NoMemory>
        ensures same { Self.memory self.new ≡ Self.memory self.old }
        ensures equal { IfOk result (λ copy. Self.memory copy ≡ Self.memory self.old) };
}

/// A store that asks for no memory once it is made.
pub trait Steady: ByteStore {
    ghost never_refuses: { Self.can_refuse ≡ false };
}
