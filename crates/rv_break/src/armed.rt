//! The armed addresses, with a filter that tells most other addresses at one look.
ghost use Rattle.std.specs.Prelude.{◌≡◌, ◌<◌, ◌&&◌, not, nat_lt, false, true, IfOk, if◌then◌else◌, replicate, position, swap_remove, ◌==◌, vec_len, vec_capacity};
ghost use Rattle.std.specs.FinSet as set;
ghost use Rattle.rv_break.specs.internal.Buckets.{bucket_of};

use crate::claim::ARMED_LIMIT;
use rv_memory::store::NoMemory;
use std::alloc::Global;
use std::marker::Model;

/// How many buckets the filter has. Armed addresses are few, so most buckets are empty.
pub const BUCKETS: u32 = 4096;

/// A set of addresses, at most `ARMED_LIMIT`.
#[derive(Drop)]
pub struct Armed {
    addresses: Vec<u32>,
    counts: Vec<u8>,
}

impl Model for Armed {
    ghost use Rattle.std.specs.Ordering.{nat_cmp};
    ghost use Rattle.std.specs.FinSet.{FinSet, code, from_list};
    ghost use Rattle.std.specs.Coded.{coded_ℕ};
    ghost use Rattle.rv_break.specs.internal.Buckets.{AreArmed};

    ghost Value = { FinSet nat_cmp };

    ghost coded = { code coded_ℕ };

    ghost view = { λ a. from_list a.addresses.items };

    ghost invariant = { λ a. AreArmed a.addresses a.counts };
}

impl Armed {
    /// No address, with room for the most.
    pub fn new(alloc: Global) -> Result<Armed, NoMemory>
        ensures { IfOk result (λ a. a ≡ set.empty) }
    {
        let addresses = Vec::with_capacity(alloc, ARMED_LIMIT as usize)?;
        let counts = no_counts(alloc)?;
        Ok(Armed { addresses, counts })
    }

    /// Whether no address is in the set.
    #[inline(always)]
    pub fn is_empty(&self) -> bool
        ensures { result ≡ (set.len self.now == 0) }
    {
        self.addresses.is_empty()
    }

    /// Whether the filter lets the address by: where it does not, the address is not in the set. It lets none by where
    /// the set is empty.
    #[inline(always)]
    pub fn may_contain(&self, address: u32) -> bool
        ensures absent { result ≡ false → set.contains self.now address ≡ false }
        ensures some { result ≡ true → (set.len self.now == 0) ≡ false }
    {
        self.counts[bucket_of(address)] != 0
    }

    /// Whether the address is in the set.
    #[inline(always)]
    pub fn contains(&self, address: u32) -> bool
        ensures { result ≡ set.contains self.now address }
    {
        self.may_contain(address) && self.is_among(address)
    }

    /// The same, where each address is looked at.
    #[cold]
    #[inline(never)]
    fn is_among(&self, address: u32) -> bool
        ensures { result ≡ set.contains self.now address }
    {
        self.addresses.contains(&address)
    }

    /// Adds an address that is not in the set, which has room; answers whether it was added.
    pub fn insert(&mut self, address: u32) -> bool
        ensures added { result ≡ (not (set.contains self.old address) && nat_lt (set.len self.old) ARMED_LIMIT) }
        ensures after { self.new ≡ (if result then set.insert self.old address else self.old) }
    {
        if self.contains(address) {
            return false;
        }
        if self.addresses.len() >= ARMED_LIMIT as usize {
            return false;
        }
        self.addresses.push_reserved(address);
        let bucket = bucket_of(address);
        self.counts[bucket] += 1;
        true
    }

    /// Takes an address out; answers whether it was in the set.
    pub fn remove(&mut self, address: u32) -> bool
        ensures was { result ≡ set.contains self.old address }
        ensures after { self.new ≡ set.remove self.old address }
    {
        match place_of(&self.addresses, address) {
            None => false,
            Some(place) => {
                take_out(&mut self.addresses, place);
                let bucket = bucket_of(address);
                self.counts[bucket] -= 1;
                true
            }
        }
    }
}

fn bucket_of(address: u32) -> usize
    ensures value { result ≡ bucket_of address }
    ensures within { result < BUCKETS }
{
    (address / 4 % BUCKETS) as usize
}

fn place_of(addresses: &[u32], address: u32) -> Option<usize>
    ensures { result ≡ position (λ other. other == address) addresses.now }
{
    addresses.iter().position(|other| *other == address)
}

/// Takes out the address at a place, which the last one takes.
fn take_out(addresses: &mut Vec<u32>, place: usize)
    requires { place < vec_len addresses.old }
    ensures items { addresses.new.items ≡ swap_remove addresses.old.items place 0 }
    ensures capacity { vec_capacity addresses.new ≡ vec_capacity addresses.old }
{
    let _address = addresses.swap_remove(place);
}

fn no_counts(alloc: Global) -> Result<Vec<u8>, NoMemory>
    ensures { IfOk result (λ v. v.items ≡ replicate BUCKETS 0) }
{
    let counts = [0; BUCKETS as usize];
    Ok(Vec::from_slice(alloc, &counts)?)
}
