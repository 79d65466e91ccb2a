//! Ranges of bytes, so kept that a look-up is two searches by halves.
ghost use Rattle.std.specs.Prelude.{◌≡◌, [], map, IfOk, nat_le, nat_lt};
ghost use Rattle.std.specs.List.{count_by, filter, list_any};
ghost use Rattle.rv_prune.specs.Class as spec;
ghost use Rattle.rv_prune.specs.Ranges as ranges;
ghost use Rattle.rv_prune.specs.internal.Bounds as bounds;

use rv_hart::access::Access;
use rv_memory::store::NoMemory;
use std::alloc::{AllocError, Global};
use std::marker::Model;

/// Ranges of bytes, of each the address of its first byte and its size; one of size 0 is touched by nothing. Beside
/// them stand the starts and the ends of all others, each in ascending order: a range is touched by an access where it
/// begins before the access ends and has not ended before it, so that the two are counted.
#[derive(Drop)]
pub struct NamedBytes {
    listed: Vec<(u32, u32)>,
    starts: Vec<u64>,
    ends: Vec<u64>,
}

impl Model for NamedBytes {
    ghost use Rattle.std.specs.Prelude.{ℕ, List};
    ghost use Rattle.rv_prune.specs.internal.Bounds.{AreBounds};

    ghost Value = { List (ℕ × ℕ) };

    ghost view = { λ b. b.listed.items };

    ghost invariant = { λ b. AreBounds b.listed.items b.starts.items b.ends.items };
}

impl NamedBytes {
    /// These ranges.
    pub fn of(alloc: Global, listed: Vec<(u32, u32)>) -> Result<NamedBytes, NoMemory>
        ensures { IfOk result (λ bytes. bytes ≡ listed.items) }
    {
        let mut starts = starts_of(alloc, &listed)?;
        let mut ends = ends_of(alloc, &listed)?;
        starts.sort_unstable();
        ends.sort_unstable();
        Ok(NamedBytes {
            listed,
            starts,
            ends,
        })
    }

    /// How many ranges begin before a place.
    fn begun(&self, place: u64) -> usize
        ensures { result ≡ count_by (λ start. nat_lt start place) (bounds.starts self.now) }
    {
        self.starts.partition_point(|start| *start < place)
    }

    /// How many ranges have ended at a place.
    fn ended(&self, place: u64) -> usize
        ensures { result ≡ count_by (λ end. nat_le end place) (bounds.ends self.now) }
    {
        self.ends.partition_point(|end| *end <= place)
    }

    /// Whether the byte at the address is in a range. It takes no memory.
    pub fn has(&self, address: u32) -> bool
        ensures { result ≡ list_any (ranges.has_at address) self.now }
    {
        let place = u64::from(address);
        self.ended(place) < self.begun(place + 1)
    }

    /// Whether the access has a byte of a range. It takes no memory.
    pub fn is_touched(&self, access: &Access) -> bool
        ensures { result ≡ list_any (spec.touches access.now) self.now }
    {
        let first = u64::from(access.first);
        let end = first + u64::from(access.size);
        first < end && self.ended(first) < self.begun(end)
    }
}

/// The starts of the ranges that have a byte.
fn starts_of(alloc: Global, listed: &[(u32, u32)]) -> Result<Vec<u64>, AllocError>
    ensures { IfOk result (λ starts. starts.items ≡ bounds.starts listed.now) }
{
    listed
        .iter()
        .filter(|range| range.1 > 0)
        .map(|range| u64::from(range.0))
        .collect(alloc)
}

/// Their ends.
fn ends_of(alloc: Global, listed: &[(u32, u32)]) -> Result<Vec<u64>, AllocError>
    ensures { IfOk result (λ ends. ends.items ≡ bounds.ends listed.now) }
{
    listed
        .iter()
        .filter(|range| range.1 > 0)
        .map(|range| u64::from(range.0) + u64::from(range.1))
        .collect(alloc)
}
