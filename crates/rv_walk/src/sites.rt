//! The sites of an image, found at one look.
ghost use Rattle.std.specs.Prelude.{◌≡◌, ◌↔◌, ◌<◌, Some, IfOk, IsTrue, length, nat_eq, slice_get};
ghost use Rattle.std.specs.HashSet.{IsFromIterResult};
ghost use Rattle.std.specs.List.{Contains};

use rv_memory::store::NoMemory;
use rv_sample::Sampler;
use std::alloc::Global;
use std::collections::HashSet;
use std::marker::Model;
use std::snapshot::Snapshot;

/// The sites of a sampler.
#[derive(Drop)]
pub struct Sites {
    list: Snapshot<Vec<u32>>,
    set: HashSet<u32>,
}

impl Model for Sites {
    ghost use Rattle.std.specs.Prelude.{ℕ, List};
    ghost use Rattle.rv_walk.specs.internal.Listed.{AreListed};

    ghost Value = { List ℕ };

    ghost view = { λ s. s.list.value.items };

    ghost invariant = { λ s. AreListed s.set s.list.value.items };
}

impl Sites {
    /// Those of a sampler.
    pub fn of(alloc: Global, sampler: &Sampler) -> Result<Sites, NoMemory>
        ensures { IfOk result (λ sites. sites ≡ sampler.now) }
    {
        let list = listed(alloc, sampler)?;
        let set = set_of(alloc, &list)?;
        Ok(Sites {
            list: Snapshot::of(&list),
            set,
        })
    }

    /// Whether the address is one of them.
    #[inline(always)]
    pub fn contains(&self, address: u32) -> bool
        ensures { IsTrue result ↔ Contains self.now address }
    {
        self.set.contains(&address)
    }
}

fn set_of(alloc: Global, list: &[u32]) -> Result<HashSet<u32>, NoMemory>
    ensures { IfOk result (IsFromIterResult nat_eq list.now) }
{
    Ok(list.iter().copied().collect(alloc)?)
}

fn listed(alloc: Global, sampler: &Sampler) -> Result<Vec<u32>, NoMemory>
    ensures { IfOk result (λ list. list.items ≡ sampler.now) }
{
    let mut list = Vec::new(alloc);
    for place in 0..sampler.len() {
        let address = site_at(sampler, place)?;
        list.push(address)?;
    }
    Ok(list)
}

/// The site at a place.
fn site_at(sampler: &Sampler, place: usize) -> Result<u32, NoMemory>
    requires { place < length sampler.now }
    ensures { IfOk result (λ address. slice_get sampler.now place ≡ Some address) }
{
    let Ok(word) = u32::try_from(place) else {
        return Err(NoMemory);
    };
    match sampler.pick(word) {
        Some(address) => Ok(address),
        None => Err(NoMemory),
    }
}
