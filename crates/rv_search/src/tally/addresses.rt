//! Sets of addresses.
ghost use Rattle.std.specs.Prelude.{◌≡◌, [], OnOk, length};
ghost use Rattle.std.specs.BTreeSet.{insert_key};
ghost use Rattle.std.specs.Ordering.{nat_cmp};
ghost use Rattle.rv_search.specs.Tally as spec;

use rv_memory::store::NoMemory;
use std::alloc::Global;
use std::collections::BTreeSet;
use std::marker::Model;

/// Addresses, each once.
#[derive(Drop)]
pub struct Addresses {
    kept: BTreeSet<u32>,
}

impl Model for Addresses {
    ghost use Rattle.std.specs.Prelude.{ℕ, List};

    ghost Value = { List ℕ };

    ghost view = { λ a. a.kept.keys };
}

impl Addresses {
    pub fn new(alloc: Global) -> Addresses
        ensures { result ≡ [] }
    {
        Addresses {
            kept: BTreeSet::new(alloc),
        }
    }

    /// How many there are.
    pub fn count(&self) -> u64
        ensures { result ≡ length self.now }
    {
        self.kept.len() as u64
    }

    /// Adds an address.
    fn add(&mut self, address: u32) -> Result<(), NoMemory>
        ensures { OnOk result (self.new ≡ insert_key nat_cmp self.old address) }
    {
        self.kept.insert(address)?;
        Ok(())
    }

    /// Adds addresses. Where growth is refused, some are added.
    pub fn add_all(&mut self, addresses: &[u32]) -> Result<(), NoMemory>
        ensures { OnOk result (self.new ≡ spec.with_addresses self.old addresses.now) }
    {
        for address in addresses {
            self.add(*address)?;
        }
        Ok(())
    }
}
