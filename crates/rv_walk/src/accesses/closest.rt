//! The closest near pair of each two addresses.
ghost use Rattle.std.specs.Prelude.{◌≡◌, [], true, false, IfOk};
ghost use Rattle.std.specs.List.{All, Contains};
ghost use Rattle.rv_walk.specs.NearPair.{IsNearPair};
ghost use Rattle.rv_walk.specs.Told.{AreTold, rank_of};
ghost use Rattle.rv_walk.specs.Walked.{Walked};

use crate::near_pair::{Addresses, NearPair};
use rv_memory::store::NoMemory;
use std::alloc::Global;
use std::collections::HashMap;
use std::marker::Model;

/// Near pairs, one for each two addresses.
#[derive(Drop)]
pub struct Closest {
    pairs: HashMap<Addresses, NearPair>,
}

impl Model for Closest {
    ghost use Rattle.std.specs.Prelude.{List};
    ghost use Rattle.std.specs.HashMap.{values};
    ghost use Rattle.rv_walk.specs.declared.near_pair.NearPair.{NearPair};
    ghost use Rattle.rv_walk.specs.internal.Noted.{AreByAddresses};

    ghost Value = { List NearPair };

    ghost view = { λ c. values c.pairs };

    ghost invariant = { λ c. AreByAddresses c.pairs.entries };
}

impl Closest {
    /// None yet.
    pub fn new(alloc: Global) -> Closest
        ensures { result ≡ [] }
    {
        Closest {
            pairs: HashMap::new(alloc),
        }
    }

    /// Whether there is one.
    pub fn is_empty(&self) -> bool
        ensures { result ≡ false → (pair : NearPair) × Contains self.now pair }
    {
        self.pairs.is_empty()
    }

    /// One more: the closer one stays, and of equally close ones the first.
    pub fn note(&mut self, pair: NearPair) -> Result<(), NoMemory>
        ensures { (walk : Walked) → All (IsNearPair walk) self.old → IsNearPair walk pair → All (IsNearPair walk) self.new }
    {
        if self.is_closer(&pair) {
            self.pairs.insert(pair.addresses(), pair)?;
        }
        Ok(())
    }

    /// Whether a pair is closer than the one that is kept of its addresses, or none is.
    fn is_closer(&self, pair: &NearPair) -> bool {
        match self.pairs.get(&pair.addresses()) {
            Some(known) => pair.distance() < known.distance(),
            None => true,
        }
    }

    /// All of them, by the place of the first access, and at the same place by the addresses.
    pub fn sorted(&self, alloc: Global) -> Result<Vec<NearPair>, NoMemory>
        ensures { IfOk result (λ pairs. (walk : Walked) → All (IsNearPair walk) self.now → AreTold walk pairs.items) }
    {
        let mut pairs: Vec<NearPair> = self.pairs.values().copied().collect(alloc)?;
        pairs.sort_unstable_by_key(|pair| rank(pair));
        Ok(pairs)
    }
}

/// By what near pairs are in order: the place of the first access, and the addresses.
pub(crate) fn rank(pair: &NearPair) -> (u32, (u32, u32))
    ensures { result ≡ rank_of pair.now }
{
    let addresses = pair.addresses();
    (pair.first.place, (addresses.lesser, addresses.greater))
}
