//! The accesses that a walk keeps, and the near pairs that it has seen by them.
//!
//! Speed: of each aligned word the last accesses are a list, the newest first, in which an access takes the place of the one before it of
//! its hart and instruction. Where that one was of the same bytes, what stands behind it was seen by it, at a lesser distance. Behind
//! the first that is too far away for a near pair all are.
ghost use Rattle.std.specs.Prelude.{◌≡◌, [], IfOk, slice_get};
ghost use Rattle.std.specs.List.{All};
ghost use Rattle.rv_walk.specs.NearPair.{IsNearPair, WasMade};
ghost use Rattle.rv_walk.specs.Walked.{Walked};
ghost use Rattle.rv_walk.specs.internal.Inside.{AreMade, AreOf};

use crate::near_pair::{FAR, MOST_KEPT, NearPair, are_near};
use crate::sites::Sites;
use rv_break::claim::Seen;
use rv_memory::store::NoMemory;
use std::alloc::Global;

pub(crate) mod closest;
mod settled;
mod words;

use closest::Closest;
use settled::Settled;
use words::{NOTHING, Words};

/// An access, and the place of the one of its word that is kept before it, or `NOTHING`.
#[derive(Clone, Copy)]
pub struct Kept {
    pub seen: Seen,
    pub older: u32,
}

/// The place of an access that gives way, and of the one that leads to it, `NOTHING` where it is the newest of its word.
#[derive(Clone, Copy)]
pub struct Spot {
    pub place: u32,
    pub newer: u32,
}

/// The last accesses of each word, and the closest near pairs.
#[derive(Drop)]
pub struct Accesses {
    pub kept: Vec<Kept>,
    newest: Words,
    settled: Settled,
    pub closest: Closest,
}

impl Accesses {
    /// None yet.
    pub fn new(alloc: Global) -> Result<Accesses, NoMemory>
        ensures kept { IfOk result (λ accesses. accesses.kept.items ≡ []) }
        ensures closest { IfOk result (λ accesses. accesses.closest ≡ []) }
    {
        Ok(Accesses {
            kept: Vec::new(alloc),
            newest: Words::new(alloc)?,
            settled: Settled::new(alloc)?,
            closest: Closest::new(alloc),
        })
    }

    /// One more access: its near pairs with those that are kept are noted, and it is kept.
    #[inline(always)]
    pub fn see(&mut self, seen: Seen, sites: &Sites) -> Result<(), NoMemory>
        ensures { (walk : Walked) → walk.sites ≡ sites.now → WasMade walk seen → AreOf walk self.old → AreOf walk self.new }
    {
        let word = self.newest.entry_of(seen.access.first / 4)?;
        let newest = self.newest.get(word);
        match self.look(newest, seen, sites)? {
            None => {
                let place = u32::try_from(self.kept.len()).unwrap_or(NOTHING);
                self.kept.push(Kept {
                    seen,
                    older: newest,
                })?;
                self.newest.set(word, place);
            }
            Some(spot) => {
                replace(&mut self.kept, spot, seen, newest);
                self.newest.set(word, spot.place);
            }
        }
        Ok(())
    }

    /// Goes over what is kept of a word, the newest first, and notes near pairs. The one that gives way, where one does: that of the same
    /// hart and instruction, or else the first that is too far away or the last of the most.
    #[inline(always)]
    fn look(&mut self, newest: u32, seen: Seen, sites: &Sites) -> Result<Option<Spot>, NoMemory>
        ensures { (walk : Walked) → walk.sites ≡ sites.now → WasMade walk seen → AreOf walk self.old → AreOf walk self.new }
    {
        let mut own = None;
        let mut last = None;
        let mut spot = Spot {
            place: newest,
            newer: NOTHING,
        };
        for _ in 0..MOST_KEPT {
            let Some(kept) = kept_at(&self.kept, spot.place) else {
                return Ok(own);
            };
            if seen.place.wrapping_sub(kept.seen.place) > FAR {
                return Ok(own.or(Some(spot)));
            }
            if kept.seen.hart != seen.hart {
                self.pair(kept.seen, seen, sites)?;
            } else if kept.seen.access.pc == seen.access.pc {
                own = Some(spot);
                if kept.seen.access == seen.access {
                    return Ok(own);
                }
            }
            last = Some(spot);
            spot = Spot {
                place: kept.older,
                newer: spot.place,
            };
        }
        Ok(own.or(last))
    }

    /// Notes two accesses where they are near, and that isn't settled.
    #[inline(always)]
    fn pair(&mut self, first: Seen, second: Seen, sites: &Sites) -> Result<(), NoMemory>
        ensures closest { (walk : Walked) → walk.sites ≡ sites.now → WasMade walk first → WasMade walk second
            → All (IsNearPair walk) self.old.closest → All (IsNearPair walk) self.new.closest }
        ensures kept { self.new.kept ≡ self.old.kept }
    {
        let pair = NearPair { first, second };
        if !first.access.conflicts(&second.access) || self.settled.has(&pair) {
            return Ok(());
        }
        self.pair_anew(pair, sites)
    }

    /// Notes two accesses that conflict where they are near, and settles what that says of their instructions.
    #[cold]
    #[inline(never)]
    fn pair_anew(&mut self, pair: NearPair, sites: &Sites) -> Result<(), NoMemory>
        ensures closest { (walk : Walked) → walk.sites ≡ sites.now → WasMade walk pair.first → WasMade walk pair.second
            → All (IsNearPair walk) self.old.closest → All (IsNearPair walk) self.new.closest }
        ensures kept { self.new.kept ≡ self.old.kept }
    {
        if are_near(&pair.first, &pair.second, sites) {
            self.closest.note(pair)?;
        }
        let is_at_site = sites.contains(pair.first.access.pc)
            || sites.contains(pair.second.access.pc);
        let distance = if is_at_site { pair.distance() } else { 0 };
        self.settled.add(&pair, distance);
        Ok(())
    }
}

/// What is kept at a place, if something is.
#[inline(always)]
fn kept_at(kept: &[Kept], place: u32) -> Option<Kept>
    ensures { result ≡ slice_get kept.now place }
{
    kept.get(place as usize).copied()
}

/// An access in the place of another, and the newest of its word from now on.
fn replace(kept: &mut Vec<Kept>, spot: Spot, seen: Seen, newest: u32)
    ensures { (walk : Walked) → AreMade walk kept.old.items → WasMade walk seen → AreMade walk kept.new.items }
{
    let place = spot.place as usize;
    if place >= kept.len() {
        return;
    }
    let newer = spot.newer as usize;
    if newer >= kept.len() {
        kept[place].seen = seen;
        return;
    }
    kept[newer].older = kept[place].older;
    kept[place] = Kept {
        seen,
        older: newest,
    };
}
