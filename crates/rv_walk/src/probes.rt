//! The probes of a walk: its parts, one after another.
ghost use Rattle.std.specs.Prelude.{◌≡◌, ◌≤◌, ◌<◌, ◌^◌, [], IfOk, length};
ghost use Rattle.rv_walk.specs.Part.{IsPart, IsWhole};
ghost use Rattle.rv_walk.specs.Walked.{Walked, entries_of};
ghost use Rattle.rv_break.specs.declared.claim.TheConstants.{MOST_SLOTS};

use crate::again::Again;
use crate::course::MOST_WALKED;
use crate::drawn::plan_of;
use crate::near_pair::NearPair;
use crate::probe::{Probed, probe};
use crate::sites::Sites;
use crate::walk_laws::steps_are_a_prefix;
use rv_collide::collider::Finished;
use rv_collide::entry::Entry;
use rv_collide::join::joined;
use rv_hart::machine::Machine;
use rv_memory::store::{Fork, NoMemory};
use rv_sample::Generator;
use rv_stuck::StuckEnd;
use std::alloc::Global;
use std::marker::Model;

/// How many steps before the first access of its pair a probe begins, so that it meets the harts on their way.
const BEFORE: u32 = 8;

/// A part of a run: the probe of a near pair, from a place of the walk on, and what each hart does where it ended and all that run wait.
#[derive(Drop)]
pub struct Part {
    pub pair: NearPair,
    pub place: u32,
    pub probed: Probed,
    pub stuck: Option<StuckEnd>,
}

/// What the probes of a run have in common: its walk, the sites, the seed, the run's number, and how many slots there are.
#[derive(Drop)]
pub struct Probes<'a, S: Fork> {
    again: Again<'a, S>,
    sites: &'a Sites,
    seed: u32,
    run: u32,
    harts: u8,
    slots: u8,
}

impl<'a, S: Fork> Model for Probes<'a, S> {
    ghost use Rattle.std.specs.Prelude.{length};
    ghost use Rattle.rv_walk.specs.Walked.{Walked};
    ghost use Rattle.rv_walk.specs.internal.Parting.{AreReady};

    ghost Value = { Walked };

    ghost view = { λ p. record {
      start = p.again.start;
      harts = p.again.harts;
      most = length p.again.harts;
      sites = p.sites.now;
    } };

    ghost invariant = { λ p. AreReady p.again p.harts p.slots };
}

impl<'a, S: Fork> Probes<'a, S> {
    /// Those of a walk of so many steps from a machine on that has printed nothing, with so many slots (1 to 8).
    pub fn of(
        machine: Machine<S>,
        harts: &'a [u8],
        sites: &'a Sites,
        seed: u32,
        run: u32,
        slots: u8,
    ) -> Probes<'a, S>
        requires printed { machine.state.output ≡ [] }
        requires room { length harts.now ≤ machine.limit }
        requires few { length harts.now ≤ MOST_WALKED }
        requires some_slot { 1 ≤ slots }
        requires slots { slots ≤ MOST_SLOTS }
        ensures { result ≡ record {
          start = machine.state;
          harts = harts.now;
          most = length harts.now;
          sites = sites.now;
        } }
    {
        let count = machine.harts();
        Probes {
            again: Again::begin(machine, harts),
            sites,
            seed,
            run,
            harts: count,
            slots,
        }
    }

    /// The probe of a near pair that was probed so many times before. It forks some steps before the pair, where the walk hasn't been
    /// gone over for longer: so the pairs are given in the order of their first places.
    pub fn probe(&mut self, alloc: Global, pair: &NearPair, before: u32) -> Result<Part, NoMemory>
        ensures same { self.new ≡ self.old }
        ensures part { IfOk result (λ part. IsPart self.old part) }
        ensures pair { IfOk result (λ part. part.pair ≡ pair.now) }
        ensures short { IfOk result (λ part. length part.probed.finished.entries.items < 2 ^ 31) }
    {
        let place = fork_place(&self.again, pair);
        let plan = plan_of(pair, self.harts, self.slots);
        let detector = self.again.fork_at(alloc, place, plan)?;
        let addresses = pair.addresses();
        let stream = stream_of(addresses.lesser, addresses.greater, self.run, before);
        let mut words = Generator::new(u64::from(self.seed), stream);
        let probed = probe(alloc, detector, addresses, self.sites, &mut words)?;
        let stuck = self.stuck_behind(alloc, &probed)?;
        Ok(Part {
            pair: *pair,
            place,
            probed,
            stuck,
        })
    }
}

impl<'a, S: Fork> Probes<'a, S> {
    /// The machine as it stood before an entry of the last part that was made, with room to print a byte at each of the part's entries.
    pub fn before(&mut self, part: &Part, entry: u32) -> Result<Option<Machine<S>>, NoMemory>
        ensures { self.new ≡ self.old }
    {
        self.again
            .machine_behind(&part.probed.finished.entries, entry as usize)
    }

    /// What each hart does at the end of a probe that forked where the walk has been gone over to, where all that run wait.
    fn stuck_behind(&mut self, alloc: Global, probed: &Probed) -> Result<Option<StuckEnd>, NoMemory>
        ensures { self.new ≡ self.old }
    {
        if probed.rests {
            self.again.stuck_behind(alloc, &probed.finished.entries)
        } else {
            Ok(None)
        }
    }
}

/// Where the probe of a pair forks.
fn fork_place<S: Fork>(again: &Again<'_, S>, pair: &NearPair) -> u32
    ensures ahead { again.now.place ≤ result }
    ensures within { result ≤ length again.now.harts }
{
    let wanted = pair.first.place.saturating_sub(BEFORE);
    wanted.min(again.steps()).max(again.place())
}

/// The stream of a probe's words: both addresses, the run's number, and how often the pair was probed before make it.
fn stream_of(lesser: u32, greater: u32, run: u32, before: u32) -> u64 {
    (u64::from(lesser) << 32 | u64::from(greater))
        ^ (u64::from(run) << 16)
        ^ (u64::from(before) << 40)
}

impl Part {
    /// The part from the walk's begin on: the walk's steps up to the fork, and then the part's own entries, under a plan with just
    /// the steps and arms that these need.
    pub fn whole(self, alloc: Global, harts: &[u8]) -> Result<Finished, NoMemory>
        requires few { length harts.now ≤ MOST_WALKED }
        requires short { length self.probed.finished.entries.items < 2 ^ 31 }
        ensures { IfOk result (λ whole. (walk : Walked) → walk.harts ≡ harts.now → IsPart walk self → IsWhole walk self whole) }
    {
        steps_are_a_prefix();
        let place = (self.place as usize).min(harts.len());
        let prefix = steps_of(alloc, &harts[..place])?;
        joined(alloc, &prefix, &[], self.probed.finished)
    }
}

/// The entries of steps.
pub fn steps_of(alloc: Global, harts: &[u8]) -> Result<Vec<Entry>, NoMemory>
    ensures { IfOk result (λ entries. entries.items ≡ entries_of harts.now) }
{
    Ok(harts.iter().map(|h| Entry::Stepped(*h)).collect(alloc)?)
}
