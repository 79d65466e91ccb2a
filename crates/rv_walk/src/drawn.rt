//! Which near pairs of a walk are probed, and by what plans.
ghost use Rattle.std.specs.Prelude.{◌≡◌, ◌+◌, ◌≤◌, ◌<◌, ◌^◌, IfOk, OnOk, length};
ghost use Rattle.std.specs.List.{All};
ghost use Rattle.rv_break.specs.declared.claim.TheConstants.{MOST_SLOTS};
ghost use Rattle.rv_walk.specs.NearPair.{IsNearPair};
ghost use Rattle.rv_walk.specs.Walked.{Walked};
ghost use Rattle.rv_walk.specs.internal.Drawn.{AreWorded};

use crate::accesses::closest::rank;
use crate::near_pair::{FAR, NearPair};
use rv_collide::plan::{MOST_HARTS, Plan};
use rv_memory::store::NoMemory;
use rv_sample::Generator;
use std::alloc::Global;

/// How many addresses a probe arms at most, one after another.
const MOST_HOLDS: u32 = 64;

/// How many pauses' worth of steps a probe makes at most.
const PAUSES: u32 = 3;

/// How many steps longer than twice the distance of its pair a probe's pause is.
const LONGER: u32 = 64;

/// A walk's probes may make so many times its own steps together, and some more.
const TIMES: u64 = 4;

const MORE: u64 = 3000;

/// For how many steps of others a probe of a near pair holds a hart: so long that the other comes as it did in the walk.
fn pause_of(pair: &NearPair) -> u32
    ensures some { 1 ≤ result }
    ensures few { result ≤ 8064 }
{
    2 * pair.distance().min(FAR) + LONGER
}

/// The plan of the probe of a near pair, of so many harts (1 to 16) and slots (1 to 8).
pub fn plan_of(pair: &NearPair, harts: u8, slots: u8) -> Plan
    requires some_hart { 1 ≤ harts }
    requires harts { harts ≤ MOST_HARTS }
    requires some_slot { 1 ≤ slots }
    requires slots { slots ≤ MOST_SLOTS }
    ensures harts { result.harts ≡ harts }
    ensures steps { result.steps ≤ 24_192 }
{
    let pause = pause_of(pair);
    match Plan::new(harts, PAUSES * pause, MOST_HOLDS, pause, slots) {
        Some(plan) => plan,
        None => unreachable!(),
    }
}

/// The near pairs that are probed of a walk of so many steps, in the order of their forks. They are drawn until the steps of their
/// probes would come to over four times the walk's and 3,000 more. Each has a word of the generator, and the least words come first.
pub fn drawn(
    alloc: Global,
    pairs: &[NearPair],
    made: u32,
    words: &mut Generator,
) -> Result<Vec<NearPair>, NoMemory>
    requires { words.old.taken + length pairs.now < 2 ^ 64 }
    ensures { IfOk result (λ drawn. (walk : Walked) → All (IsNearPair walk) pairs.now → All (IsNearPair walk) drawn.items) }
{
    let mut order = with_words(alloc, pairs, words)?;
    order.sort_unstable_by_key(|it| it.word);
    let mut drawn = affordable(alloc, &order, made)?;
    drawn.sort_unstable_by_key(|pair| rank(pair));
    Ok(drawn)
}

/// How many steps the probes of a walk of so many may make together.
fn most_of(made: u32) -> u64
    ensures { result < 2 ^ 63 }
{
    TIMES * u64::from(made) + MORE
}

/// How many steps the probe of a pair makes at most.
fn cost_of(pair: &NearPair) -> u64
    ensures some { 1 ≤ result }
    ensures few { result < 2 ^ 32 }
{
    u64::from(PAUSES * pause_of(pair))
}

/// The near pairs that are probed of a walk of so many steps where these pairs alone are aimed at, in the order of their forks: each
/// as often as the steps of all allow, and where they don't allow each once those that are drawn.
pub fn repeated(
    alloc: Global,
    pairs: &[NearPair],
    made: u32,
    words: &mut Generator,
) -> Result<Vec<NearPair>, NoMemory>
    requires { words.old.taken + length pairs.now < 2 ^ 64 }
    ensures { IfOk result (λ drawn. (walk : Walked) → All (IsNearPair walk) pairs.now → All (IsNearPair walk) drawn.items) }
{
    let mut cost = 0u64;
    for pair in pairs {
        cost = cost.saturating_add(cost_of(pair));
    }
    let times = most_of(made) / cost.max(1);
    if times == 0 {
        return drawn(alloc, pairs, made, words);
    }
    each_so_often(alloc, pairs, times)
}

/// Each of the pairs so many times, one after another.
fn each_so_often(alloc: Global, pairs: &[NearPair], times: u64) -> Result<Vec<NearPair>, NoMemory>
    ensures { IfOk result (λ all. (walk : Walked) → All (IsNearPair walk) pairs.now → All (IsNearPair walk) all.items) }
{
    let mut all = Vec::new(alloc);
    for pair in pairs {
        push_often(&mut all, pair, times)?;
    }
    Ok(all)
}

/// Adds a pair so many times.
fn push_often(all: &mut Vec<NearPair>, pair: &NearPair, times: u64) -> Result<(), NoMemory>
    ensures { OnOk result ((walk : Walked) → All (IsNearPair walk) all.old.items → IsNearPair walk pair.now
        → All (IsNearPair walk) all.new.items) }
{
    for _ in 0..times {
        all.push(*pair)?;
    }
    Ok(())
}

/// A near pair, and the word that it has in the draw.
#[derive(Clone, Copy)]
pub(crate) struct Worded {
    pub(crate) word: u32,
    pub(crate) pair: NearPair,
}

/// A word for each pair.
fn with_words(
    alloc: Global,
    pairs: &[NearPair],
    words: &mut Generator,
) -> Result<Vec<Worded>, NoMemory>
    requires { words.old.taken + length pairs.now < 2 ^ 64 }
    ensures { IfOk result (λ order. (walk : Walked) → All (IsNearPair walk) pairs.now → AreWorded walk order.items) }
{
    let mut order = Vec::with_capacity(alloc, pairs.len())?;
    for place in 0..pairs.len() {
        order.push(Worded {
            word: words.next(),
            pair: pairs[place],
        })?;
    }
    Ok(order)
}

/// The first pairs, as many as their probes' steps allow.
fn affordable(alloc: Global, order: &[Worded], made: u32) -> Result<Vec<NearPair>, NoMemory>
    ensures { IfOk result (λ drawn. (walk : Walked) → AreWorded walk order.now → All (IsNearPair walk) drawn.items) }
{
    let most = most_of(made);
    let mut cost = 0u64;
    let mut drawn = Vec::new(alloc);
    for it in order {
        cost = cost.saturating_add(cost_of(&it.pair));
        if cost > most {
            return Ok(drawn);
        }
        drawn.push(it.pair)?;
    }
    Ok(drawn)
}
