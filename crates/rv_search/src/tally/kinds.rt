//! How harts ended, kind by kind.
ghost use Rattle.std.specs.Prelude.{◌≡◌, OnErr, OnOk, map};
ghost use Rattle.std.specs.List.{list_any};
ghost use Rattle.rv_search.specs.Kinds as spec;

use crate::end::End;
use rv_memory::store::NoMemory;
use std::alloc::Global;
use std::marker::Model;

/// How many kinds have a count of their own.
pub(crate) const MOST_TOLD: usize = 8;

/// How many harts ended in one way.
#[derive(Clone, Copy)]
pub struct Kind {
    pub end: End,
    pub count: u64,
}

/// The first eight kinds of ends that were met, each with how many there were of it, and how many there were of all
/// others. (The codes that harts exit with may be ever new ones.) Counts stay at 2^64 - 1 once there.
#[derive(Drop)]
pub struct Kinds {
    told: Vec<Kind>,
    rest: u64,
}

impl Model for Kinds {
    ghost use Rattle.rv_search.specs.Kinds.{Kinds as Told};

    ghost Value = { Told };

    ghost view = { λ k. record { told = k.told.items; rest = k.rest } };
}

/// What tells a way of ending from others: which it is, its code or its cause, and its address.
#[derive(Clone, Copy)]
struct Mark {
    way: u8,
    cause: u32,
    address: u32,
}

fn marked(end: End) -> Mark
    ensures { result ≡ spec.mark end }
{
    let (way, cause, address) = match end {
        End::Exited(code) => (0, code, 0),
        End::Stopped(cause, pc) => (1, u32::from(cause.number()), pc),
        End::Polls(pc) => (2, 0, pc),
        End::Parked => (3, 0, 0),
        End::OutOfSteps => (4, 0, 0),
        End::Idle => (5, 0, 0),
    };
    Mark {
        way,
        cause,
        address,
    }
}

/// Whether two harts ended in one way.
pub(crate) fn is_same(end: End, other: End) -> bool
    ensures { result ≡ spec.same_end end other }
{
    let one = marked(end);
    let two = marked(other);
    one.way == two.way && one.cause == two.cause && one.address == two.address
}

/// Counts one more end of a kind, if it is of that.
fn count(kind: &mut Kind, end: End)
    ensures { kind.new ≡ spec.counted end kind.old }
{
    if is_same(kind.end, end) {
        kind.count = kind.count.saturating_add(1);
    }
}

/// Counts one more end of the kinds that it is of.
fn count_among(kinds: &mut [Kind], end: End)
    ensures { kinds.new ≡ map (spec.counted end) kinds.old }
{
    for kind in kinds.iter_mut() {
        count(kind, end);
    }
}

impl Kinds {
    pub fn new(alloc: Global) -> Kinds
        ensures { result ≡ spec.no_kinds }
    {
        Kinds {
            told: Vec::new(alloc),
            rest: 0,
        }
    }

    /// The kinds that were met first, in the order in which they were met.
    pub fn told(&self) -> &[Kind]
        ensures { result.now ≡ self.now.told }
    {
        &self.told
    }

    /// How many harts ended in other ways.
    pub fn rest(&self) -> u64
        ensures { result ≡ self.now.rest }
    {
        self.rest
    }

    /// Whether a kind was met.
    fn has(&self, end: End) -> bool
        ensures { result ≡ list_any (spec.is_of end) self.now.told }
    {
        self.told.iter().any(|kind| is_same(kind.end, end))
    }

    /// Counts one more end. Where growth is refused nothing changes.
    #[tactic(auto, unfolding(crate::specs::Kinds::one_more))]
    pub fn add(&mut self, end: End) -> Result<(), NoMemory>
        ensures ok { OnOk result (self.new ≡ spec.one_more self.old end) }
        ensures err { OnErr result (self.new ≡ self.old) }
    {
        if self.has(end) {
            count_among(&mut self.told, end);
        } else if self.told.len() < MOST_TOLD {
            self.told.push(Kind { end, count: 1 })?;
        } else {
            self.rest = self.rest.saturating_add(1);
        }
        Ok(())
    }
}
