//! The walk of a run of a hunt, and its probes.
ghost use Rattle.std.specs.Prelude.{◌≡◌, IfOk};
ghost use Rattle.rv_search.specs.RunWalk as spec;

use crate::end::End;
use crate::hunt::Hunt;
use crate::stuck::is_reported;
use crate::summary::end_with;
use rv_collide::collider::machine_of;
use rv_hart::machine::Machine;
use rv_memory::paged::Paged;
use rv_memory::store::NoMemory;
use rv_sample::Generator;
use rv_stuck::{Act, acts_of};
use rv_walk::code::{Executed, Marks};
use rv_walk::course::{Course, MOST_WALKED, Over, burst_of, go};
use rv_walk::drawn::{drawn, repeated};
use rv_walk::near_pair::{Addresses, NearPair};
use rv_walk::probes::Probes;
use rv_walk::walk::{Walk, WalkLeft};
use std::alloc::Global;

/// What is added to the seed for the words by which a walk's probes are drawn.
const DRAWN: u64 = 1 << 32;

/// A walk that is over: what it leaves, how its harts ended, whether it made all steps that a walk may make, whether none of its
/// harts could go on, and what each of them does where it is a stuck end that is reported.
#[derive(Drop)]
pub struct RunWalk {
    pub left: WalkLeft,
    pub(crate) ends: Vec<End>,
    pub(crate) made_all: bool,
    pub(crate) ended: bool,
    pub(crate) stuck: Option<Vec<Act>>,
}

impl RunWalk {
    /// Whether it made all steps that a walk may make, and saw no near pair.
    pub(crate) fn is_spent(&self) -> bool {
        self.made_all && self.left.pairs.is_empty()
    }
}

/// How a hart ended that does this for ever, where others wait for ever in a way that is reported, or not.
fn end_by(act: &Act, is_reported: bool, end: End) -> End {
    match act {
        Act::Polls(polled) if is_reported => End::Polls(polled.pc),
        Act::Polls(_) => End::Idle,
        Act::Parked => End::Parked,
        Act::Exited | Act::Stopped => end,
    }
}

/// How the harts ended, by what each does for ever, where that is known.
fn ends_of(
    alloc: Global,
    machine: &Machine<Paged>,
    acts: &[Act],
    is_reported: bool,
) -> Result<Vec<End>, NoMemory> {
    let mut ends = Vec::new(alloc);
    for h in 0..machine.harts() {
        let end = end_with(machine.status(h), machine.pc(h));
        let ended = match acts.get(h as usize) {
            Some(act) => end_by(act, is_reported, end),
            None => end,
        };
        ends.push(ended)?;
    }
    Ok(ends)
}

/// What each hart does for ever, where the walk is over since all that run wait; else nothing.
fn acts_in(alloc: Global, walk: &mut Walk<'_, Paged>, over: Over) -> Result<Vec<Act>, NoMemory>
    ensures { walk.new ≡ walk.old }
{
    if over != Over::AllWait {
        return Ok(Vec::new(alloc));
    }
    match walk.stuck_end(alloc)? {
        Some(end) => acts_of(alloc, &end),
        None => Ok(Vec::new(alloc)),
    }
}

/// A machine as the walk of the run of that number begins.
pub fn begin_of(alloc: Global, hunt: &Hunt<'_>, number: u32) -> Result<Machine<Paged>, NoMemory>
    ensures { IfOk result (spec.IsBegin hunt.now number) }
{
    let plan = hunt.plans.plan(number);
    machine_of(alloc, hunt.image, plan.harts, MOST_WALKED)
}

/// The walk of the run of that number, from such a machine on, which stays as it is. The words of code that were executed in earlier
/// runs are counted.
pub fn walk_of(
    alloc: Global,
    hunt: &Hunt<'_>,
    number: u32,
    begin: &mut Machine<Paged>,
    counted: &Marks,
) -> Result<RunWalk, NoMemory>
    requires { spec.IsBegin hunt.now number begin.old }
    ensures same { begin.new ≡ begin.old }
    ensures walk { IfOk result (spec.IsRunWalk hunt.now number) }
{
    let machine = begin.share(MOST_WALKED)?;
    let executed = Executed::beside(alloc, hunt.code, counted)?;
    let mut walk = Walk::begin(alloc, machine, MOST_WALKED, hunt.sites, executed)?;
    let course = Course {
        steps: hunt.plans.plan(number).steps,
        burst: burst_of(number),
    };
    let mut words = Generator::new(u64::from(hunt.seed), u64::from(number));
    let over = go(&mut walk, course, &mut words)?;
    finished(alloc, hunt, walk, over)
}

/// What a walk that is over leaves.
fn finished(
    alloc: Global,
    hunt: &Hunt<'_>,
    walk: Walk<'_, Paged>,
    over: Over,
) -> Result<RunWalk, NoMemory>
    ensures { IfOk result (spec.IsLeftBy walk.entry) }
{
    let mut walk = walk;
    let acts = acts_in(alloc, &mut walk, over)?;
    let is_reported = is_reported(&acts, hunt.idle);
    let ends = ends_of(alloc, walk.machine(), &acts, is_reported)?;
    let made_all = walk.left() == 0;
    walk.facts();
    let left = walk.finish(alloc)?;
    Ok(RunWalk {
        left,
        ends,
        made_all,
        ended: over == Over::NoneRuns || over == Over::AllWait,
        stuck: is_reported.then_some(acts),
    })
}

/// The near pairs of a walk that are probed, in the order of their forks: all may be, or those alone that the hunt aims at, again and
/// again.
pub fn drawn_pairs(
    alloc: Global,
    hunt: &Hunt<'_>,
    number: u32,
    walk: &RunWalk,
) -> Result<Vec<NearPair>, NoMemory> {
    let mut words = Generator::new(DRAWN + u64::from(hunt.seed), u64::from(number));
    // A walk has far fewer steps than 2^32.
    let steps = u32::try_from(walk.left.harts.len()).unwrap_or(0);
    match hunt.aim {
        None => drawn(alloc, &walk.left.pairs, steps, &mut words),
        Some(aim) => {
            let aimed = aim.among(alloc, hunt.code, &walk.left.pairs)?;
            repeated(alloc, &aimed, steps, &mut words)
        }
    }
}

/// How often a near pair was probed before, where the probes of a pair come one after another.
#[derive(Clone, Copy)]
pub struct Repeats {
    last: Option<Addresses>,
    before: u32,
}

impl Repeats {
    /// None was probed.
    pub fn none() -> Repeats {
        Repeats {
            last: None,
            before: 0,
        }
    }

    /// How often this one was, which is probed now.
    pub fn before(&mut self, pair: &NearPair) -> u32 {
        let addresses = pair.addresses();
        self.before = if self.last == Some(addresses) {
            self.before.saturating_add(1)
        } else {
            0
        };
        self.last = Some(addresses);
        self.before
    }
}

/// The probes of the walk of the run of that number, by a machine as it began.
pub fn probes_of<'a>(
    begin: Machine<Paged>,
    hunt: &Hunt<'a>,
    number: u32,
    walk: &'a RunWalk,
) -> Probes<'a, Paged>
    requires walk { spec.IsRunWalk hunt.now number walk.now }
    requires begin { spec.IsBegin hunt.now number begin }
    ensures { spec.AreProbesOf hunt.now number walk.now result }
{
    let plan = hunt.plans.plan(number);
    Probes::of(
        begin,
        &walk.left.harts,
        hunt.sites,
        hunt.seed,
        number,
        plan.slots,
    )
}
