//! Walks, the near pairs that they see, and probes that begin in their middle.
use crate::samples::{assert_is, course_of, image};
use rv_collide::collider::{Finished, machine_of};
use rv_collide::ending::Verdict;
use rv_collide::replay::replay;
use rv_elf::Image;
use rv_memory::flat::Flat;
use rv_memory::paged::Paged;
use rv_memory::store::Fork;
use rv_sample::{Generator, Sampler};
use rv_walk::code::{Code, Executed, Marks};
use rv_walk::course::{MOST_WALKED, Over, go};
use rv_walk::drawn::drawn;
use rv_walk::probe::Reached;
use rv_walk::probes::Probes;
use rv_walk::sites::Sites;
use rv_walk::walk::{Walk, WalkLeft};
use std::alloc::Global;
use std::process::Abort;

/// After `lui x6,0x20` and `addi x7,x0,20`: `lw x5,0(x6)`, `addi x5,x5,1`, `sw x5,0(x6)`, `addi x7,x7,-1`, `bne x7,x0,0x00010008`,
/// `addi x17,x0,93`, `ecall`.
const COUNTERS: [u32; 9] = [
    0x0002_0337,
    0x0140_0393,
    0x0003_2283,
    0x0012_8293,
    0x0053_2023,
    0xfff3_8393,
    0xfe03_98e3,
    0x05d0_0893,
    0x0000_0073,
];

/// The walk of run 0, of two harts.
fn walked<S: Fork>(
    rt: &impl Abort,
    alloc: Global,
    image: &Image,
    sites: &Sites,
) -> (WalkLeft, Over) {
    let machine = machine_of::<S>(alloc, image, 2, MOST_WALKED).expect(rt, "memory");
    let code = Code::of(alloc, image).expect(rt, "memory");
    let none = Marks::none(alloc, code.len()).expect(rt, "memory");
    let executed = Executed::beside(alloc, &code, &none).expect(rt, "memory");
    let mut walk = Walk::begin(alloc, machine, MOST_WALKED, sites, executed).expect(rt, "memory");
    let mut words = Generator::new(1, 0);
    let over = go(&mut walk, course_of(0), &mut words).expect(rt, "memory");
    (walk.finish(alloc).expect(rt, "memory"), over)
}

/// What the probes of all near pairs of the walk come to: how many end in a hit of two instructions of a pair, how many hold a hart, and
/// how many reach none.
#[derive(Clone, Copy, Debug, PartialEq, Eq)]
struct Outcome {
    pairs: usize,
    hits: u32,
    held: u32,
    never: u32,
}

/// The part's list is a schedule from the image's start on: told again it has the same endings, each behind the part's begin.
fn assert_replays(
    rt: &impl Abort,
    alloc: Global,
    image: &Image,
    whole: &Finished,
    place: u32,
    own: usize,
) {
    let core = replay::<Flat>(alloc, image, whole.plan, &whole.entries).expect(rt, "a schedule");
    assert_is(rt, whole.endings.len(), own, "as many endings");
    assert_is(
        rt,
        core.endings() as usize,
        own,
        "as many endings told again",
    );
    for n in 0..core.endings() {
        let told = core.ending(n);
        let found = whole.endings.get(n as usize).copied();
        assert_is(rt, found == Some(told), true, "the same ending");
        assert_is(rt, place < told.paused_at, true, "behind the fork");
    }
}

fn found_by<S: Fork>(rt: &impl Abort, alloc: Global, image: &Image) -> Outcome {
    let sampler = Sampler::sites(alloc, image, &[]).expect(rt, "memory");
    let sites = Sites::of(alloc, &sampler).expect(rt, "memory");
    let (left, over) = walked::<S>(rt, alloc, image, &sites);
    assert_is(rt, over, Over::NoneRuns, "each hart exits");
    let mut seen = Outcome {
        pairs: left.pairs.len(),
        hits: 0,
        held: 0,
        never: 0,
    };
    let mut words = Generator::new((1 << 32) + 1, 0);
    let made = left.harts.len();
    assert!(rt; made <= MOST_WALKED as usize);
    let drawn = drawn(alloc, &left.pairs, made as u32, &mut words).expect(rt, "memory");
    let machine = machine_of::<S>(alloc, image, 2, MOST_WALKED).expect(rt, "memory");
    let mut probes = Probes::of(machine, &left.harts, &sites, 1, 0, 8);
    for pair in &drawn {
        let part = probes.probe(alloc, pair, 0).expect(rt, "memory");
        seen.held = seen
            .held
            .saturating_add(u32::from(part.probed.reached == Reached::Held));
        seen.never = seen
            .never
            .saturating_add(u32::from(part.probed.reached == Reached::Never));
        for ending in &part.probed.finished.endings {
            if let Verdict::Hit(_) = ending.verdict {
                seen.hits = seen.hits.saturating_add(1);
            }
        }
        let place = part.place;
        let own = part.probed.finished.endings.len();
        let whole = part.whole(alloc, &left.harts).expect(rt, "memory");
        assert_replays(rt, alloc, image, &whole, place, own);
    }
    seen
}

#[test]
fn a_counter_that_two_harts_raise_is_a_race(rt: HostRuntime) {
    let image = image(&rt, rt.alloc(), &COUNTERS);
    let flat = found_by::<Flat>(&rt, rt.alloc(), &image);
    let paged = found_by::<Paged>(&rt, rt.alloc(), &image);
    assert_is(&rt, flat, paged, "both stores");
    let wanted = Outcome {
        pairs: 2,
        hits: 2,
        held: 2,
        never: 0,
    };
    assert_is(&rt, flat, wanted, "the counter");
}
