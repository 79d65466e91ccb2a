//! Programs that are drawn, and the near pairs of their walks by a plain program over the whole list of accesses.
use crate::samples::{assert_is, course_of, image};
use rv_break::claim::Seen;
use rv_collide::collider::machine_of;
use rv_elf::Image;
use rv_hart::access::Event;
use rv_memory::flat::Flat;
use rv_sample::{Generator, Sampler};
use rv_walk::code::{Code, Executed, Marks};
use rv_walk::course::go;
use rv_walk::near_pair::{FAR, MOST_KEPT, NearPair};
use rv_walk::sites::Sites;
use rv_walk::walk::{Walk, WalkLeft};
use std::alloc::Global;
use std::process::Abort;

/// How many instructions the loop of a drawn program has.
const BODY: u32 = 12;

/// How many programs are drawn.
const PROGRAMS: u32 = 500;

/// The most steps of a walk of one.
const MOST: u32 = 4000;

const HARTS: u8 = 4;

/// Loads and stores of x5 at x6, of a byte, a half and a word, an AMO, and `addi x5,x5,1`.
const MENU: [u32; 8] = [
    0x0003_0283,
    0x0053_0023,
    0x0003_1283,
    0x0053_1023,
    0x0003_2283,
    0x0053_2023,
    0x0073_22af,
    0x0012_8293,
];

/// Of the menu, with one of 16 offsets, which a store has in other bits; each is a multiple of four, so that nothing traps, but of
/// bytes.
fn instruction(word: u32) -> u32 {
    let kind = word % 8;
    let offset = match kind {
        0 | 1 => word >> 8 & 7,
        2 | 3 => word >> 8 & 6,
        4 | 5 => word >> 8 & 4,
        _ => 0,
    };
    match kind {
        1 | 3 | 5 => MENU[kind as usize] | offset << 7,
        _ => MENU[kind as usize] | offset << 20,
    }
}

/// `lui x6,0x20`, `addi x28,x0,6`, the body, `addi x28,x28,-1`, a branch to the body while x28 isn't 0, and the exit. The number draws the
/// body, by a linear congruential generator whose higher bits are taken.
fn program(rt: &impl Abort, alloc: Global, number: u32) -> Vec<u32> {
    let mut program = Vec::new(alloc);
    for word in [0x0002_0337, 0x0060_0e13] {
        program.push(word).expect(rt, "memory");
    }
    let mut drawn = number;
    for _ in 0..BODY {
        drawn = drawn.wrapping_mul(1_664_525).wrapping_add(1_013_904_223);
        program.push(instruction(drawn >> 12)).expect(rt, "memory");
    }
    for word in [0xfffe_0e13, 0xfc0e_16e3, 0x05d0_0893, 0x0000_0073] {
        program.push(word).expect(rt, "memory");
    }
    program
}

fn walked(rt: &impl Abort, alloc: Global, image: &Image, sites: &Sites, run: u32) -> WalkLeft {
    let machine = machine_of::<Flat>(alloc, image, HARTS, MOST).expect(rt, "memory");
    let code = Code::of(alloc, image).expect(rt, "memory");
    let none = Marks::none(alloc, code.len()).expect(rt, "memory");
    let executed = Executed::beside(alloc, &code, &none).expect(rt, "memory");
    let mut walk = Walk::begin(alloc, machine, MOST, sites, executed).expect(rt, "memory");
    let mut words = Generator::new(2, u64::from(run));
    let _over = go(&mut walk, course_of(run), &mut words).expect(rt, "memory");
    walk.finish(alloc).expect(rt, "memory")
}

/// The accesses of a walk, by a machine that makes its steps again.
fn accesses(rt: &impl Abort, alloc: Global, image: &Image, harts: &[u8]) -> Vec<Seen> {
    let mut machine = machine_of::<Flat>(alloc, image, HARTS, MOST).expect(rt, "memory");
    let mut seen = Vec::new(alloc);
    for (place, hart) in (0..MOST).zip(harts) {
        let event = machine.step(*hart).expect(rt, "a step");
        if let Event::Moved(Some(access)) = event {
            let one = Seen {
                place,
                hart: *hart,
                access,
            };
            seen.push(one).expect(rt, "memory");
        }
    }
    seen
}

/// Notes a pair where none of its addresses is as close.
fn note(rt: &impl Abort, pairs: &mut Vec<NearPair>, pair: NearPair) {
    for place in 0..pairs.len() {
        if pairs[place].addresses() == pair.addresses() {
            if pair.distance() < pairs[place].distance() {
                pairs[place] = pair;
            }
            return;
        }
    }
    pairs.push(pair).expect(rt, "memory");
}

/// Of each aligned word the last accesses by different hart and instruction, the oldest first: all that are kept stand in one list.
fn plain_pairs(rt: &impl Abort, alloc: Global, seen: &[Seen], sites: &Sites) -> Vec<NearPair> {
    let mut kept: Vec<Seen> = Vec::new(alloc);
    let mut pairs = Vec::new(alloc);
    for second in seen {
        let word = second.access.first / 4;
        for first in &kept {
            let is_near = first.access.first / 4 == word
                && first.hart != second.hart
                && second.place.saturating_sub(first.place) <= FAR
                && first.access.conflicts(&second.access);
            if is_near && (sites.contains(first.access.pc) || sites.contains(second.access.pc)) {
                let pair = NearPair {
                    first: *first,
                    second: *second,
                };
                note(rt, &mut pairs, pair);
            }
        }
        kept.retain(|it| it.access.first / 4 != word
            || it.hart != second.hart
            || it.access.pc != second.access.pc);
        let of_word = kept.iter().filter(|it| it.access.first / 4 == word).count();
        if of_word >= MOST_KEPT as usize {
            if let Some(oldest) = kept.iter().position(|it| it.access.first / 4 == word) {
                kept.remove(oldest);
            }
        }
        kept.push(*second).expect(rt, "memory");
    }
    pairs
}

#[test]
fn near_pairs_are_those_of_a_plain_program(rt: HostRuntime) {
    let mut count = 0usize;
    for run in 0..PROGRAMS {
        let program = program(&rt, rt.alloc(), run);
        let image = image(&rt, rt.alloc(), &program);
        let sampler = Sampler::sites(rt.alloc(), &image, &[]).expect(&rt, "memory");
        let sites = Sites::of(rt.alloc(), &sampler).expect(&rt, "memory");
        let left = walked(&rt, rt.alloc(), &image, &sites, run);
        let seen = accesses(&rt, rt.alloc(), &image, &left.harts);
        let plain = plain_pairs(&rt, rt.alloc(), &seen, &sites);
        assert_is(&rt, plain.len(), left.pairs.len(), "as many pairs");
        for pair in &plain {
            assert_is(&rt, left.pairs.contains(pair), true, "the pair is seen");
        }
        count = plain.len().saturating_add(count);
    }
    assert_is(&rt, 5000 <= count, true, "ten pairs a program");
}
