//! Each rule just met and just missed.
use super::*;

const LB: u32 = 0x0003_0283;

const LH: u32 = 0x0003_1283;

const LW: u32 = 0x0003_2283;

const LBU: u32 = 0x0003_4283;

const LHU: u32 = 0x0003_5283;
/// `andi x7,x5,1`
const MASK_1: u32 = 0x0012_f393;
/// `andi x7,x5,2`
const MASK_2: u32 = 0x0022_f393;
/// `andi x7,x5,-256`
const MASK_HIGH: u32 = 0xf002_f393;

/// A load at 00010000 and what follows it, the size of an access there that met a store, and its values before and
/// after.
type Load = ([u32; 2], u8, u32, u32);

static LOADS: [(Load, Class); 14] = [
    (([LW, MASK_1], 4, 0, 2), Class::Flag),
    (([LW, MASK_2], 4, 0, 2), Class::Kept),
    (([LW, MASK_1], 4, 0, 3), Class::Kept),
    // Both values have the mask's bit, or neither has: what counts is the change.
    (([LW, MASK_1], 4, 1, 3), Class::Flag),
    (([LW, MASK_1], 4, 3, 1), Class::Flag),
    (([LW, MASK_1], 4, 1, 0), Class::Kept),
    // Nothing changed.
    (([LW, MASK_1], 4, 2, 2), Class::Kept),
    // The load has another size than the access.
    (([LW, MASK_1], 2, 0, 2), Class::Kept),
    (([LH, MASK_1], 4, 0, 2), Class::Kept),
    (([LH, MASK_1], 2, 0, 2), Class::Flag),
    (([LHU, MASK_1], 2, 0, 2), Class::Flag),
    // A sign that is extended reaches the mask.
    (([LBU, MASK_HIGH], 1, 0x7f, 0x80), Class::Flag),
    (([LB, MASK_HIGH], 1, 0x7f, 0x80), Class::Kept),
    (([LB, MASK_HIGH], 1, 0x7e, 0x7f), Class::Flag),
];

fn flag(rt: &impl Abort, alloc: Global, load: &Load) -> Class {
    let ending = hit(loads(0x10000, load.1), 0x10000, load.2, load.3);
    class_in(rt, alloc, &load.0, &ending)
}

#[test]
fn changed_bits_and_the_mask(rt: HostRuntime) {
    for (load, want) in &LOADS {
        let class = flag(&rt, rt.alloc(), load);
        assert_is(&rt, (load, class), (load, *want), "load");
    }
}

/// Words that are no load and mask of its register.
const OTHERS: [[u32; 2]; 5] = [
    // x0 as the load's register: `lw x0,0(x6)`, `andi x7,x0,1`
    [0x0003_2003, 0x0010_7393],
    // `andi x7,x6,1` looks at another register
    [LW, 0x0013_7393],
    // `ori x7,x5,1`
    [LW, 0x0012_e393],
    // `lr.w x5,(x6)`
    [0x1003_22af, MASK_1],
    // an illegal word
    [LW, 0],
];

#[test]
fn other_code_is_no_flag(rt: HostRuntime) {
    for words in &OTHERS {
        let class = flag(&rt, rt.alloc(), &(*words, 4, 0, 2));
        assert_is(&rt, (words, class), (words, Class::Kept), "words");
    }
    let ending = hit(loads(0x10004, 4), 0x10000, 0, 2);
    let class = class_in(&rt, rt.alloc(), &[0x73, LW], &ending);
    assert_is(&rt, class, Class::Kept, "the last word of its segment");
}

#[test]
fn a_store_is_no_flag(rt: HostRuntime) {
    let access = Access {
        read: false,
        write: true,
        ..loads(0x10000, 4)
    };
    let ending = hit(access, 0x10000, 0, 2);
    let class = class_in(&rt, rt.alloc(), &[LW, MASK_1], &ending);
    assert_is(
        &rt,
        class,
        Class::Kept,
        "a store where the image has a load",
    );
}

/// `addi x5,x5,1`
const ADD: u32 = 0x0012_8293;
/// `sw x5,0(x6)`
const SW: u32 = 0x0053_2023;

const TRIPLES: [([u32; 3], Class); 13] = [
    ([LW, ADD, SW], Class::Counter),
    // n is -1
    ([LW, 0xfff2_8293, SW], Class::Counter),
    // n is 0
    ([LW, 0x0002_8293, SW], Class::Kept),
    // r is b: `lw x6,0(x6)`, `addi x6,x6,1`, `sw x6,0(x6)`
    ([0x0003_2303, 0x0013_0313, 0x0063_2023], Class::Kept),
    // r is x0: `lw x0,0(x6)`, `addi x0,x0,1`, `sw x0,0(x6)`
    ([0x0003_2003, 0x0010_0013, 0x0003_2023], Class::Kept),
    // another place: `sw x5,4(x6)`, `sw x5,0(x7)`
    ([LW, ADD, 0x0053_2223], Class::Kept),
    ([LW, ADD, 0x0053_a023], Class::Kept),
    // another register: `addi x7,x5,1`, `addi x5,x7,1`, `sw x7,0(x6)`
    ([LW, 0x0012_8393, SW], Class::Kept),
    ([LW, 0x0013_8293, SW], Class::Kept),
    ([LW, ADD, 0x0073_2023], Class::Kept),
    // halves, and another operation: `sh x5,0(x6)`, `xori x5,x5,1`
    ([LH, ADD, SW], Class::Kept),
    ([LW, ADD, 0x0053_1023], Class::Kept),
    ([LW, 0x0012_c293, SW], Class::Kept),
];

/// A hit of a load or store at 00010000 with one of another hart at 00010008.
#[test]
fn triples(rt: HostRuntime) {
    let ending = hit(loads(0x10000, 4), 0x10008, 0, 1);
    for (words, want) in &TRIPLES {
        let class = class_in(&rt, rt.alloc(), words, &ending);
        assert_is(&rt, (words, class), (words, *want), "words");
    }
}

/// A triple at 00010000 and one of x7 at 0001000c.
const TWO_TRIPLES: [u32; 6] = [LW, ADD, SW, 0x0003_2383, 0x0013_8393, 0x0073_2023];

/// Two addresses of accesses in these, and the class of their hit.
const PLACES: [(u32, u32, Class); 8] = [
    (0x10000, 0x10000, Class::Counter),
    (0x10008, 0x10000, Class::Counter),
    (0x10000, 0x10014, Class::Counter),
    (0x1000c, 0x10008, Class::Counter),
    (0x10004, 0x10000, Class::Kept),
    (0x10000, 0x10010, Class::Kept),
    (0x10002, 0x10000, Class::Kept),
    (0x10018, 0x10000, Class::Kept),
];

fn classes_at(rt: &impl Abort, alloc: Global, pc: u32, met: u32) -> (Class, Class) {
    let image = image(rt, alloc, &TWO_TRIPLES);
    let ending = hit(loads(pc, 4), met, 0, 1);
    let changed = Ending {
        verdict: Verdict::Changed,
        ..ending
    };
    let of_hit = class_with(rt, alloc, &image, &ending);
    (of_hit, class_with(rt, alloc, &image, &changed))
}

/// A change that no hart was seen to make is kept wherever it is.
#[test]
fn places_of_triples(rt: HostRuntime) {
    for (pc, met, want) in &PLACES {
        let (of_hit, of_change) = classes_at(&rt, rt.alloc(), *pc, *met);
        assert_is(&rt, (pc, met, of_hit), (pc, met, *want), "a hit");
        assert_is(&rt, of_change, Class::Kept, "a change");
    }
}

/// The image of these segments, and the class in it of a hit that is a triple's if the image has one at `start`.
fn class_at(rt: &impl Abort, alloc: Global, start: u32, segments: Vec<Region>) -> Class {
    let image = Image::new(start, segments, Vec::new(alloc)).expect(rt, "an image");
    let ending = hit(loads(start, 4), start.wrapping_add(8), 0, 1);
    class_with(rt, alloc, &image, &ending)
}

/// The first bytes of a segment.
fn cut(mut segment: Region, len: u32) -> Region {
    segment.bytes.truncate(len as usize);
    segment.len = len;
    segment
}

/// A triple whose last word is not of file bytes.
fn without_last_bytes(rt: &impl Abort, alloc: Global) -> Vec<Region> {
    let text = segment(rt, alloc, 0x10000, &[LW, ADD]);
    one(rt, alloc, Region { len: 12, ..text })
}

/// A triple whose last word lies in two segments.
fn with_last_in_two(rt: &impl Abort, alloc: Global) -> Vec<Region> {
    let front = segment(rt, alloc, 0x10000, &[LW, ADD, SW]);
    let back = segment(rt, alloc, 0x1000a, &[0x53]);
    two(rt, alloc, cut(front, 10), cut(back, 2))
}

/// A triple from `start` on whose last word is whole in a segment of its own, which may be executed or not.
fn with_last_apart(rt: &impl Abort, alloc: Global, start: u32, x: bool) -> Vec<Region> {
    let front = segment(rt, alloc, start, &[LW, ADD]);
    let back = segment(rt, alloc, start.wrapping_add(8), &[SW]);
    two(rt, alloc, front, Region { x, ..back })
}

fn one(rt: &impl Abort, alloc: Global, segment: Region) -> Vec<Region> {
    vec![in alloc; segment].expect(rt, "memory")
}

fn two(rt: &impl Abort, alloc: Global, front: Region, back: Region) -> Vec<Region> {
    vec![in alloc; front, back].expect(rt, "memory")
}

/// A triple whose last word is not wholly of file bytes of one segment.
#[test]
fn a_triple_is_cut(rt: HostRuntime) {
    let segments = without_last_bytes(&rt, rt.alloc());
    let class = class_at(&rt, rt.alloc(), 0x10000, segments);
    assert_is(&rt, class, Class::Kept, "not of file bytes");
    let segments = with_last_in_two(&rt, rt.alloc());
    let class = class_at(&rt, rt.alloc(), 0x10000, segments);
    assert_is(&rt, class, Class::Kept, "in two segments");
    let segments = with_last_apart(&rt, rt.alloc(), 0x10000, false);
    let class = class_at(&rt, rt.alloc(), 0x10000, segments);
    assert_is(&rt, class, Class::Counter, "in a segment of its own");
}

/// Addresses of a triple's words are modulo 2^32.
#[test]
fn a_triple_passes_the_last_address(rt: HostRuntime) {
    let segments = with_last_apart(&rt, rt.alloc(), 0xffff_fff8, true);
    let class = class_at(&rt, rt.alloc(), 0xffff_fff8, segments);
    assert_is(&rt, class, Class::Counter, "its last word is at 0");
}
