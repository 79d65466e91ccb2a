//! The sites of images, and the words that pick among them.
use crate::assertion::assert_is;
use rv_elf::Image;
use rv_memory::region::Region;
use rv_sample::{Generator, Sampler};
use std::alloc::Global;
use std::process::Abort;

/// A segment of these words that may be read and executed, then `zeros` bytes.
fn code(rt: &impl Abort, alloc: Global, start: u32, words: &[u32], zeros: u32) -> Region {
    let mut bytes = Vec::new(alloc);
    for word in words {
        bytes
            .extend_from_slice(&word.to_le_bytes())
            .expect(rt, "refused");
    }
    let len = u32::try_from(bytes.len())
        .expect(rt, "refused")
        .checked_add(zeros)
        .expect(rt, "len");
    Region {
        start,
        bytes,
        len,
        r: true,
        w: false,
        x: true,
    }
}

/// The sampler of an image of these segments, the entry where the first begins.
fn sampler_in(
    rt: &impl Abort,
    alloc: Global,
    entry: u32,
    segments: Vec<Region>,
    excluded: &[u32],
) -> Sampler {
    let image = Image::new(entry, segments, Vec::new(alloc)).expect(rt, "no image");
    Sampler::sites(alloc, &image, excluded).expect(rt, "refused")
}

fn sampler_of(rt: &impl Abort, alloc: Global, words: &[u32], excluded: &[u32]) -> Sampler {
    let segment = code(rt, alloc, 0x1_0000, words, 0);
    sampler_in(
        rt,
        alloc,
        0x1_0000,
        vec![in alloc; segment].expect(rt, "refused"),
        excluded,
    )
}

/// Asserts which site each word picks.
fn assert_picks(rt: &impl Abort, sampler: &Sampler, wanted: &[(u32, Option<u32>)]) {
    for (word, site) in wanted {
        let picked = sampler.pick(*word);
        assert_is(rt, (word, picked), (word, *site), "pick");
    }
}

/// lui x6, 0x20; lbu x5, 1(x6); sb x10, 2(x6); sw x10, 0(x6); an illegal word.
const THREE: [u32; 5] = [
    0x0002_0337,
    0x0013_4283,
    0x00a3_0123,
    0x00a3_2023,
    0x0000_0073,
];

/// 4294967295 is a multiple of 3.
const OF_THREE: [(u32, Option<u32>); 6] = [
    (0, Some(0x1_0004)),
    (1, Some(0x1_0008)),
    (2, Some(0x1_000c)),
    (3, Some(0x1_0004)),
    (7, Some(0x1_0008)),
    (u32::MAX, Some(0x1_0004)),
];

#[test]
fn three_sites(rt: HostRuntime) {
    let sampler = sampler_of(&rt, rt.alloc(), &THREE, &[]);
    assert_picks(&rt, &sampler, &OF_THREE);
}

#[test]
fn excluded_addresses(rt: HostRuntime) {
    let sampler = sampler_of(&rt, rt.alloc(), &THREE, &[0x1_0008]);
    assert_picks(&rt, &sampler, &[(7, Some(0x1_000c)), (8, Some(0x1_0004))]);
    let sampler = sampler_of(&rt, rt.alloc(), &THREE, &[0x1_000c, 0x1_0008, 0x1_0004]);
    assert_picks(&rt, &sampler, &[(0, None), (7, None)]);
}

fn cut_segment(rt: &impl Abort, alloc: Global) -> Region {
    let mut segment = code(rt, alloc, 0x1_0000, &[0x0003_2283, 0x0000_2283], 8);
    segment.bytes.truncate(6);
    segment
}

/// The plain load in the last two bytes of a segment's bytes of the file, whose other two bytes are zeros of
/// memory, is no site: 0x00002283 is `lw x5, 0(x0)`, of which the last two bytes are zero.
#[test]
fn cut_by_the_end_of_the_file_bytes(rt: HostRuntime) {
    let segment = cut_segment(&rt, rt.alloc());
    let segments = vec![in rt.alloc(); segment].expect(&rt, "refused");
    let sampler = sampler_in(&rt, rt.alloc(), 0x1_0000, segments, &[]);
    assert_picks(&rt, &sampler, &[(0, Some(0x1_0000)), (1, Some(0x1_0000))]);
}

/// A segment that begins between two words.
fn odd_segment(rt: &impl Abort, alloc: Global) -> Region {
    let mut odd = code(rt, alloc, 0x1_0002, &[0, 0x0003_2283], 0);
    odd.bytes.clear();
    // two bytes, the word at 0x1_0004, and one byte more
    odd.bytes
        .extend_from_slice(&[0x83, 0x22, 0x83, 0x22, 0x03, 0x00, 0x83])
        .expect(rt, "refused");
    odd
}

/// Segments in any order; one that may not be executed; one that begins between two words.
fn segments(rt: &impl Abort, alloc: Global) -> Vec<Region> {
    let high = code(rt, alloc, 0x3_0000, &[0x0003_2283, 0x0003_2283], 4096);
    let mut fixed = code(rt, alloc, 0x2_0000, &[0x0003_2283], 0);
    fixed.x = false;
    let odd = odd_segment(rt, alloc);
    vec![in alloc; high, fixed, odd].expect(rt, "refused")
}

const OF_SEVERAL: [(u32, Option<u32>); 4] = [
    (0, Some(0x1_0004)),
    (1, Some(0x3_0000)),
    (2, Some(0x3_0004)),
    (3, Some(0x1_0004)),
];

#[test]
fn several_segments(rt: HostRuntime) {
    let segments = segments(&rt, rt.alloc());
    let sampler = sampler_in(&rt, rt.alloc(), 0x3_0000, segments, &[]);
    assert_picks(&rt, &sampler, &OF_SEVERAL);
}

/// LR, SC, AMO, a jump and a FENCE.
const NO_SITES: [u32; 5] = [
    0x1003_22af,
    0x1853_23af,
    0x0073_22af,
    0x0000_006f,
    0x0ff0_000f,
];

#[test]
fn only_plain_accesses(rt: HostRuntime) {
    let sampler = sampler_of(&rt, rt.alloc(), &NO_SITES, &[]);
    assert_picks(&rt, &sampler, &[(0, None)]);
}

/// The words of the PCG reference (XSH RR 64/32), and of other seeds and streams by another implementation.
const WORDS: [(u64, u64, [u32; 5]); 6] = [
    (
        42,
        54,
        [
            0xa15c_02b7,
            0x7b47_f409,
            0xba1d_3330,
            0x83d2_f293,
            0xbfa4_784b,
        ],
    ),
    (
        0,
        0,
        [
            0xe4c1_4788,
            0x379c_6516,
            0x5c4a_b3bb,
            0x601d_23e0,
            0x1c38_2b8c,
        ],
    ),
    (
        1,
        0,
        [
            0xe239_3051,
            0x0111_2f35,
            0xd350_9d35,
            0x0b93_2f4a,
            0x8aa4_6776,
        ],
    ),
    (
        0,
        1,
        [
            0x0f5d_eba9,
            0x1842_96dd,
            0x3576_43f4,
            0xf8e8_4c31,
            0xaac1_ca89,
        ],
    ),
    (
        u64::MAX,
        u64::MAX,
        [
            0x2675_c047,
            0x7779_a837,
            0xa145_aa13,
            0x5f6b_e726,
            0x523c_44c5,
        ],
    ),
    (
        4_294_967_295,
        999,
        [
            0x7ed7_f0d4,
            0x9273_519d,
            0xa0c6_83fb,
            0x3a15_8449,
            0x9244_690e,
        ],
    ),
];

fn first_words(seed: u64, stream: u64) -> [u32; 5] {
    let mut words = Generator::new(seed, stream);
    [
        words.next(),
        words.next(),
        words.next(),
        words.next(),
        words.next(),
    ]
}

#[test]
fn words_of_the_generator(rt: HostRuntime) {
    for (seed, stream, wanted) in &WORDS {
        let found = first_words(*seed, *stream);
        assert_is(&rt, (seed, stream, &found), (seed, stream, wanted), "words");
    }
}

/// A word that is looked at is the next one, and is not taken.
#[test]
fn a_peek_takes_no_word(rt: HostRuntime) {
    let mut words = Generator::new(42, 54);
    assert_is(&rt, words.peek(), 0xa15c_02b7, "the first word");
    assert_is(&rt, words.peek(), 0xa15c_02b7, "the same");
    assert_is(&rt, words.next(), 0xa15c_02b7, "taken");
    assert_is(&rt, words.peek(), 0x7b47_f409, "the second word");
}
