//! Trials of programs that print or never end. (tests/instructions has those of races.)
use super::{machine, tried};
use crate::assertion::assert_is;
use crate::machines::run_alone;
use rv_hart::machine::Machine;
use rv_memory::paged::Paged;
use rv_orders::{Difference, HartEnd, Tried};
use std::alloc::Global;
use std::process::Abort;

/// Each hart prints its number, and exits with 0. `addi x10,x10,48`, `addi x17,x0,1`, `ecall`, `addi x10,x0,0`, `addi x17,x0,93`, `ecall`
const PRINTS: [u32; 6] = [
    0x0305_0513,
    0x0010_0893,
    0x0000_0073,
    0x0000_0513,
    0x05d0_0893,
    0x0000_0073,
];

/// Each hart prints its number, over and over. `addi x10,x10,48`, `addi x17,x0,1`, `ecall`, `jal x0,-4`
const PRINTS_ON: [u32; 4] = [0x0305_0513, 0x0010_0893, 0x0000_0073, 0xffdf_f06f];

/// Each hart counts its rounds in the word at 00020000. `lui x6,0x20`, `addi x5,x5,1`, `sw x5,0(x6)`, `jal x0,-8`
const COUNTS: [u32; 4] = [0x0002_0337, 0x0012_8293, 0x0053_2023, 0xff9f_f06f];

/// What is wanted of a copy: the two harts that step first, whether it is over, and what each hart came to.
#[derive(Clone, Copy)]
struct Wanted<'a> {
    first: [u8; 2],
    is_over: bool,
    ends: &'a [HartEnd],
}

/// Of a copy that is over, in which hart 0 steps first.
fn zero_first(ends: &[HartEnd]) -> Wanted<'_> {
    Wanted {
        first: [0, 1],
        is_over: true,
        ends,
    }
}

/// Of one in which hart 1 does.
fn one_first(ends: &[HartEnd]) -> Wanted<'_> {
    Wanted {
        first: [1, 0],
        is_over: true,
        ends,
    }
}

/// Of one that is cut off while both harts run.
fn cut_off_copy(first: [u8; 2]) -> Wanted<'static> {
    Wanted {
        first,
        is_over: false,
        ends: &[HartEnd::Running, HartEnd::Running],
    }
}

/// Both harts exit with 0.
const BOTH_EXIT: [HartEnd; 2] = [HartEnd::Exited(0), HartEnd::Exited(0)];

fn assert_copy(rt: &impl Abort, found: &Tried, wanted: Wanted<'_>, what: &str) {
    assert!(rt; found.harts.starts_with(&wanted.first), "the two of {what}");
    assert!(rt; found.is_over == wanted.is_over, "whether {what} is over");
    assert!(rt; found.ends.as_slice() == wanted.ends, "the ends of {what}");
}

/// The trial's two copies end so, and differ so. Each number's does.
fn assert_trial(
    rt: &impl Abort,
    alloc: Global,
    machine: &mut Machine<Paged>,
    wanted: [Wanted<'_>; 2],
    difference: Difference,
) {
    for number in 0..4 {
        let found = tried(rt, alloc, machine, [0, 1], number, 200).expect(rt, "a trial");
        assert_copy(rt, &found.first, wanted[0], "the first copy");
        assert_copy(rt, &found.second, wanted[1], "the second copy");
        assert_is(rt, found.difference, difference, "how they differ");
    }
}

/// Both are about to print.
#[test]
fn prints_in_either_order(rt: HostRuntime) {
    let alloc = rt.alloc();
    let mut machine = machine(&rt, alloc, &PRINTS, 2);
    run_alone(&rt, &mut machine, 0, 2);
    run_alone(&rt, &mut machine, 1, 2);
    let wanted = [zero_first(&BOTH_EXIT), one_first(&BOTH_EXIT)];
    assert_trial(&rt, alloc, &mut machine, wanted, Difference::Prints);
}

/// Two harts that never end are cut off after so many steps.
#[test]
fn cut_off(rt: HostRuntime) {
    let alloc = rt.alloc();
    let mut machine = machine(&rt, alloc, &COUNTS, 2);
    run_alone(&rt, &mut machine, 0, 2);
    run_alone(&rt, &mut machine, 1, 2);
    let found = tried(&rt, alloc, &mut machine, [0, 1], 7, 100).expect(&rt, "a trial");
    assert_copy(&rt, &found.first, cut_off_copy([0, 1]), "the first copy");
    assert_copy(&rt, &found.second, cut_off_copy([1, 0]), "the second copy");
    assert_is(&rt, found.first.harts.len(), 100, "steps of the first");
    assert_is(&rt, found.second.harts.len(), 100, "steps of the second");
    assert_is(&rt, found.difference, Difference::None, "how they differ");
}

/// The same words drive both copies, and those of another number drive others.
#[test]
fn words_by_number(rt: HostRuntime) {
    let alloc = rt.alloc();
    let mut machine = machine(&rt, alloc, &COUNTS, 2);
    run_alone(&rt, &mut machine, 0, 2);
    run_alone(&rt, &mut machine, 1, 2);
    let found = tried(&rt, alloc, &mut machine, [0, 1], 7, 100).expect(&rt, "a trial");
    let other = tried(&rt, alloc, &mut machine, [0, 1], 8, 100).expect(&rt, "a trial");
    assert!(rt;
        behind_two(&found.first) == behind_two(&found.second),
        "one number"
    );
    assert!(rt;
        behind_two(&found.first) != behind_two(&other.first),
        "two numbers"
    );
}

/// The harts that stepped behind the first two.
fn behind_two(tried: &Tried) -> &[u8] {
    tried.harts.get(2..).unwrap_or(&[])
}

/// Copies that are cut off print otherwise where neither begins with what the other printed.
#[test]
fn prints_on(rt: HostRuntime) {
    let alloc = rt.alloc();
    let mut machine = machine(&rt, alloc, &PRINTS_ON, 2);
    run_alone(&rt, &mut machine, 0, 2);
    run_alone(&rt, &mut machine, 1, 2);
    let wanted = [cut_off_copy([0, 1]), cut_off_copy([1, 0])];
    assert_trial(&rt, alloc, &mut machine, wanted, Difference::Prints);
}
