//! When harts are seen to wait, and that those do. (tests/instructions has the rounds of small programs.)
ghost use Rattle.std.specs.Prelude.{◌≡◌, ◌<◌, length};
ghost use Rattle.rv_waits.specs.Watch.{IsWatchOf};

use crate::assertion::assert_is;
use crate::machines::{machine, page, region, regions, two};
use rv_hart::hart::Status;
use rv_hart::machine::Machine;
use rv_memory::flat::Flat;
use rv_memory::paged::Paged;
use rv_waits::round::{Round, round_of};
use rv_waits::watch::Watch;
use std::alloc::Global;
use std::process::Abort;

/// `lui x6,0x20`
const FIRST: u32 = 0x0002_0337;

/// What is told of a round: its steps, whether it polls, and whether its ranges were too many.
fn told(round: Option<Round>) -> Option<(u32, bool, bool)> {
    match round {
        Some(it) => Some((it.steps, it.polls, it.touched.is_all)),
        None => None,
    }
}

/// The first round of hart 0 that the watch sees as it steps.
fn seen(machine: &mut Machine<Flat>, watch: &mut Watch, most: u32) -> Option<(u32, bool, bool)>
    requires hart { 0 < length machine.old.state.harts }
    requires watch { IsWatchOf watch.old machine.old.state }
{
    for _ in 0..most {
        if watch.step(machine, 0).is_err() {
            return None;
        }
        let round = told(watch.round(machine, 0));
        if round.is_some() {
            return round;
        }
    }
    None
}

/// `addi x0,x0,0`, and `jal x0,-16380`.
const NOTHING: u32 = 0x0000_0013;

const FAR_BACK: u32 = 0x804f_c06f;

/// A loop of 4,096 instructions has a round of as many; fewer steps show none.
#[test]
fn long_round(rt: HostRuntime) {
    let alloc = rt.alloc();
    let mut words = vec![in alloc; NOTHING; 4095].expect(&rt, "memory");
    words.push(FAR_BACK).expect(&rt, "memory");
    assert_long(&rt, alloc, &words);
}

fn assert_long(rt: &impl Abort, alloc: Global, words: &[u32]) {
    let mut one = machine(rt, alloc, words, &[0], 1);
    let mut other = machine(rt, alloc, words, &[0], 1);
    assert!(rt; one.harts() == 1 && other.harts() == 1);
    assert_is(rt, told(round_of(&mut one, 0, 4095)), None, "4,095 steps");
    assert_is(
        rt,
        told(round_of(&mut other, 0, 4096)),
        Some((4096, false, false)),
        "4,096 steps",
    );
}

/// Hart 0 spins on a load; hart 1 stores its number there. `lui x6,0x20`, `bne x10,x0,16`, `lw x5,0(x6)`, `beq x5,x0,-4`,
/// `jal x0,0`, `sw x10,0(x6)`, `jal x0,0`
const WAKES: [u32; 7] = [
    0x0002_0337,
    0x0005_1863,
    0x0003_2283,
    0xfe02_8ee3,
    0x0000_006f,
    0x00a3_2023,
    0x0000_006f,
];

/// Hart 0 stores 0 without end; hart 1 stores its number there. `lui x6,0x20`, `bne x10,x0,12`, `sw x0,0(x6)`, `jal x0,-4`,
/// `sw x10,0(x6)`, `jal x0,0`
const STORES_ON: [u32; 6] = [
    0x0002_0337,
    0x0005_1663,
    0x0003_2023,
    0xffdf_f06f,
    0x00a3_2023,
    0x0000_006f,
];

/// Hart 0 is in a loop, and hart 1 stores its number, which is no instruction, over the first word of that. `auipc x6,0`,
/// `bne x10,x0,12`, `addi x0,x0,0`, `jal x0,-4`, `sw x10,8(x6)`, `jal x0,0`
const OVERWRITES: [u32; 6] = [
    0x0000_0317,
    0x0005_1663,
    0x0000_0013,
    0xffdf_f06f,
    0x00a3_2423,
    0x0000_006f,
];

/// So many steps of a hart, watched.
fn steps(machine: &mut Machine<Flat>, watch: &mut Watch, h: u8, count: u32)
    requires hart { h < length machine.old.state.harts }
    requires watch { IsWatchOf watch.old machine.old.state }
    ensures harts { length machine.new.state.harts ≡ length machine.old.state.harts }
    ensures watch { IsWatchOf watch.new machine.new.state }
{
    for _ in 0..count {
        let _ = watch.step(machine, h);
    }
}

/// What hart 1 changes wakes hart 0: a word that it loads, one that it stores, and an instruction of its loop. Then it is parked,
/// stores again, or is stopped.
#[test]
fn wakes(rt: HostRuntime) {
    let alloc = rt.alloc();
    assert_wakes(&rt, alloc, &WAKES, Some((1, false, false)), "a load");
    assert_wakes(&rt, alloc, &STORES_ON, Some((2, false, false)), "a store");
    assert_wakes(&rt, alloc, &OVERWRITES, None, "an instruction");
}

fn assert_wakes(
    rt: &impl Abort,
    alloc: Global,
    words: &[u32],
    wanted: Option<(u32, bool, bool)>,
    what: &str,
) {
    let mut machine = writable(rt, alloc, words);
    assert_woken(rt, alloc, &mut machine, wanted, what);
}

/// A machine of two harts whose words they may write over.
fn writable(rt: &impl Abort, alloc: Global, words: &[u32]) -> Machine<Flat> {
    let mut text = region(rt, alloc, 0x10000, words, false);
    text.w = true;
    let data = page(rt, alloc, 0x20000, &[0]);
    let regions = two(rt, alloc, text, data);
    Machine::new(alloc, &regions, 0x10000, 2, 8).expect(rt, "a machine")
}

/// Hart 0 waits after 11 steps, and until the third of hart 1; what a watch sees of it next.
fn assert_woken(
    rt: &impl Abort,
    alloc: Global,
    machine: &mut Machine<Flat>,
    wanted: Option<(u32, bool, bool)>,
    what: &str,
) {
    assert!(rt; machine.harts() == 2);
    let mut watch = Watch::new(alloc, machine).expect(rt, "memory");
    steps(machine, &mut watch, 0, 11);
    steps(machine, &mut watch, 1, 2);
    let before = watch.round(machine, 0).is_some();
    steps(machine, &mut watch, 1, 1);
    let after = watch.round(machine, 0).is_some();
    assert_is(rt, (before, after), (true, false), what);
    assert_is(rt, seen(machine, &mut watch, 40), wanted, what);
}

/// What programs are drawn from: loads, stores, an AMO that changes nothing and one that does, LR, SC, branches, and
/// computations.
const INSTRUCTIONS: [u32; 16] = [
    0x0003_2283,
    0x0043_2283,
    0x0003_2023,
    0x00a3_2223,
    0x0053_2223,
    0x4003_22af,
    0x00a3_23af,
    0x1003_22af,
    0x18a3_23af,
    0xfe02_8ee3,
    0x0002_9463,
    0x0000_0293,
    0x0014_0413,
    0x0040_006f,
    0xfe05_0ce3,
    0xfea2_8ee3,
];

/// The next of a fixed row of numbers.
fn draw(row: &mut u32) -> u32 {
    *row = row.wrapping_mul(1_664_525).wrapping_add(1_013_904_223);
    *row >> 16
}

/// Six drawn instructions, without end.
fn drawn_words(row: &mut u32) -> [u32; 8] {
    let mut words = [
        FIRST,
        NOTHING,
        NOTHING,
        NOTHING,
        NOTHING,
        NOTHING,
        NOTHING,
        0xfe9f_f06f,
    ];
    for place in 1..7 {
        words[place] = INSTRUCTIONS[(draw(row) % 16) as usize];
    }
    words
}

/// Whether the watch sees the hart waiting. Then steps of a copy see it too.
fn waits(rt: &impl Abort, machine: &mut Machine<Paged>, watch: &Watch, h: u8) -> bool
    requires hart { h < length machine.old.state.harts }
    requires watch { IsWatchOf watch.now machine.old.state }
    ensures { machine.new ≡ machine.old }
{
    let Some(round) = watch.round(machine, h) else {
        return false;
    };
    assert!(rt; machine.output().len() <= 8);
    let mut copy = machine.share(8).expect(rt, "memory");
    assert!(rt;
        round_of(&mut copy, h, round.steps).is_some(),
        "a round of {} steps",
        round.steps
    );
    true
}

/// Whether each hart that runs is seen to wait.
fn is_stuck(rt: &impl Abort, machine: &mut Machine<Paged>, watch: &Watch) -> bool
    requires hart { length machine.old.state.harts ≡ 2 }
    requires watch { IsWatchOf watch.now machine.old.state }
    ensures { machine.new ≡ machine.old }
{
    let first = !machine.runs(0) || waits(rt, machine, watch, 0);
    let second = !machine.runs(1) || waits(rt, machine, watch, 1);
    first && second
}

/// What may change: both words of data, how much is printed, and how each hart stands.
fn shown(machine: &Machine<Paged>) -> (Option<u32>, Option<u32>, usize, Status, Status)
    requires { length machine.now.state.harts ≡ 2 }
{
    (
        machine.number(0x20000, 4),
        machine.number(0x20004, 4),
        machine.output().len(),
        machine.status(0),
        machine.status(1),
    )
}

/// From a stuck state 10,000 drawn steps change nothing.
fn assert_stays(rt: &impl Abort, machine: &mut Machine<Paged>, row: &mut u32)
    requires { length machine.old.state.harts ≡ 2 }
{
    let before = shown(machine);
    for _ in 0..10_000 {
        let _ = machine.step((draw(row) % 2) as u8);
    }
    assert_is(
        rt,
        shown(machine) == before,
        true,
        "a stuck machine stays as it is",
    );
}

/// How many programs were drawn, how many states they came to, and how many got stuck.
#[derive(Clone, Copy)]
struct Counts {
    programs: u32,
    states: u32,
    stuck: u32,
}

/// A drawn program of two harts, watched for so many drawn steps, or until it is stuck.
fn tries_drawn(rt: &impl Abort, alloc: Global, row: &mut u32, counts: &mut Counts) {
    let regions = regions(rt, alloc, &drawn_words(row), &[0, 1]);
    let mut machine: Machine<Paged> = Machine::new(alloc, &regions, 0x10000, 2, 8).expect(
        rt,
        "a machine",
    );
    counts.programs = counts.programs.saturating_add(1);
    watched_drawn(rt, alloc, &mut machine, row, counts);
}

fn watched_drawn(
    rt: &impl Abort,
    alloc: Global,
    machine: &mut Machine<Paged>,
    row: &mut u32,
    counts: &mut Counts,
) {
    assert!(rt; machine.harts() == 2);
    let mut watch = Watch::new(alloc, machine).expect(rt, "memory");
    if until_stuck(rt, machine, &mut watch, row, counts) {
        counts.stuck = counts.stuck.saturating_add(1);
        assert_stays(rt, machine, row);
    }
}

fn until_stuck(
    rt: &impl Abort,
    machine: &mut Machine<Paged>,
    watch: &mut Watch,
    row: &mut u32,
    counts: &mut Counts,
) -> bool
    requires hart { length machine.old.state.harts ≡ 2 }
    requires watch { IsWatchOf watch.old machine.old.state }
    ensures { length machine.new.state.harts ≡ 2 }
{
    for _ in 0..100 {
        let _ = watch.step(machine, (draw(row) % 2) as u8);
        counts.states = counts.states.saturating_add(1);
        if is_stuck(rt, machine, watch) {
            return true;
        }
    }
    false
}

/// Of drawn programs of 100,000 states some get stuck and some don't; whoever is seen to wait does. It takes less than a second, but
/// `rt try` wants more than a minute for it (`--seconds 600`).
#[test]
fn drawn(rt: HostRuntime) {
    let mut row = 1;
    let mut counts = Counts {
        programs: 0,
        states: 0,
        stuck: 0,
    };
    for _ in 0..10_000u32 {
        if counts.states < 100_000 {
            tries_drawn(&rt, rt.alloc(), &mut row, &mut counts);
        }
    }
    let Counts {
        programs,
        states,
        stuck,
    } = counts;
    assert!(rt;
        100_000 <= states && programs / 10 < stuck && stuck / 9 < programs / 10,
        "{states} states of {programs} programs, of which {stuck} got stuck"
    );
}
