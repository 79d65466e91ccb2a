//! Common steps alone.
use crate::assertion::assert_is;
use crate::machines::machine;
use crate::parts::access;
use rv_break::breakpoints::Breakpoints;
use rv_hart::access::{Common, Event, Noted};
use rv_hart::machine::Machine;
use rv_hart::stops::{NoStops, Stops};
use rv_memory::flat::Flat;
use std::alloc::Global;
use std::process::Abort;

/// `lui x6,0x20`, `sw x10,0(x6)`, `ecall`.
const STORES: [u32; 3] = [0x0002_0337, 0x00a3_2023, 0x0000_0073];

/// A common step of a hart, at a place of its own, where there is such a hart and it runs.
fn quick<const PLACE: u8>(machine: &mut Machine<Flat>, h: u8) -> Option<Event> {
    quick_past::<PLACE, NoStops>(machine, h, &NoStops, &mut Noted::nothing())
}

/// The same, of which some accesses are kept back; then it is noted.
fn quick_past<const PLACE: u8, P: Stops>(
    machine: &mut Machine<Flat>,
    h: u8,
    stops: &P,
    noted: &mut Noted,
) -> Option<Event> {
    if h >= machine.harts() || !machine.runs(h) {
        return None;
    }
    let word = machine.fetched(h)?;
    match machine.step_quick::<PLACE, P>(h, word, noted, stops) {
        Common::Untaken => None,
        Common::Silent => Some(Event::Moved(None)),
        Common::Accessed => Some(Event::Moved(Some(noted.access))),
    }
}

/// A common step is made; an ECALL is none, and no hart makes none.
fn assert_stores<const PLACE: u8>(rt: &impl Abort, machine: &mut Machine<Flat>) {
    let stored = access(0x10004, 0x20000, 4, true);
    let set = quick::<PLACE>(machine, 0);
    assert_is(rt, set, Some(Event::Moved(None)), "lui");
    let store = quick::<PLACE>(machine, 0);
    assert_is(rt, store, Some(Event::Moved(Some(stored))), "sw");
    let others = (quick::<PLACE>(machine, 0), quick::<PLACE>(machine, 1));
    assert_is(rt, others, (None, None), "ecall, no hart");
    assert_is(rt, machine.harts(), 1, "harts");
}

fn assert_stores_at<const PLACE: u8>(rt: &impl Abort, alloc: Global) {
    assert_stores::<PLACE>(rt, &mut machine(rt, alloc, &STORES, &[0], 1));
}

/// At place 0, where a step is a call, and at another, into which it is compiled.
#[test]
fn common_steps_are_made(rt: HostRuntime) {
    assert_stores_at::<0>(&rt, rt.alloc());
    assert_stores_at::<1>(&rt, rt.alloc());
}

/// The LUI at an armed address makes no access, so it is made. The store at one is noted and not made, until its address is
/// disarmed.
fn assert_keeps_back(rt: &impl Abort, machine: &mut Machine<Flat>, breaks: &mut Breakpoints) {
    let stored = access(0x10004, 0x20000, 4, true);
    let armed = (breaks.arm(0x10000), breaks.arm(0x10004));
    assert_is(rt, armed, (true, true), "armed");
    let mut noted = Noted::nothing();
    let set = quick_past::<1, Breakpoints>(machine, 0, breaks, &mut noted);
    assert_is(rt, set, Some(Event::Moved(None)), "lui");
    assert_is(rt, noted.is_kept_back, false, "no access to keep back");
    let kept = quick_past::<1, Breakpoints>(machine, 0, breaks, &mut noted);
    assert_is(rt, kept, None, "kept back");
    assert_is(rt, noted.is_kept_back, true, "noted");
    assert_is(rt, noted.access, stored, "the access that is kept back");
    assert_is(rt, machine.number(0x20000, 4), Some(0), "not stored");
    let was_armed = breaks.disarm(0x10004);
    assert_is(rt, was_armed, true, "disarmed");
    let store = quick_past::<1, Breakpoints>(machine, 0, breaks, &mut noted);
    assert_is(rt, store, Some(Event::Moved(Some(stored))), "sw");
}

#[test]
fn stops_keep_an_access_back(rt: HostRuntime) {
    let mut breaks = Breakpoints::new(rt.alloc(), 4).expect(&rt, "memory");
    assert_keeps_back(
        &rt,
        &mut machine(&rt, rt.alloc(), &STORES, &[0], 1),
        &mut breaks,
    );
}

/// What hart 0 has reserved, its x7 and its pc.
fn shown(machine: &Machine<Flat>) -> (Option<u32>, u32, u32) {
    let _harts = machine.harts();
    (
        machine.reservation(0),
        machine.register(0, 7),
        machine.pc(0),
    )
}

/// `lui x6,0x20`, `lr.w x5,(x6)`, `sc.w x7,x5,(x6)`, `sc.w x7,x5,(x6)`.
const RESERVES: [u32; 4] = [0x0002_0337, 0x1003_22af, 0x1853_23af, 0x1853_23af];

/// An LR and an SC are common steps. The second SC fails and makes no access; none leaves a reservation.
fn assert_reserves<const PLACE: u8>(rt: &impl Abort, machine: &mut Machine<Flat>) {
    let load = access(0x10004, 0x20000, 4, false);
    let store = access(0x10008, 0x20000, 4, true);
    let _set = quick::<PLACE>(machine, 0);
    let loaded = quick::<PLACE>(machine, 0);
    assert_is(rt, loaded, Some(Event::Moved(Some(load))), "lr");
    let reserved = (Some(0x20000), 0, 0x10008);
    assert_is(rt, shown(machine), reserved, "reserved");
    let stored = quick::<PLACE>(machine, 0);
    assert_is(rt, stored, Some(Event::Moved(Some(store))), "sc");
    assert_is(rt, shown(machine), (None, 0, 0x1000c), "stored");
    let failed = quick::<PLACE>(machine, 0);
    assert_is(rt, failed, Some(Event::Moved(None)), "sc without lr");
    assert_is(rt, shown(machine), (None, 1, 0x10010), "it moves on");
}

fn assert_reserves_at<const PLACE: u8>(rt: &impl Abort, alloc: Global) {
    assert_reserves::<PLACE>(rt, &mut machine(rt, alloc, &RESERVES, &[0], 2));
}

#[test]
fn reservations_are_common_steps(rt: HostRuntime) {
    assert_reserves_at::<0>(&rt, rt.alloc());
    assert_reserves_at::<1>(&rt, rt.alloc());
}
