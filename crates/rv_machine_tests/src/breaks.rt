//! Code breakpoints, and the one look that passes nearly all other addresses by.
use crate::assertion::assert_is;
use rv_break::breakpoints::Breakpoints;
use rv_hart::stops::Stops;
use std::process::Abort;

fn assert_arms(rt: &impl Abort, breaks: &mut Breakpoints) {
    let found = [
        breaks.is_armed(0x10004),
        breaks.arm(0x10004),
        breaks.arm(0x10004),
        breaks.is_armed(0x10004),
        breaks.is_armed(0x14004),
        breaks.arm(0x14004),
    ];
    let wanted = [false, true, false, true, false, true];
    assert_is(rt, found, wanted, "two are armed");
}

fn assert_disarms(rt: &impl Abort, breaks: &mut Breakpoints) {
    let found = [
        breaks.disarm(0x10008),
        breaks.disarm(0x10004),
        breaks.is_armed(0x10004),
        breaks.is_armed(0x14004),
        breaks.take_code(0x14004),
        breaks.take_code(0x14004),
        breaks.is_armed(0x14004),
    ];
    let wanted = [false, true, false, true, true, false, false];
    assert_is(rt, found, wanted, "both are disarmed");
}

/// One look tells all but addresses that are 16 KiB apart.
fn assert_may_be_armed(rt: &impl Abort, breaks: &Breakpoints, wanted: bool) {
    let found = [
        breaks.may_be_armed(0x10004),
        breaks.may_be_armed(0x14004),
        breaks.may_be_armed(0x10008),
    ];
    assert_is(rt, found, [wanted, wanted, false], "may be armed");
    let passed = [breaks.lets_by(0x10004), breaks.lets_by(0x10008)];
    assert_is(rt, passed, [!wanted, true], "let by");
}

#[test]
fn arms_and_disarms(rt: HostRuntime) {
    let mut breaks = Breakpoints::new(rt.alloc(), 4).expect(&rt, "memory");
    assert_may_be_armed(&rt, &breaks, false);
    assert_arms(&rt, &mut breaks);
    assert_may_be_armed(&rt, &breaks, true);
    assert_disarms(&rt, &mut breaks);
    assert_may_be_armed(&rt, &breaks, false);
}
