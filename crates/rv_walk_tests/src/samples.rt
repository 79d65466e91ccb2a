//! The images that are walked, and how far.
ghost use Rattle.std.specs.Prelude.{◌≤◌};

use rv_elf::Image;
use rv_memory::region::Region;
use rv_walk::course::{Course, burst_of, four_of, steps_at};
use std::alloc::Global;
use std::fmt::Debug;
use std::process::Abort;

/// How far the walk of a run goes.
pub fn course_of(run: u32) -> Course
    ensures { 1 ≤ result.burst }
{
    Course {
        steps: steps_at(u64::from(four_of(run))),
        burst: burst_of(run),
    }
}

/// What was found is what is wanted.
pub fn assert_is<T: PartialEq + Debug + Drop>(rt: &impl Abort, found: T, wanted: T, what: &str) {
    assert_eq!(rt; found, wanted, "{what}");
}

fn region(rt: &impl Abort, start: u32, bytes: Vec<u8>, x: bool) -> Region {
    let len = bytes.len();
    assert!(rt; 1 <= len && len <= 65_536);
    Region {
        start,
        bytes,
        len: len as u32,
        r: true,
        w: !x,
        x,
    }
}

/// An image of words at 00010000, and 64 zero bytes at 00020000.
pub fn image(rt: &impl Abort, alloc: Global, words: &[u32]) -> Image {
    let mut code = Vec::new(alloc);
    for word in words {
        code.extend_from_slice(&word.to_le_bytes())
            .expect(rt, "memory");
    }
    let zeros = Vec::from_slice(alloc, &[0; 64]).expect(rt, "memory");
    let segments = vec![in alloc;
        region(rt, 0x10000, code, true),
        region(rt, 0x20000, zeros, false),
    ]
    .expect(rt, "memory");
    Image::new(0x10000, segments, Vec::new(alloc)).expect(rt, "an image")
}
