//! Classes of endings, and the rules that make them.
mod boundaries;
mod images;

use crate::assertion::assert_is;
use crate::parts::access;
use crate::prune::images::{image, segment};
use rv_break::claim::Seen;
use rv_collide::ending::{Ending, Verdict};
use rv_elf::Image;
use rv_hart::access::Access;
use rv_memory::region::Region;
use rv_prune::class::Class;
use rv_prune::named_bytes::NamedBytes;
use rv_prune::pruning::classify;
use std::alloc::Global;
use std::process::Abort;

/// The class of an ending in an image of words at 00010000.
fn class_in(rt: &impl Abort, alloc: Global, words: &[u32], ending: &Ending) -> Class {
    class_with(rt, alloc, &image(rt, alloc, words), ending)
}

/// The class of an ending in an image.
fn class_with(rt: &impl Abort, alloc: Global, image: &Image, ending: &Ending) -> Class {
    let none = NamedBytes::of(alloc, Vec::new(alloc)).expect(rt, "memory");
    classify(image, ending, &none)
}

/// A load of so many bytes from 00020000 on.
fn loads(pc: u32, size: u8) -> Access {
    Access {
        size,
        ..access(pc, false)
    }
}

/// A hit of hart 1 at the address `met`, where hart 0 would have made the access.
fn hit(own: Access, met: u32, old: u32, new: u32) -> Ending {
    Ending {
        hart: 0,
        paused_at: 4,
        resumed_at: 7,
        access: own,
        slot: Some(0),
        verdict: Verdict::Hit(Seen {
            place: 6,
            hart: 1,
            access: access(met, true),
        }),
        old,
        new,
    }
}
