//! What a report counts as, as `specs/Classes.antt` has it.
ghost use Rattle.std.specs.Prelude.{◌≡◌};
ghost use Rattle.rv_races.specs.Classes as spec;

use crate::judged::Judged;
use rv_collide::ending::{Ending, Verdict};
use rv_elf::Image;
use rv_prune::class::Class;
use rv_prune::named_bytes::NamedBytes;
use rv_prune::ordered::{is_atomic, is_ordered};
use rv_prune::pruning::classify;

/// What a race counts as: the first of these that one of its reports is.
#[derive(Clone, Copy)]
pub enum RaceClass {
    Kept,
    Counter,
    Unwatched,
    Flag,
    Ordered,
    Atomic,
    Named,
}

/// The word of a class.
pub fn class_word(class: RaceClass) -> &'static [u8]
    ensures { result.now ≡ spec.class_word class }
{
    match class {
        RaceClass::Kept => b"kept",
        RaceClass::Counter => b"counter",
        RaceClass::Unwatched => b"unwatched",
        RaceClass::Flag => b"flag",
        RaceClass::Ordered => b"ordered",
        RaceClass::Atomic => b"atomic",
        RaceClass::Named => b"named",
    }
}

/// The class of an ending: that of `classify`, or ordered or atomic where that is Kept and the ending is so.
fn class_as(image: &Image, ranges: &NamedBytes, ending: &Ending) -> RaceClass
    ensures { result ≡ spec.class_as image.now ranges.now ending.now }
{
    match classify(image, ending, ranges) {
        Class::Named => RaceClass::Named,
        Class::Flag => RaceClass::Flag,
        Class::Counter => RaceClass::Counter,
        Class::Kept if is_ordered(image, ending) => RaceClass::Ordered,
        Class::Kept if is_atomic(image, ending) => RaceClass::Atomic,
        Class::Kept => RaceClass::Kept,
    }
}

/// What may be a bug, where no data breakpoint watched the pause.
fn unwatched(class: RaceClass) -> RaceClass
    ensures { result ≡ spec.unwatched class }
{
    match class {
        RaceClass::Kept | RaceClass::Counter => RaceClass::Unwatched,
        class => class,
    }
}

/// The class of a report, by what it is judged by. The ranges are those of the listed names. It takes no memory.
#[tactic(auto, unfolding(crate::specs::Classes::class_of))]
pub fn class_of(image: &Image, ranges: &NamedBytes, judged: &Judged) -> RaceClass
    ensures { result ≡ spec.class_of image.now ranges.now judged.now }
{
    let ending = Ending {
        verdict: judged.verdict,
        ..judged.ending
    };
    let class = class_as(image, ranges, &ending);
    match judged.ending.verdict {
        Verdict::Changed => unwatched(class),
        Verdict::Hit(_) | Verdict::Quiet => class,
    }
}

/// The place of a class in the order kept, counter, unwatched, flag, ordered, atomic, named: a race that has reports of two has the class of the first.
pub fn rank(class: RaceClass) -> u8
    ensures { result ≡ spec.rank class }
{
    match class {
        RaceClass::Kept => 0,
        RaceClass::Counter => 1,
        RaceClass::Unwatched => 2,
        RaceClass::Flag => 3,
        RaceClass::Ordered => 4,
        RaceClass::Atomic => 5,
        RaceClass::Named => 6,
    }
}
