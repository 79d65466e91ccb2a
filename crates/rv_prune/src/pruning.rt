//! Which endings are counted apart.
ghost use Rattle.std.specs.Prelude.{◌≡◌};
ghost use Rattle.rv_prune.specs.Class as spec;

use crate::class::Class;
use crate::named_bytes::NamedBytes;
use crate::rules::{is_counter, is_flag, is_named};
use rv_collide::ending::Ending;
use rv_elf::Image;

/// The class of an ending of the image: the first of Named, Flag and Counter whose rule holds, else Kept.
/// A range is the address of its first byte and its size; one of size 0 is touched by nothing. It takes no
/// memory.
#[tactic(auto, unfolding(crate::specs::Class::class))]
pub fn classify(image: &Image, ending: &Ending, ranges: &NamedBytes) -> Class
    ensures { result ≡ spec.class image.now ending.now ranges.now }
{
    if is_named(ranges, ending) {
        Class::Named
    } else if is_flag(image, ending) {
        Class::Flag
    } else if is_counter(image, ending) {
        Class::Counter
    } else {
        Class::Kept
    }
}
