//! Whether two images, and two plans, are the same.
ghost use Rattle.std.specs.Prelude.{◌≡◌, ◌↔◌, IsTrue};
ghost use Rattle.rv_collide.specs.Numbers.{numbers};

use rv_collide::plan::Plan;
use rv_elf::{Image, Symbol};
use rv_memory::region::Region;

/// Whether two images have the same entry, segments and symbols.
pub(crate) fn same_image(one: &Image, other: &Image) -> bool
    ensures { IsTrue result ↔ (one.now ≡ other.now) }
{
    one.entry() == other.entry()
        && same_segments(one.segments(), other.segments())
        && same_symbols(one.symbols(), other.symbols())
}

fn same_segments(one: &[Region], other: &[Region]) -> bool
    ensures { IsTrue result ↔ (one.now ≡ other.now) }
{
    if one.len() != other.len() {
        return false;
    }
    for (place, segment) in one.iter().enumerate() {
        if !same_segment(segment, &other[place]) {
            return false;
        }
    }
    true
}

fn same_segment(one: &Region, other: &Region) -> bool
    ensures { IsTrue result ↔ (one.now ≡ other.now) }
{
    let same_extent = one.start == other.start && one.len == other.len;
    let same_permissions = one.r == other.r && one.w == other.w && one.x == other.x;
    same_extent && same_permissions && one.bytes.as_slice() == other.bytes.as_slice()
}

fn same_symbols(one: &[Symbol], other: &[Symbol]) -> bool
    ensures { IsTrue result ↔ (one.now ≡ other.now) }
{
    if one.len() != other.len() {
        return false;
    }
    for (place, symbol) in one.iter().enumerate() {
        if !same_symbol(symbol, &other[place]) {
            return false;
        }
    }
    true
}

fn same_symbol(one: &Symbol, other: &Symbol) -> bool
    ensures { IsTrue result ↔ (one.now ≡ other.now) }
{
    let same_numbers = one.value == other.value && one.size == other.size && one.kind == other.kind;
    same_numbers && one.name.as_bytes() == other.name.as_bytes()
}

/// Whether two plans have the same numbers.
pub(crate) fn same_plan(one: Plan, other: Plan) -> bool
    ensures { IsTrue result ↔ (numbers one ≡ numbers other) }
{
    let same_machine = one.harts == other.harts && one.steps == other.steps;
    let same_pauses = one.pause == other.pause && one.slots == other.slots;
    same_machine && one.arms == other.arms && same_pauses
}
