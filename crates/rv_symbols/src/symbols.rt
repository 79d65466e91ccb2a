//! Which of two symbols goes before the other, as `specs/Symbols.antt` has it.
ghost use Rattle.std.specs.Prelude.{◌≡◌, find};
ghost use Rattle.std.specs.Option.{option_copied};
ghost use Rattle.rv_symbols.specs.Symbols as spec;

use rv_elf::{Image, Symbol};
use rv_memory::region::Region;

/// Assemblers and compilers mark places by names that begin so.
pub(crate) fn is_mark(name: &[u8]) -> bool
    ensures { result ≡ spec.is_mark name.now }
{
    match name {
        [first, second, ..] => *first == b'$' || *first == b'.' && *second == b'L',
        [only] => *only == b'$',
        [] => false,
    }
}

fn is_typed(symbol: &Symbol) -> bool
    ensures { result ≡ spec.is_typed symbol.now }
{
    symbol.kind != 0
}

pub(crate) fn has_size(symbol: &Symbol) -> bool
    ensures { result ≡ spec.has_size symbol.now }
{
    symbol.size > 0
}

fn is_inner(one: &Symbol, other: &Symbol) -> bool
    ensures { result ≡ spec.is_inner one.now other.now }
{
    other.value < one.value || one.value == other.value && one.size < other.size
}

pub(crate) fn holds_closer(one: &Symbol, other: &Symbol) -> bool
    ensures { result ≡ spec.holds_closer one.now other.now }
{
    if is_typed(one) {
        !is_typed(other) || is_inner(one, other)
    } else {
        !is_typed(other) && is_inner(one, other)
    }
}

pub fn is_inside(address: u32, segment: &Region) -> bool
    ensures { result ≡ spec.is_inside address segment.now }
{
    segment.start <= address
        && u64::from(address) < u64::from(segment.start) + u64::from(segment.len)
}

pub(crate) fn segment_of(image: &Image, address: u32) -> Option<&Region>
    ensures { option_copied result ≡ find (spec.is_inside address) image.now.segments }
{
    image
        .segments()
        .iter()
        .find(|segment| is_inside(address, segment))
}

pub(crate) fn is_nearer(one: &Symbol, other: &Symbol) -> bool
    ensures { result ≡ spec.is_nearer one.now other.now }
{
    other.value < one.value || one.value == other.value && is_preferred(one, other)
}

/// Of two at one place one with a size goes before one without, and then one with a type.
fn is_preferred(one: &Symbol, other: &Symbol) -> bool
    ensures { result ≡ spec.is_preferred one.now other.now }
{
    if has_size(one) {
        !has_size(other)
    } else {
        !has_size(other) && is_typed(one) && !is_typed(other)
    }
}
