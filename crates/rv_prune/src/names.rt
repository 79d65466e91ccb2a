//! The bytes that names stand for.
ghost use Rattle.std.specs.Prelude.{◌≡◌, ◌↔◌, ◌++◌, ℕ, IfOk, OnOk, Some, Err, map, position};
ghost use Rattle.rv_prune.specs.Ranges as spec;
ghost use Rattle.rv_prune.specs.declared.names.NamesFault.TheVariants as faults;

use rv_elf::{Image, Symbol};
use rv_memory::store::NoMemory;
use std::alloc::Global;

/// Why there are no ranges: the first name without a symbol, or else want of memory.
#[derive(Clone, Copy)]
pub enum NamesFault {
    /// No symbol of the image has the name at this index.
    Unknown(usize),
    /// A growth was refused.
    NoMemory,
}

impl From<NoMemory> for NamesFault {
    ghost from_gives = { λ _ fault. fault ≡ faults.NoMemory };

    fn from(_: NoMemory) -> NamesFault {
        NamesFault::NoMemory
    }
}

fn has_name(name: &str, symbol: &Symbol) -> bool
    ensures { result ≡ spec.has_name name.now symbol.now }
{
    symbol.name.as_str() == name
}

fn is_known(image: &Image, name: &str) -> bool
    ensures { result ≡ spec.is_known image.now name.now }
{
    image.symbols().iter().any(|symbol| has_name(name, symbol))
}

fn is_unknown(image: &Image, name: &str) -> bool
    ensures { result ≡ spec.is_unknown image.now name.now }
{
    !is_known(image, name)
}

fn first_unknown(image: &Image, names: &[&str]) -> Option<usize>
    ensures { result ≡ position (λ name. spec.is_unknown image.now name.now) names.now }
{
    names.iter().position(|name| is_unknown(image, name))
}

/// The first name without a symbol.
fn unknown(image: &Image, names: &[&str]) -> Option<usize>
    ensures { result ≡ spec.unknown image.now (map (λ name. name.now) names.now) }
{
    first_unknown(image, names)
}

/// Adds the ranges of all symbols of a name.
fn add_ranges(ranges: &mut Vec<(u32, u32)>, image: &Image, name: &str) -> Result<(), NoMemory>
    ensures { OnOk result (ranges.new.items ≡ ranges.old.items ++ spec.named_ranges image.now name.now) }
{
    for symbol in image.symbols() {
        if has_name(name, symbol) {
            ranges.push((symbol.value, symbol.size.max(1)))?;
        }
    }
    Ok(())
}

/// The bytes that names stand for: of each name, in their order, the address and the size of each symbol
/// of it, in the image's order. A size of 0 is counted as 1.
#[tactic(auto, unfolding(crate::specs::Ranges::ranges))]
pub fn ranges(alloc: Global, image: &Image, names: &[&str]) -> Result<Vec<(u32, u32)>, NamesFault>
    ensures ok { IfOk result (λ ranges. ranges.items ≡ spec.ranges image.now (map (λ name. name.now) names.now)) }
    ensures unknown { (index : ℕ) → (result ≡ Err (NamesFault.Unknown index))
        ↔ (spec.unknown image.now (map (λ name. name.now) names.now) ≡ Some index) }
{
    if let Some(index) = unknown(image, names) {
        return Err(NamesFault::Unknown(index));
    }
    let mut ranges = Vec::new(alloc);
    for name in names {
        add_ranges(&mut ranges, image, name)?;
    }
    Ok(ranges)
}
