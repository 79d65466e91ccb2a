//! The entries of a map as a list.
ghost use Rattle.std.specs.Prelude.{◌≡◌, IfOk};

use indexmap::IndexMap;
use rv_memory::store::NoMemory;
use std::alloc::Global;
use std::hash::Hash;

/// The entries in the order in which their keys were first put in.
pub(crate) fn entries_of<K: Eq + Hash + Copy, V: Copy>(
    alloc: Global,
    map: &IndexMap<K, V>,
) -> Result<Vec<(K, V)>, NoMemory>
    ensures { IfOk result (λ found. found.items ≡ map.now.entries) }
{
    let entries = map.iter().map(|(key, value)| (*key, *value));
    Ok(entries.collect(alloc)?)
}
