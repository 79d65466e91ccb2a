//! Where an access looks for its region: for each block of the addresses, the first region that may have one
//! of them. So a step looks at one region mostly, however many there are.
ghost use Rattle.std.specs.Prelude.{◌≡◌, ℕ, ◌≤◌, ◌<◌, ◌/◌, true, length, slice_index, IfOk};
ghost use Rattle.rv_memory.specs.internal.Index.{touches, IsIndex};

use crate::fit::end_of;
use crate::region::Region;
use crate::store::NoMemory;
use std::alloc::Global;

/// The addresses of a block.
pub const BLOCK: u64 = 65_536;

/// The blocks of all addresses.
pub const BLOCKS: usize = 65_536;

/// For each block the place of the first region that touches it, or 65,535 where none does; places past that
/// are told as it.
pub(crate) fn index_of(alloc: Global, regions: &[Region]) -> Result<Vec<u16>, NoMemory>
    ensures { IfOk result (λ firsts. IsIndex regions.now firsts.items) }
{
    let mut firsts = Vec::new(alloc);
    firsts.resize(BLOCKS, u16::MAX)?;
    for (place, region) in regions.iter().enumerate() {
        mark(&mut firsts, region, place.min(usize::from(u16::MAX)) as u16);
    }
    Ok(firsts)
}

/// Notes the place for the blocks that the region touches, where an earlier one is not noted.
fn mark(firsts: &mut [u16], region: &Region, place: u16)
    requires { length firsts.old ≡ BLOCKS }
    ensures count { length firsts.new ≡ BLOCKS }
    ensures lower { (block : ℕ) → slice_index firsts.new block ≤ slice_index firsts.old block }
    ensures marked { (block : ℕ) → block < BLOCKS → touches block region.now ≡ true
        → slice_index firsts.new block ≤ place }
{
    let from = (u64::from(region.start) / BLOCK) as usize;
    let to = (end_of(region) / BLOCK + 1).min(BLOCK) as usize;
    for block in from..to {
        firsts[block] = firsts[block].min(place);
    }
}

/// The place to look from for an address.
#[inline(always)]
pub(crate) fn first_of(firsts: &[u16], address: u32) -> usize
    requires { length firsts.now ≡ BLOCKS }
    ensures { result ≡ slice_index firsts.now (address / BLOCK) }
{
    usize::from(firsts[(u64::from(address) / BLOCK) as usize])
}
