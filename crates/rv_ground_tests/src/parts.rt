//! The regions that the memory of the tests is made of.
ghost use Rattle.std.specs.Prelude.{◌≡◌, ◌≤◌, length, IfOk};
ghost use Rattle.rv_memory.specs.Extent.{IsExtent};

use rv_memory::region::Region;
use rv_memory::store::NoMemory;
use std::alloc::Global;

/// Whether a region may be read, written and executed.
pub type Permissions = (bool, bool, bool);

/// A region of bytes, and then zeros.
pub fn region(
    alloc: Global,
    start: u32,
    bytes: &[u8],
    len: u32,
    permissions: Permissions,
) -> Result<Region, NoMemory>
    requires some { 1 ≤ len }
    requires within { length bytes.now ≤ len }
    ensures value { IfOk result (λ region. region ≡ record {
      start = start;
      bytes = bytes.now;
      len = len;
      r = permissions.0;
      w = permissions.1;
      x = permissions.2;
    }) }
    ensures extent { IfOk result IsExtent }
{
    let (r, w, x) = permissions;
    Ok(Region {
        start,
        bytes: Vec::from_slice(alloc, bytes)?,
        len,
        r,
        w,
        x,
    })
}
