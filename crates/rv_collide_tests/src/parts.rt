//! What the tests are made of: the memory of the images that are tried, and accesses.
ghost use Rattle.std.specs.Prelude.{◌≡◌, [], not, true, false};

use rv_hart::access::Access;
use rv_memory::region::Region;
use std::alloc::Global;

/// Zero bytes that may be read and written.
pub fn zeros(alloc: Global, start: u32, len: u32) -> Region
    ensures { result ≡ record { start = start; bytes = []; len = len; r = true; w = true; x = false } }
{
    Region {
        start,
        bytes: Vec::new(alloc),
        len,
        r: true,
        w: true,
        x: false,
    }
}

/// The access of an instruction to the word at 00020000: a store, or else a load.
pub const fn access(pc: u32, write: bool) -> Access
    ensures { result ≡ record { pc = pc; first = 0x20000; size = 4; read = not write; write = write } }
{
    Access {
        pc,
        first: 0x20000,
        size: 4,
        read: !write,
        write,
    }
}
