//! What the tests are made of: segments of memory, and accesses.
ghost use Rattle.std.specs.Prelude.{◌≡◌, not, true};

use rv_hart::access::Access;
use rv_memory::region::Region;

/// A segment of these bytes, and of zeros up to `len`: code, which may be executed, or else data, which may be written.
pub fn segment(start: u32, bytes: Vec<u8>, len: u32, is_code: bool) -> Region
    ensures { result ≡ record { start = start; bytes = bytes.items; len = len; r = true; w = not is_code; x = is_code } }
{
    Region {
        start,
        bytes,
        len,
        r: true,
        w: !is_code,
        x: is_code,
    }
}

/// A store, or else a load, by the instruction at `pc`.
pub fn access(pc: u32, first: u32, size: u8, write: bool) -> Access
    ensures { result ≡ record { pc = pc; first = first; size = size; read = not write; write = write } }
{
    Access {
        pc,
        first,
        size,
        read: !write,
        write,
    }
}
