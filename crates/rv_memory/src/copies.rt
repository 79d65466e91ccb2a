//! Many copies of one value, block by block: `resize` puts each by itself.
ghost use Rattle.std.specs.Prelude.{◌≡◌, ◌+◌, ◌++◌, OnOk, length, replicate};

use crate::store::NoMemory;

/// How many values a block has.
pub(crate) const AT_ONCE: usize = 4_096;

/// Adds so many copies of a value, which all of a block are.
pub(crate) fn add_copies<T: Copy>(
    list: &mut Vec<T>,
    block: &[T],
    value: T,
    count: usize,
) -> Result<(), NoMemory>
    requires { block.now ≡ replicate AT_ONCE value }
    ensures items { OnOk result (list.new.items ≡ list.old.items ++ replicate count value) }
    ensures count { OnOk result (length list.new.items ≡ length list.old.items + count) }
{
    list.reserve(count)?;
    for _ in 0..count / AT_ONCE {
        list.extend_from_slice(block)?;
    }
    list.extend_from_slice(&block[..count % AT_ONCE])?;
    Ok(())
}
