ghost use Rattle.std.specs.Prelude.{◌≡◌, IfOk};

use crate::store::NoMemory;
use std::alloc::Global;
use std::marker::Model;

/// A stretch of guest memory: `bytes`, then zeros up to `len` bytes, from the address `start` on.
/// `r`, `w` and `x` are its permissions. A caller gives it at least one byte (`1 <= len`) and no more
/// bytes than it is long (`bytes.len() <= len`).
#[derive(Drop)]
pub struct Region {
    pub start: u32,
    pub bytes: Vec<u8>,
    pub len: u32,
    pub r: bool,
    pub w: bool,
    pub x: bool,
}

impl Model for Region {
    ghost use Rattle.rv_memory.specs.Extent.{Extent};

    ghost Value = { Extent };

    ghost view = { λ a. record { start = a.start; bytes = a.bytes.items; len = a.len; r = a.r; w = a.w; x = a.x } };
}

impl Region {
    /// An equal region with bytes of its own.
    pub fn copy(&self, alloc: Global) -> Result<Region, NoMemory>
        ensures { IfOk result (λ copy. copy ≡ self.now) }
    {
        Ok(Region {
            start: self.start,
            bytes: Vec::from_slice(alloc, &self.bytes)?,
            len: self.len,
            r: self.r,
            w: self.w,
            x: self.x,
        })
    }
}
