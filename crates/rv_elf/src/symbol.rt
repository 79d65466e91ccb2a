//! The symbols of an image.
ghost use Rattle.std.specs.Prelude.{◌≡◌, IfOk};

use rv_memory::store::NoMemory;
use std::alloc::Global;
use std::marker::Model;

/// A symbol: its name, the address that it stands for, its size in bytes, and its type by the numbers
/// of the System V ABI: 0 no type, 1 an object, 2 a function.
#[derive(Drop)]
pub struct Symbol {
    pub name: String,
    pub value: u32,
    pub size: u32,
    pub kind: u8,
}

impl Model for Symbol {
    ghost use Rattle.std.specs.String.{string_bytes};
    ghost use Rattle.rv_elf.specs.Contents.{Named};

    ghost Value = { Named };

    ghost view = { λ s. record { name = string_bytes s.name; value = s.value; size = s.size; kind = s.kind } };
}

impl Symbol {
    /// An equal symbol with a name of its own.
    pub fn copy(&self, alloc: Global) -> Result<Symbol, NoMemory>
        ensures { IfOk result (λ copy. copy ≡ self.now) }
    {
        Ok(Symbol {
            name: String::from_str(alloc, &self.name)?,
            value: self.value,
            size: self.size,
            kind: self.kind,
        })
    }
}
