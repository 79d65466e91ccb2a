//! The program headers of a file, kept without asking for memory.
ghost use Rattle.std.specs.Prelude.{◌≡◌, ◌<◌, ◌≤◌, [], ◌∷◌, ◌++◌, length};

use crate::layout::ProgramHeader;
use std::marker::Model;

const NONE: ProgramHeader = ProgramHeader {
    p_type: 0,
    p_offset: 0,
    p_vaddr: 0,
    p_paddr: 0,
    p_filesz: 0,
    p_memsz: 0,
    p_flags: 0,
    p_align: 0,
};

/// At most 64 program headers, in order.
#[derive(Drop)]
pub struct Headers {
    items: [ProgramHeader; 64],
    len: usize,
}

impl Model for Headers {
    ghost use Rattle.std.specs.Prelude.{◌≤◌, List, take};
    ghost use Rattle.rv_elf.specs.declared.layout.ProgramHeader.{ProgramHeader};

    ghost Value = { List ProgramHeader };

    ghost view = { λ h. take h.len h.items };

    ghost invariant = { λ h. h.len ≤ 64 };
}

impl Headers {
    pub fn new() -> Headers
        ensures { result ≡ [] }
    {
        Headers {
            items: [NONE; 64],
            len: 0,
        }
    }

    pub fn as_slice(&self) -> &[ProgramHeader]
        ensures value { result.now ≡ self.now }
        ensures few { length self.now ≤ 64 }
    {
        &self.items[..self.len]
    }

    pub fn push(&mut self, header: ProgramHeader)
        requires { length self.old < 64 }
        ensures { self.new ≡ self.old ++ header ∷ [] }
    {
        self.items[self.len] = header;
        self.len += 1;
    }
}
