//! Texts that are gathered in memory: the data of an answer is known whole before its packet begins.
ghost use Rattle.std.specs.Prelude.{◌≡◌, [], ◌++◌, ◌||◌, is_err, IfOk, IfErr, OnOk, Some};
ghost use Rattle.rv_gdb.specs.Sheet as sheet;

use rv_memory::flagged::WriteFault;
use rv_memory::output::Output;
use std::alloc::Global;

/// The bytes that were put so far, and whether memory for some was refused.
#[derive(Drop)]
pub struct Sheet {
    bytes: Vec<u8>,
    failed: bool,
}

impl Sheet {
    /// No byte was put.
    pub fn new(alloc: Global) -> Sheet
        ensures { sheet.bytes result ≡ [] }
    {
        Sheet {
            bytes: Vec::new(alloc),
            failed: false,
        }
    }

    /// The bytes that were put.
    pub fn as_bytes(&self) -> &[u8]
        ensures { result.now ≡ sheet.bytes self.now }
    {
        &self.bytes
    }
}

impl Output for Sheet {
    ghost written = { λ text. Some (sheet.bytes text) };

    ghost has_failed = { λ text. sheet.has_failed text };

    fn put(&mut self, bytes: &[u8]) -> Result<(), WriteFault> {
        if self.bytes.extend_from_slice(bytes).is_err() {
            self.failed = true;
            return Err(WriteFault);
        }
        Ok(())
    }
}
