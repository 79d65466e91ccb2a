//! A writer that gathers small pieces, and whose contracts say which bytes its device has got.
ghost use Rattle.std.specs.Prelude.{◌≡◌, [], ◌++◌, ◌||◌, false, is_err, MatchBool, OnOk};
ghost use Rattle.std.specs.Io.KnownBytes.{Keeps};
ghost use Rattle.rv_memory.specs.Buffered as buffer;

use crate::flagged::{Flagged, WriteFault, flush, write_whole};
use crate::output::Output;
use std::alloc::Global;
use std::io::Write;

/// The most bytes that are gathered before they go to the device.
pub const MOST_PENDING: usize = 4096;

/// A device with the bytes that were put and have not gone to it. They go there when they are many, and
/// whole at `finish`. Where no memory is found to gather them each piece goes to the device at once.
#[derive(Drop)]
pub struct Buffered<W> {
    device: Flagged<W>,
    pending: Vec<u8>,
}

impl<W> Buffered<W> {
    pub fn new(alloc: Global, device: W) -> Buffered<W>
        ensures device { buffer.device result ≡ device }
        ensures pending { buffer.pending result ≡ [] }
        ensures fresh { buffer.has_failed result ≡ false }
    {
        Buffered {
            device: Flagged::new(device),
            pending: Vec::new(alloc),
        }
    }

    /// Whether the device has failed.
    pub fn failed(&self) -> bool
        ensures { result ≡ buffer.has_failed self.now }
    {
        self.device.failed()
    }

    /// Gathers the bytes, unless they are too many or there is no memory for them.
    fn gathers(&mut self, bytes: &[u8]) -> bool
        ensures pending { MatchBool result (buffer.pending self.new ≡ buffer.pending self.old ++ bytes.now)
            (buffer.pending self.new ≡ buffer.pending self.old) }
        ensures device { self.new.device ≡ self.old.device }
    {
        let room = MOST_PENDING.saturating_sub(self.pending.len());
        bytes.len() <= room && self.pending.extend_from_slice(bytes).is_ok()
    }

    pub fn into_inner(self) -> W
        ensures { result ≡ buffer.device self }
    {
        self.device.into_inner()
    }
}

impl<W: Write> Buffered<W> {
    /// Hands what is pending to the device.
    fn drain(&mut self) -> Result<(), WriteFault>
        ensures sent { OnOk result (Keeps (buffer.written W.contents self.old) (buffer.sent W.contents self.new)) }
        ensures pending { OnOk result (buffer.pending self.new ≡ []) }
        ensures failed { buffer.has_failed self.new ≡ (buffer.has_failed self.old || is_err result) }
    {
        write_whole(&mut self.device, &self.pending)?;
        self.pending.clear();
        Ok(())
    }

    /// Hands what is pending to the device, and flushes it: then it has got all that was put.
    pub fn finish(&mut self) -> Result<(), WriteFault>
        ensures sent { OnOk result (Keeps (buffer.written W.contents self.old) (buffer.sent W.contents self.new)) }
        ensures pending { OnOk result (buffer.pending self.new ≡ []) }
        ensures failed { buffer.has_failed self.new ≡ (buffer.has_failed self.old || is_err result) }
    {
        self.drain()?;
        flush(&mut self.device)
    }
}

impl<W: Write> Output for Buffered<W> {
    ghost written = { λ writer. buffer.written W.contents writer };

    ghost has_failed = { λ writer. buffer.has_failed writer };

    fn put(&mut self, bytes: &[u8]) -> Result<(), WriteFault> {
        if self.gathers(bytes) {
            return Ok(());
        }
        self.drain()?;
        if self.gathers(bytes) {
            return Ok(());
        }
        write_whole(&mut self.device, bytes)
    }
}
