//! Readers and writers that fail at a call of a number.
use std::alloc::Global;
use std::io;
use std::io::{ErrorKind, Read, Write};

/// A reader of `bytes` sevens, one a read, whose read numbered `fails_at` from 1 on fails.
#[derive(Drop)]
pub struct Trickle {
    bytes: u64,
    pub reads: u64,
    fails_at: u64,
}

impl Trickle {
    pub fn new(bytes: u64, fails_at: u64) -> Trickle {
        Trickle {
            bytes,
            reads: 0,
            fails_at,
        }
    }
}

impl Read for Trickle {
    fn read(&mut self, buf: &mut [u8]) -> io::Result<usize> {
        self.reads = self.reads.saturating_add(1);
        if self.reads == self.fails_at {
            return Err(io::Error::from(ErrorKind::Interrupted));
        }
        if self.bytes == 0 || buf.is_empty() {
            return Ok(0);
        }
        self.bytes -= 1;
        buf[0] = 7;
        Ok(1)
    }
}

/// A writer that takes at most `most` bytes a write, and whose write or flush numbered `fails_at`
/// from 1 on fails.
#[derive(Drop)]
pub struct Sink {
    pub taken: Vec<u8>,
    most: usize,
    pub calls: u64,
    fails_at: u64,
}

impl Sink {
    pub fn new(alloc: Global, most: usize, fails_at: u64) -> Sink {
        Sink {
            taken: Vec::new(alloc),
            most,
            calls: 0,
            fails_at,
        }
    }

    fn fails(&mut self) -> bool {
        self.calls = self.calls.saturating_add(1);
        self.calls == self.fails_at
    }
}

impl Write for Sink {
    fn write(&mut self, buf: &[u8]) -> io::Result<usize> {
        if self.fails() {
            return Err(io::Error::from(ErrorKind::Interrupted));
        }
        let count = buf.len().min(self.most);
        self.taken.extend_from_slice(&buf[..count])?;
        Ok(count)
    }

    fn flush(&mut self) -> io::Result<()> {
        if self.fails() {
            return Err(io::Error::from(ErrorKind::Interrupted));
        }
        Ok(())
    }
}
