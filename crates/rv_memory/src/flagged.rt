ghost use Rattle.std.specs.Prelude.{◌≡◌, ◌≤◌, ◌<◌, ℕ, false, ◌||◌, is_err, take, length, IfOk, OnOk, OnErr, IfSome, IsErrOf};
ghost use Rattle.std.specs.Io.{ReadsAtMost, WritesAtMost};
ghost use Rattle.std.specs.Io.KnownBytes.{ReadConsumes, WriteAppends, Keeps, Appends, Consumes, IsAtEnd};
ghost use Rattle.rv_memory.specs.Flagged as flag;

use std::alloc::Global;
use std::io;
use std::io::{Read, Write};

/// The most bytes that any input may have: 64 MiB.
pub const INPUT_LIMIT: usize = 67_108_864;

/// A reader or a writer that remembers whether it has failed: whether it has answered an error, of
/// whatever kind, or has taken none of some bytes.
#[derive(Drop)]
pub struct Flagged<T> {
    device: T,
    failed: bool,
}

impl<T> Flagged<T> {
    pub fn new(device: T) -> Flagged<T>
        ensures device { flag.device result ≡ device }
        ensures fresh { flag.has_failed result ≡ false }
    {
        Flagged {
            device,
            failed: false,
        }
    }

    /// Whether the device has failed.
    pub fn failed(&self) -> bool
        ensures { result ≡ flag.has_failed self.now }
    {
        self.failed
    }

    /// Notes whether what the device answered is a failure.
    fn note(&mut self, failure: bool)
        ensures device { flag.device self.new ≡ flag.device self.old }
        ensures failed { flag.has_failed self.new ≡ (flag.has_failed self.old || failure) }
    {
        if failure {
            self.failed = true;
        }
    }

    pub fn into_inner(self) -> T
        ensures { result ≡ flag.device self }
    {
        self.device
    }
}

impl<R: Read> Read for Flagged<R> {
    ghost remaining = { λ reader. R.remaining reader.device };

    fn read(&mut self, buf: &mut [u8]) -> io::Result<usize>
        ensures bound { ReadsAtMost result buf.new }
        ensures bytes { ReadConsumes (R.remaining (flag.device self.old)) (R.remaining (flag.device self.new)) result buf.new }
        ensures failed { flag.has_failed self.new ≡ (flag.has_failed self.old || is_err result) }
    {
        let read = self.device.read(buf);
        self.note(read.is_err());
        read
    }
}

impl<W: Write> Write for Flagged<W> {
    ghost contents = { λ writer. W.contents writer.device };

    fn write(&mut self, buf: &[u8]) -> io::Result<usize>
        ensures bound { WritesAtMost result buf.now }
        ensures bytes { WriteAppends (W.contents (flag.device self.old)) (W.contents (flag.device self.new)) result buf.now }
        ensures failed { flag.has_failed self.new ≡ (flag.has_failed self.old || flag.is_refused result buf.now) }
    {
        let written = self.device.write(buf);
        let refused = match &written {
            Ok(count) => *count == 0 && !buf.is_empty(),
            Err(_) => true,
        };
        self.note(refused);
        written
    }

    fn flush(&mut self) -> io::Result<()>
        ensures bytes { Keeps (W.contents (flag.device self.old)) (W.contents (flag.device self.new)) }
        ensures failed { flag.has_failed self.new ≡ (flag.has_failed self.old || is_err result) }
    {
        let flushed = self.device.flush();
        self.note(flushed.is_err());
        flushed
    }
}

/// Why an input was not read whole: its reader failed, it has more bytes than the limit, or growth
/// was refused.
#[derive(Clone, Copy, Debug, PartialEq, Eq)]
pub enum ReadFault {
    Read,
    TooLong,
    NoMemory,
}

/// The writer failed.
#[derive(Clone, Copy, Debug, PartialEq, Eq)]
pub struct WriteFault;

/// Reads to the end, up to `limit` bytes. A reader that never ends is refused as too long. No error
/// is tried again, not even `Interrupted`.
pub fn read_whole<R: Read>(
    alloc: Global,
    reader: &mut Flagged<R>,
    limit: usize,
) -> Result<Vec<u8>, ReadFault>
    ensures whole { IfOk result (λ bytes. IfSome (R.remaining (flag.device reader.old)) (λ known. bytes.items ≡ known)) }
    ensures taken { IfOk result (λ bytes. Consumes (R.remaining (flag.device reader.old)) (R.remaining (flag.device reader.new)) bytes.items) }
    ensures end { OnOk result (IsAtEnd (R.remaining (flag.device reader.new))) }
    ensures within { IfOk result (λ bytes. length bytes.items ≤ limit) }
    ensures too_long { IsErrOf result ReadFault.TooLong → IfSome (R.remaining (flag.device reader.old)) (λ known. limit < length known) }
    ensures failed { flag.has_failed reader.new ≡ (flag.has_failed reader.old || flag.is_read_fault result) }
{
    let mut bytes = Vec::new(alloc);
    let mut buffer = [0; 4096];
    loop {
        let Ok(count) = reader.read(&mut buffer) else {
            return Err(ReadFault::Read);
        };
        if count == 0 {
            return Ok(bytes);
        }
        if count > limit - bytes.len() {
            return Err(ReadFault::TooLong);
        }
        if bytes.extend_from_slice(&buffer[..count]).is_err() {
            return Err(ReadFault::NoMemory);
        }
    }
}

/// Writes all of the bytes. No error is tried again, not even `Interrupted`.
pub fn write_whole<W: Write>(writer: &mut Flagged<W>, bytes: &[u8]) -> Result<(), WriteFault>
    ensures ok { OnOk result (Appends (W.contents (flag.device writer.old)) (W.contents (flag.device writer.new)) bytes.now) }
    ensures err { OnErr result ((count : ℕ) × Appends (W.contents (flag.device writer.old)) (W.contents (flag.device writer.new)) (take count bytes.now)) }
    ensures failed { flag.has_failed writer.new ≡ (flag.has_failed writer.old || is_err result) }
{
    let mut done = 0;
    while done < bytes.len() {
        match writer.write(&bytes[done..]) {
            Ok(count) if count > 0 => done += count,
            _ => return Err(WriteFault),
        }
    }
    Ok(())
}

/// Flushes the writer.
pub fn flush<W: Write>(writer: &mut Flagged<W>) -> Result<(), WriteFault>
    ensures keeps { Keeps (W.contents (flag.device writer.old)) (W.contents (flag.device writer.new)) }
    ensures failed { flag.has_failed writer.new ≡ (flag.has_failed writer.old || is_err result) }
{
    match writer.flush() {
        Ok(()) => Ok(()),
        Err(_) => Err(WriteFault),
    }
}
