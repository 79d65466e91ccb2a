//! The lines of an input that is answered as it comes: a line is taken as soon as it was read, and nothing is
//! read while one is at hand.
ghost use Rattle.std.specs.Prelude.{◌≡◌, ◌+◌, ◌<◌, ◌∷◌, [], ◌++◌, ◌||◌, true, false, length, IfOk, IfErr, IfSome, IfNone, OnOk, OnErr, OnSome};
ghost use Rattle.std.specs.Io.KnownBytes.{Consumes, IsAtEnd};
ghost use Rattle.rv_memory.specs.Flagged as flag;
ghost use Rattle.rv_debug.specs.Fault.{fails_by, is_read};
ghost use Rattle.rv_debug.specs.internal.Lines as spec;

use crate::fault::TalkFault;
use rv_memory::flagged::Flagged;
use std::io::Read;
use std::marker::Model;

/// The most bytes that are kept of a line: more than any command has.
pub const KEPT: usize = 32;

/// The most bytes of one read.
const CHUNK: usize = 4096;

/// The first bytes of a line. To contracts it is those bytes.
#[derive(Drop)]
pub struct Line {
    bytes: [u8; KEPT],
    len: usize,
}

impl Model for Line {
    ghost use Rattle.std.specs.Prelude.{List, ℕ, ◌≤◌, take};

    ghost Value = { List ℕ };

    ghost view = { λ l. take l.len l.bytes };

    ghost invariant = { λ l. l.len ≤ 32 };
}

impl Line {
    fn new() -> Line
        ensures { result ≡ [] }
    {
        Line {
            bytes: [0; KEPT],
            len: 0,
        }
    }

    /// One more byte of the line.
    fn push(&mut self, byte: u8)
        ensures { self.new ≡ spec.kept (self.old ++ byte ∷ []) }
    {
        if self.len < KEPT {
            self.bytes[self.len] = byte;
            self.len += 1;
        }
    }

    pub fn as_bytes(&self) -> &[u8]
        ensures { result.now ≡ self.now }
    {
        &self.bytes[..self.len]
    }
}

/// The lines of an input that is not read whole: the bytes that were read and not taken, how many more bytes
/// the input may have, and whether its end was read. Its reader is given to each call.
#[derive(Drop)]
pub struct LineSource {
    chunk: [u8; CHUNK],
    start: usize,
    end: usize,
    left: usize,
    is_over: bool,
}

impl Model for LineSource {
    ghost use Rattle.std.specs.Prelude.{◌≤◌, drop, take};
    ghost use Rattle.rv_debug.specs.internal.Lines.{Source};

    ghost Value = { Source };

    ghost view = { λ s. record { pending = drop s.start (take s.end s.chunk); left = s.left; is_over = s.is_over } };

    ghost invariant = { λ s. (s.start ≤ s.end) × (s.end ≤ 4096) };
}

impl LineSource {
    /// An input that may have so many bytes, of which none was read.
    pub fn new(limit: usize) -> LineSource
        ensures { result ≡ record { pending = []; left = limit; is_over = false } }
    {
        LineSource {
            chunk: [0; CHUNK],
            start: 0,
            end: 0,
            left: limit,
            is_over: false,
        }
    }

    /// Reads once, where no byte is at hand and the end was not read. No error is tried again, not even
    /// `Interrupted`.
    fn fill<R: Read>(&mut self, reader: &mut Flagged<R>) -> Result<(), TalkFault>
        ensures rest { Consumes (spec.rest_of self.old (R.remaining (flag.device reader.old)))
            (spec.rest_of self.new (R.remaining (flag.device reader.new))) [] }
        ensures left { self.new.left ≡ self.old.left }
        ensures filled { OnOk result (self.new.is_over ≡ false → 0 < length self.new.pending) }
        ensures over { self.old.is_over ≡ true → self.new.is_over ≡ true }
        ensures err { IfErr result (λ fault. fault ≡ TalkFault.Read) }
        ensures drained { OnErr result (spec.HoldsNothing self.old × spec.HoldsNothing self.new) }
        ensures reader { flag.has_failed reader.new ≡ (flag.has_failed reader.old || fails_by is_read result) }
    {
        if self.start < self.end || self.is_over {
            return Ok(());
        }
        let Ok(count) = reader.read(&mut self.chunk) else {
            return Err(TalkFault::Read);
        };
        self.start = 0;
        self.end = count;
        self.is_over = count == 0;
        Ok(())
    }

    /// Takes the next byte. None at the end of the input.
    fn next_byte<R: Read>(&mut self, reader: &mut Flagged<R>) -> Result<Option<u8>, TalkFault>
        ensures byte { IfOk result (λ next. IfSome next (λ byte.
            Consumes (spec.rest_of self.old (R.remaining (flag.device reader.old)))
            (spec.rest_of self.new (R.remaining (flag.device reader.new))) (byte ∷ []))) }
        ensures left { IfOk result (λ next. OnSome next (self.old.left ≡ self.new.left + 1)) }
        ensures not_over { IfOk result (λ next. OnSome next ((self.old.is_over ≡ false) × (self.new.is_over ≡ false))) }
        ensures end { IfOk result (λ next. IfNone next (
            Consumes (spec.rest_of self.old (R.remaining (flag.device reader.old)))
            (spec.rest_of self.new (R.remaining (flag.device reader.new))) []
            × IsAtEnd (spec.rest_of self.new (R.remaining (flag.device reader.new)))
            × (self.old.left ≡ self.new.left) × (self.new.is_over ≡ true))) }
        ensures err { IfErr result (spec.IsByteless self.old self.new
            (spec.rest_of self.old (R.remaining (flag.device reader.old)))
            (spec.rest_of self.new (R.remaining (flag.device reader.new)))) }
        ensures reader { flag.has_failed reader.new ≡ (flag.has_failed reader.old || fails_by is_read result) }
    {
        self.fill(reader)?;
        if self.is_over {
            return Ok(None);
        }
        if self.left == 0 {
            return Err(TalkFault::TooLong);
        }
        let byte = self.chunk[self.start];
        self.start += 1;
        self.left -= 1;
        Ok(Some(byte))
    }

    /// Takes the next line. None at the end of the input: a last LF opens no line.
    pub fn next_line<R: Read>(&mut self, reader: &mut Flagged<R>) -> Result<Option<Line>, TalkFault>
        ensures line { IfOk result (λ next. IfSome next (spec.TakesLine self.old self.new
            (spec.rest_of self.old (R.remaining (flag.device reader.old)))
            (spec.rest_of self.new (R.remaining (flag.device reader.new))))) }
        ensures end { IfOk result (λ next. IfNone next
            (IsAtEnd (spec.rest_of self.old (R.remaining (flag.device reader.old))))) }
        ensures err { IfErr result (spec.IsUntaken self.old self.new
            (spec.rest_of self.old (R.remaining (flag.device reader.old)))
            (spec.rest_of self.new (R.remaining (flag.device reader.new)))) }
        ensures reader { flag.has_failed reader.new ≡ (flag.has_failed reader.old || fails_by is_read result) }
    {
        let mut line = Line::new();
        let mut is_empty = true;
        'bytes: loop {
            let Some(byte) = self.next_byte(reader)? else {
                if is_empty {
                    return Ok(None);
                }
                return Ok(Some(line));
            };
            if byte == b'\n' {
                return Ok(Some(line));
            }
            line.push(byte);
            is_empty = false;
        }
    }
}
