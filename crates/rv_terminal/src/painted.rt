//! Colours of words. A class has one where it stands behind a comma, behind `#`, behind the number that a line begins with, or first in a line
//! with a colon; `error` and `warning` have one with a colon, first in a line or behind the program's name. No name of a program has a blank,
//! so none is taken for these. What is said is the same without them.
ghost use Rattle.std.specs.Prelude.{◌≤◌, None, if◌then◌else◌, length};
ghost use Rattle.std.specs.Io.{WritesAtMost};
ghost use Rattle.std.specs.Io.KnownBytes.{Keeps, WriteAppends};

use rv_races::classes::{RaceClass, class_word};
use std::alloc::{AllocError, Global};
use std::io::{self, Write};

const RED: &[u8] = b"\x1b[31m";

const YELLOW: &[u8] = b"\x1b[33m";

const CYAN: &[u8] = b"\x1b[36m";

const NONE: &[u8] = b"\x1b[0m";

/// What may be a bug is red or yellow.
const CLASSES: [(RaceClass, &[u8]); 7] = [
    (RaceClass::Kept, RED),
    (RaceClass::Counter, YELLOW),
    (RaceClass::Unwatched, YELLOW),
    (RaceClass::Flag, CYAN),
    (RaceClass::Ordered, CYAN),
    (RaceClass::Atomic, CYAN),
    (RaceClass::Named, CYAN),
];

/// The program's name in front of a warning.
const PROGRAM: &[u8] = b"rvcollide:";

/// A place in a line: how many words are before it, and the last of them.
#[derive(Clone, Copy)]
struct Place<'a> {
    number: usize,
    before: &'a [u8],
}

fn is_number(word: &[u8]) -> bool {
    !word.is_empty() && word.iter().all(|byte| byte.is_ascii_digit())
}

impl Place<'_> {
    /// Whether a class may stand there, with a colon or without.
    fn has_class(self, has_colon: bool) -> bool {
        match self.number {
            0 => has_colon,
            1 if is_number(self.before) => true,
            _ => self.before.ends_with(b",") || self.before == b"#".as_slice(),
        }
    }

    /// Whether `error:` or `warning:` may.
    fn has_notice(self) -> bool {
        self.number == 0 || self.before == PROGRAM
    }

    /// The colour of a word there, of which a comma or a colon is taken away, if it has one.
    fn color(self, word: &[u8], has_colon: bool) -> Option<&'static [u8]> {
        if has_colon && self.has_notice() && word == b"error".as_slice() {
            return Some(RED);
        }
        if has_colon && self.has_notice() && word == b"warning".as_slice() {
            return Some(YELLOW);
        }
        if self.has_class(has_colon) {
            color_of_class(word)
        } else {
            None
        }
    }
}

fn color_of_class(word: &[u8]) -> Option<&'static [u8]> {
    for (class, color) in CLASSES.iter() {
        if word == class_word(*class) {
            return Some(*color);
        }
    }
    None
}

/// How many bytes of a word there are before a comma or a colon at its end.
fn name_len(word: &[u8]) -> usize
    ensures { result ≤ length word.now }
{
    if word.ends_with(b",") || word.ends_with(b":") {
        word.len().saturating_sub(1)
    } else {
        word.len()
    }
}

/// Adds a word with its colour, if it has one.
fn push_word(text: &mut Vec<u8>, place: Place<'_>, word: &[u8]) -> Result<(), AllocError> {
    let (name, tail) = word.split_at(name_len(word));
    let Some(color) = place.color(name, tail == b":".as_slice()) else {
        return text.extend_from_slice(word);
    };
    text.extend_from_slice(color)?;
    text.extend_from_slice(name)?;
    text.extend_from_slice(NONE)?;
    text.extend_from_slice(tail)
}

/// Adds a line with its colours.
fn push_line(text: &mut Vec<u8>, line: &[u8]) -> Result<(), AllocError> {
    let mut place = Place {
        number: 0,
        before: b"".as_slice(),
    };
    for (n, word) in line.split(|byte| *byte == b' ').enumerate() {
        if n > 0 {
            text.push(b' ')?;
        }
        push_word(text, place, word)?;
        if !word.is_empty() {
            place = Place {
                number: place.number.saturating_add(1),
                before: word,
            };
        }
    }
    Ok(())
}

/// A text with its colours.
fn colored(alloc: Global, text: &[u8]) -> Result<Vec<u8>, AllocError> {
    let mut made = Vec::new(alloc);
    for (n, line) in text.split(|byte| *byte == b'\n').enumerate() {
        if n > 0 {
            made.push(b'\n')?;
        }
        push_line(&mut made, line)?;
    }
    Ok(made)
}

/// The same as text.
fn colored_text(alloc: Global, text: &str) -> Result<String, AllocError> {
    String::from_utf8_lossy(alloc, &colored(alloc, text.as_bytes())?)
}

/// Writes a text to the standard error, with its colours, where it gets them and there is memory for that. Where the standard error fails there
/// is nothing left to tell it to.
pub fn tell_painted(rt: &HostRuntime, paints: bool, text: &str) {
    let _ = if paints {
        match colored_text(rt.alloc(), text) {
            Ok(made) => eprint!(rt; "{made}"),
            Err(_) => eprint!(rt; "{text}"),
        }
    } else {
        eprint!(rt; "{text}")
    };
}

/// A writer that gives the lines of a text their colours, where they get them and there is memory for that.
#[derive(Drop)]
pub struct Painted<W> {
    alloc: Global,
    device: W,
    paints: bool,
    /// The begin of a line whose end isn't there yet.
    line: Vec<u8>,
}

impl<W> Painted<W> {
    pub fn new(alloc: Global, device: W, paints: bool) -> Painted<W> {
        Painted {
            alloc,
            device,
            paints,
            line: Vec::new(alloc),
        }
    }
}

impl<W: Write> Painted<W> {
    /// Takes bytes of a line.
    fn take(&mut self, bytes: &[u8]) -> io::Result<()> {
        if self.line.extend_from_slice(bytes).is_ok() {
            return Ok(());
        }
        self.hand()?;
        self.device.write_all(bytes)
    }

    /// Hands what was taken to the device.
    fn hand(&mut self) -> io::Result<()> {
        let handed = match colored(self.alloc, &self.line) {
            Ok(text) => self.device.write_all(&text),
            Err(_) => self.device.write_all(&self.line),
        };
        self.line.clear();
        handed
    }
}

/// How many bytes there are up to the last line's end.
fn whole_lines(text: &[u8]) -> usize
    ensures { result ≤ length text.now }
{
    match text.iter().rposition(|byte| *byte == b'\n') {
        Some(at) => at.saturating_add(1).min(text.len()),
        None => 0,
    }
}

impl<W: Write> Write for Painted<W> {
    ghost contents = { λ writer. if writer.paints then None else W.contents writer.device };

    fn write(&mut self, buf: &[u8]) -> io::Result<usize>
        ensures bound { WritesAtMost result buf.now }
        ensures bytes { WriteAppends (if self.old.paints then None else W.contents self.old.device)
            (if self.new.paints then None else W.contents self.new.device) result buf.now }
    {
        if !self.paints {
            return self.device.write(buf);
        }
        let (whole, rest) = buf.split_at(whole_lines(buf));
        if !whole.is_empty() {
            self.take(whole)?;
            self.hand()?;
        }
        self.take(rest)?;
        Ok(buf.len())
    }

    fn flush(&mut self) -> io::Result<()>
        ensures { Keeps (if self.old.paints then None else W.contents self.old.device)
            (if self.new.paints then None else W.contents self.new.device) }
    {
        if self.paints {
            self.hand()?;
        }
        self.device.flush()
    }
}
