//! Paths and arguments as messages show them. `specs/Shown.antt` has how.
ghost use Rattle.std.specs.Prelude.{◌≡◌, Some};
ghost use Rattle.rv_faults.specs.Shown as spec;

use std::fmt;

/// A path or an argument, which cannot steer a terminal when it is printed so.
#[derive(Clone, Copy)]
pub struct Shown<'a>(pub &'a str);

/// A byte of such a text.
#[derive(Clone, Copy)]
struct ShownByte(u8);

fn is_hidden(byte: u8) -> bool
    ensures { result ≡ spec.is_hidden byte }
{
    byte < b' ' || byte > b'~'
}

impl fmt::Display for ShownByte {
    ghost output = { λ byte. Some (spec.shown_byte byte.0) };

    fn fmt<W: fmt::Write>(&self, f: &mut fmt::Formatter<W>) -> fmt::Result {
        let byte = self.0;
        if is_hidden(byte) {
            write!(f, "\\x{:x}{:x}", byte / 16, byte % 16)
        } else if byte == b'\\' {
            f.write_str("\\\\")
        } else {
            write!(f, "{}", char::from(byte))
        }
    }
}

impl fmt::Display for Shown<'_> {
    ghost output = { λ text. Some (spec.shown text.0.now) };

    fn fmt<W: fmt::Write>(&self, f: &mut fmt::Formatter<W>) -> fmt::Result {
        for byte in self.0.as_bytes() {
            write!(f, "{}", ShownByte(*byte))?;
        }
        Ok(())
    }
}
