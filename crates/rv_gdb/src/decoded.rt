//! Bytes that a packet writes in hexadecimal digits.
ghost use Rattle.std.specs.Prelude.{◌≡◌, ◌<◌, ◌≤◌, [], ◌∷◌, ◌++◌, length};
ghost use Rattle.rv_gdb.specs.Fields.{byte_of, bytes_in};
ghost use Rattle.rv_remote.specs.declared.framing.TheConstants.{MOST_BYTES};

use rv_remote::framing::MOST_BYTES;
use rv_text::numeral::read_number;
use std::marker::Model;

/// The most bytes that the digits of one packet write.
const MOST_DECODED: usize = MOST_BYTES / 2;

/// Up to 256 bytes. To contracts it is those bytes. It takes no memory.
#[derive(Drop)]
pub(crate) struct Decoded {
    bytes: [u8; MOST_DECODED],
    count: usize,
}

impl Model for Decoded {
    ghost use Rattle.std.specs.Prelude.{ℕ, ◌≤◌, List, take};

    ghost Value = { List ℕ };

    ghost view = { λ d. take d.count d.bytes };

    ghost invariant = { λ d. d.count ≤ 256 };
}

impl Decoded {
    fn new() -> Decoded
        ensures { result ≡ [] }
    {
        Decoded {
            bytes: [0; MOST_DECODED],
            count: 0,
        }
    }

    fn push(&mut self, byte: u8)
        requires { length self.old < 256 }
        ensures { self.new ≡ self.old ++ byte ∷ [] }
    {
        self.bytes[self.count] = byte;
        self.count += 1;
    }

    pub(crate) fn as_bytes(&self) -> &[u8]
        ensures { result.now ≡ self.now }
    {
        &self.bytes[..self.count]
    }
}

/// The byte that the first two digits write. None where there is no such byte.
fn first_byte(text: &[u8]) -> Option<u8>
    ensures { result ≡ byte_of text.now }
{
    match text {
        [first, second, ..] => match read_number(&[*first, *second], 16, 255) {
            Some(byte) => Some(byte as u8),
            None => None,
        },
        _ => None,
    }
}

/// The bytes that the digits of a packet write. None where a digit is left, or another byte stands among them.
pub(crate) fn decode(text: &[u8]) -> Option<Decoded>
    requires { length text.now ≤ MOST_BYTES }
    ensures { result ≡ bytes_in text.now }
{
    let mut decoded = Decoded::new();
    let mut left = text;
    while !left.is_empty() {
        let byte = first_byte(left)?;
        decoded.push(byte);
        left = &left[2..];
    }
    Some(decoded)
}
