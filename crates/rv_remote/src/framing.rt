//! Bytes to packets, as `specs/Framing.antt` has it: a byte at a time, so that nothing more is ever waited for.
ghost use Rattle.std.specs.Prelude.{◌≡◌, ◌==◌, Some};
ghost use Rattle.std.specs.Option.{option_copied};
ghost use Rattle.rv_remote.specs.Framing as spec;
ghost use Rattle.rv_remote.specs.declared.framing.Stage.TheVariants as stage;

use rv_text::numeral::read_number;
use std::marker::Model;

/// The most bytes of a packet's data.
pub const MOST_BYTES: usize = 512;

/// What the next byte is part of.
#[derive(Clone, Copy)]
pub enum Stage {
    /// Of no packet.
    Outside,
    /// Of the data.
    Inside,
    /// The first digit of the sum.
    First,
    /// The second one, after that first.
    Second(u8),
}

/// What a byte told.
#[derive(Clone, Copy)]
pub enum Heard {
    Nothing,
    /// The last packet is to be written again.
    Again,
    /// A packet has ended; whether its sum is right.
    Packet(bool),
}

/// What was read of a packet, or of the last one. It takes no memory.
#[derive(Drop)]
pub struct Reading {
    stage: Stage,
    bytes: [u8; MOST_BYTES],
    /// How many bytes the data has; one more than the most of them stands for any number above.
    count: usize,
    sum: u8,
}

impl Model for Reading {
    ghost use Rattle.std.specs.Prelude.{◌≤◌, nat_le, if◌then◌else◌, Some, None, take};
    ghost use Rattle.rv_remote.specs.Framing.{Reading};
    ghost use Rattle.rv_remote.specs.declared.framing.TheConstants.{MOST_BYTES};

    ghost Value = { Reading };

    ghost view = { λ r. record {
      stage = r.stage;
      bytes = (if nat_le r.count MOST_BYTES then Some (take r.count r.bytes) else None);
      sum = r.sum;
    } };

    ghost invariant = { λ r. r.count ≤ 513 };
}

impl Reading {
    /// Before the first byte.
    pub fn new() -> Reading
        ensures { result ≡ spec.silence }
    {
        Reading {
            stage: Stage::Outside,
            bytes: [0; MOST_BYTES],
            count: 0,
            sum: 0,
        }
    }

    /// Takes one byte more.
    pub fn take(&mut self, byte: u8) -> Heard
        ensures next { self.new ≡ spec.next self.old byte }
        ensures heard { result ≡ spec.heard self.old byte }
    {
        if byte == b'$' {
            self.begin();
            return Heard::Nothing;
        }
        match self.stage {
            Stage::Outside if byte == b'-' => Heard::Again,
            Stage::Outside => Heard::Nothing,
            Stage::Inside => {
                self.take_inside(byte);
                Heard::Nothing
            }
            Stage::First => {
                self.stage = Stage::Second(byte);
                Heard::Nothing
            }
            Stage::Second(first) => {
                self.stage = Stage::Outside;
                Heard::Packet(is_sum(self.sum, first, byte))
            }
        }
    }

    /// Begins a packet.
    fn begin(&mut self)
        ensures { self.new ≡ spec.begun }
    {
        self.stage = Stage::Inside;
        self.count = 0;
        self.sum = 0;
    }

    /// Takes a byte within a packet.
    fn take_inside(&mut self, byte: u8)
        requires { self.old.stage ≡ Stage.Inside }
        ensures { self.new ≡ spec.went_on Stage.Inside self.old byte }
    {
        if byte == b'#' {
            self.stage = Stage::First;
            return;
        }
        if self.count < MOST_BYTES {
            self.bytes[self.count] = byte;
        }
        if self.count <= MOST_BYTES {
            self.count += 1;
        }
        self.sum = self.sum.wrapping_add(byte);
    }

    /// The data of the packet. None where it has too many bytes.
    pub fn bytes(&self) -> Option<&[u8]>
        ensures { option_copied result ≡ self.now.bytes }
    {
        if self.count > MOST_BYTES {
            return None;
        }
        Some(&self.bytes[..self.count])
    }
}

/// Whether two bytes are the digits of a sum.
fn is_sum(sum: u8, first: u8, second: u8) -> bool
    ensures { result ≡ spec.is_sum sum first second }
{
    match read_number(&[first, second], 16, 255) {
        Some(number) => number == u32::from(sum),
        None => false,
    }
}
