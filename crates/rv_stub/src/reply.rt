//! The answer to a packet, before it is written.
ghost use Rattle.std.specs.Prelude.{◌≡◌, ◌||◌, is_err, IfOk, OnOk};
ghost use Rattle.std.specs.Io.KnownBytes.{Appends};
ghost use Rattle.rv_remote.specs.Framed.{packet_of};
ghost use Rattle.rv_gdb.specs.Replies.{refusal_text};
ghost use Rattle.rv_gdb.specs.Sheet.{bytes};
ghost use Rattle.rv_gdb.specs.Shown.{digits_of};
ghost use Rattle.rv_stub.specs.Reply as spec;

use crate::no_room::NoRoom;
use rv_gdb::replies::Refusal;
use rv_gdb::sheet::Sheet;
use rv_gdb::shown::write_digits;
use rv_gdb::stop::{Stop, write_stop_packet};
use rv_memory::flagged::WriteFault;
use rv_memory::output::Output;
use rv_remote::framed::write_packet;
use std::alloc::Global;

/// What is answered. Only a text that was gathered has taken memory.
#[derive(Drop)]
pub enum Reply {
    Constant(&'static [u8]),
    Stopped(Stop),
    Gathered(Sheet),
}

impl Reply {
    /// The answer to a request that is refused.
    pub fn refused(why: Refusal) -> Reply
        ensures { spec.reply_text result ≡ refusal_text why }
    {
        Reply::Constant(why.text())
    }

    /// A text in hexadecimal digits.
    pub fn of_digits(alloc: Global, text: &[u8]) -> Result<Reply, NoRoom>
        ensures { IfOk result (λ reply. spec.reply_text reply ≡ digits_of text.now) }
    {
        let mut digits = Sheet::new(alloc);
        write_digits(&mut digits, text)?;
        Ok(Reply::Gathered(digits))
    }

    /// Writes the packet.
    pub fn write<O: Output>(&self, writer: &mut O) -> Result<(), WriteFault>
        ensures ok { OnOk result (Appends (O.written writer.old) (O.written writer.new) (packet_of (spec.reply_text self.now))) }
        ensures failed { O.has_failed writer.new ≡ (O.has_failed writer.old || is_err result) }
    {
        match self {
            Reply::Constant(text) => write_packet(writer, text),
            Reply::Stopped(stop) => write_stop_packet(writer, stop),
            Reply::Gathered(sheet) => write_packet(writer, sheet.as_bytes()),
        }
    }
}
