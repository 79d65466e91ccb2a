//! A talk: bytes in, answers out.
ghost use Rattle.std.specs.Prelude.{◌≡◌, ℕ, ◌<◌, ◌≤◌, ◌&&◌, ◌||◌, true, false, not, is_err, IfErr, IfSome, List, [], OnErr, OnOk};
ghost use Rattle.std.specs.Io.KnownBytes.{Appends, Consumes};
ghost use Rattle.rv_debug.specs.Fault.{fails_by, is_read, is_write};
ghost use Rattle.rv_memory.specs.Buffered as buffer;
ghost use Rattle.rv_memory.specs.Flagged as flag;
ghost use Rattle.rv_remote.specs.declared.framing.Heard.TheVariants as heard_is;
ghost use Rattle.rv_stub.specs.Heard as spec;
ghost use Rattle.rv_stub.specs.Talk as talk;

use crate::reply::Reply;
use crate::state::Talk;
use rv_debug::fault::TalkFault;
use rv_debug::session::Session;
use rv_gdb::packet::{Request, read_request};
use rv_memory::buffered::Buffered;
use rv_memory::flagged::{Flagged, INPUT_LIMIT, WriteFault};
use rv_memory::output::Output;
use rv_remote::framing::{Heard, MOST_BYTES, Reading};
use rv_remote::sending::{acknowledge, send_last};
use std::alloc::Global;
use std::io::{Read, Write};
use std::marker::Model;

/// The most bytes of one read.
const CHUNK: usize = 4096;

/// A talk between two bytes.
#[derive(Drop)]
pub struct Conversation {
    talk: Talk,
    reading: Reading,
    acknowledges: bool,
    last: Option<Reply>,
    is_over: bool,
}

impl Model for Conversation {
    ghost use Rattle.std.specs.Prelude.{option_map};
    ghost use Rattle.rv_stub.specs.Heard.{Conversation};
    ghost use Rattle.rv_stub.specs.Reply.{reply_text};

    ghost Value = { Conversation };

    ghost view = { λ c. record {
      standing = c.talk;
      reading = c.reading;
      acknowledges = c.acknowledges;
      last = option_map reply_text c.last;
      is_over = c.is_over;
    } };
}

/// What the data of a packet asks. None where it is malformed.
fn requested(reading: &Reading) -> Option<Request<'_>>
    ensures { result ≡ spec.requested reading.now }
{
    match reading.bytes() {
        Some(text) if text.len() <= MOST_BYTES => read_request(text),
        _ => None,
    }
}

fn starts_no_ack(request: &Option<Request<'_>>) -> bool
    ensures { result ≡ spec.starts_no_ack request.now }
{
    matches!(request, Some(Request::StartNoAck))
}

fn acknowledges_after(acknowledges: bool, request: &Option<Request<'_>>) -> bool
    ensures { result ≡ (acknowledges && not (spec.starts_no_ack request.now)) }
{
    acknowledges && !starts_no_ack(request)
}

fn detaches(request: &Option<Request<'_>>) -> bool
    ensures { result ≡ spec.detaches request.now }
{
    matches!(request, Some(Request::Detach))
}

fn kills(request: &Option<Request<'_>>) -> bool
    ensures { result ≡ spec.kills request.now }
{
    matches!(request, Some(Request::Kill))
}

impl Conversation {
    /// Before the first byte.
    pub fn new(alloc: Global, session: Session) -> Conversation
        ensures { result ≡ spec.opening session }
    {
        Conversation {
            talk: Talk::new(alloc, session),
            reading: Reading::new(),
            acknowledges: true,
            last: None,
            is_over: false,
        }
    }

    /// Writes the last packet again.
    fn write_again<O: Output>(&self, writer: &mut O) -> Result<(), WriteFault>
        ensures ok { OnOk result (Appends (O.written writer.old) (O.written writer.new) (spec.again self.now)) }
        ensures failed { O.has_failed writer.new ≡ (O.has_failed writer.old || is_err result) }
    {
        match &self.last {
            Some(reply) if self.acknowledges => reply.write(writer),
            _ => writer.put(b""),
        }
    }

    /// Answers a packet. Its acknowledgment has been sent, since the answer may take long to find.
    fn answer_packet<W: Write>(
        &mut self,
        alloc: Global,
        writer: &mut Buffered<W>,
    ) -> Result<(), WriteFault>
        requires acknowledged { self.old.acknowledges ≡ true → buffer.pending writer.old ≡ [] }
        ensures turn { OnOk result (spec.Turns (spec.IsTaken self.old (spec.requested self.old.reading)) self.new (Appends (buffer.written W.contents writer.old) (buffer.written W.contents writer.new))) }
        ensures failed { buffer.has_failed writer.new ≡ (buffer.has_failed writer.old || is_err result) }
    {
        let request = requested(&self.reading);
        if kills(&request) {
            self.is_over = true;
            return Ok(());
        }
        let acknowledges = acknowledges_after(self.acknowledges, &request);
        let ends = detaches(&request);
        let reply = self.talk.answer(alloc, request);
        reply.write(writer)?;
        self.last = Some(reply);
        self.acknowledges = acknowledges;
        self.is_over = ends;
        Ok(())
    }

    /// Takes a packet whose sum is right or is not.
    fn take_packet<W: Write>(
        &mut self,
        alloc: Global,
        right: bool,
        writer: &mut Buffered<W>,
    ) -> Result<(), WriteFault>
        ensures turn { OnOk result (spec.Turns (spec.IsTold self.old (heard_is.Packet right)) self.new (Appends (buffer.written W.contents writer.old) (buffer.written W.contents writer.new))) }
        ensures failed { buffer.has_failed writer.new ≡ (buffer.has_failed writer.old || is_err result) }
    {
        if self.acknowledges {
            acknowledge(writer, right)?;
            if !right {
                return Ok(());
            }
            self.answer_packet(alloc, writer)?;
            return Ok(());
        }
        self.answer_packet(alloc, writer)?;
        Ok(())
    }

    /// Does what a byte has told.
    fn obey<W: Write>(
        &mut self,
        alloc: Global,
        heard: Heard,
        writer: &mut Buffered<W>,
    ) -> Result<(), WriteFault>
        ensures turn { OnOk result (spec.Turns (spec.IsTold self.old heard) self.new (Appends (buffer.written W.contents writer.old) (buffer.written W.contents writer.new))) }
        ensures failed { buffer.has_failed writer.new ≡ (buffer.has_failed writer.old || is_err result) }
    {
        match heard {
            Heard::Nothing => Ok(()),
            Heard::Again => {
                self.write_again(writer)?;
                Ok(())
            }
            Heard::Packet(right) => self.take_packet(alloc, right, writer),
        }
    }

    /// Takes one byte more.
    fn hear<W: Write>(
        &mut self,
        alloc: Global,
        byte: u8,
        writer: &mut Buffered<W>,
    ) -> Result<(), WriteFault>
        ensures turn { OnOk result (spec.Turns (spec.IsTurn self.old byte) self.new (Appends (buffer.written W.contents writer.old) (buffer.written W.contents writer.new))) }
        ensures failed { buffer.has_failed writer.new ≡ (buffer.has_failed writer.old || is_err result) }
    {
        if self.is_over {
            return Ok(());
        }
        let heard = self.reading.take(byte);
        self.obey(alloc, heard, writer)?;
        Ok(())
    }

    /// Takes some bytes.
    fn hear_all<W: Write>(
        &mut self,
        alloc: Global,
        bytes: &[u8],
        writer: &mut Buffered<W>,
    ) -> Result<(), WriteFault>
        ensures talk { OnOk result (talk.IsTalk self.old bytes.now self.new (Appends (buffer.written W.contents writer.old) (buffer.written W.contents writer.new))) }
        ensures failed { buffer.has_failed writer.new ≡ (buffer.has_failed writer.old || is_err result) }
    {
        for byte in bytes {
            self.hear(alloc, *byte, writer)?;
        }
        Ok(())
    }
}

/// How many of some bytes there is room for.
fn within(count: usize, left: usize) -> usize
    ensures some { result ≤ count }
    ensures room { result ≤ left }
    ensures cut { result < count → result ≡ left }
{
    if count < left { count } else { left }
}

impl Conversation {
    /// Reads on until the last packet written is acknowledged, or to the end of the input: GDB sends that once it has the
    /// packet, and fails where nobody is there to take it.
    fn await_acknowledgment<C: Read>(&self, commands: &mut Flagged<C>) -> Result<(), TalkFault>
        ensures fault { IfErr result (λ fault. fault ≡ TalkFault.Read) }
        ensures waits { OnErr result (self.now.acknowledges ≡ true) }
        ensures taken { OnErr result ((bytes : List ℕ) × Consumes (C.remaining (flag.device commands.old)) (C.remaining (flag.device commands.new)) bytes) }
        ensures reader { flag.has_failed commands.new ≡ (flag.has_failed commands.old || is_err result) }
    {
        if !self.acknowledges {
            return Ok(());
        }
        let mut chunk = [0; CHUNK];
        // No more reads than an input may have bytes.
        for _read in 0..INPUT_LIMIT {
            let Ok(count) = commands.read(&mut chunk) else {
                return Err(TalkFault::Read);
            };
            if count == 0 || chunk[..count].contains(&b'+') {
                return Ok(());
            }
        }
        Ok(())
    }

    /// Answers the packets of an input, as below.
    fn hear_input<C: Read, W: Write>(
        &mut self,
        alloc: Global,
        commands: &mut Flagged<C>,
        writer: &mut Buffered<W>,
    ) -> Result<(), TalkFault>
        requires { self.old.is_over ≡ false }
        ensures text { OnOk result (IfSome (C.remaining (flag.device commands.old)) (λ input.
            talk.IsWhole self.old input
            (Appends (buffer.written W.contents writer.old) (buffer.sent W.contents writer.new)))) }
        ensures stopped { IfErr result (λ fault. IfSome (C.remaining (flag.device commands.old)) (λ input.
            talk.IsStopped self.old input (C.remaining (flag.device commands.new))
            (Appends (buffer.written W.contents writer.old) (buffer.sent W.contents writer.new)) fault)) }
        ensures reader { flag.has_failed commands.new ≡ (flag.has_failed commands.old || fails_by is_read result) }
        ensures writer { buffer.has_failed writer.new ≡ (buffer.has_failed writer.old || fails_by is_write result) }
    {
        let mut chunk = [0; CHUNK];
        let mut left = INPUT_LIMIT;
        'reads: loop {
            writer.finish()?;
            let Ok(count) = commands.read(&mut chunk) else {
                return Err(TalkFault::Read);
            };
            if count == 0 {
                return Ok(());
            }
            let within = within(count, left);
            self.hear_all(alloc, &chunk[..within], writer)?;
            if self.is_over {
                send_last(writer)?;
                self.await_acknowledgment(commands)?;
                return Ok(());
            }
            if within < count {
                send_last(writer)?;
                return Err(TalkFault::TooLong);
            }
            left -= count;
        }
    }
}

/// Answers the packets of the input up to the one that ends the talk, or to the end. A read gives what has come, and
/// each packet in it is answered before more is read.
pub fn converse<C: Read, W: Write>(
    alloc: Global,
    session: Session,
    commands: &mut Flagged<C>,
    writer: &mut Buffered<W>,
) -> Result<(), TalkFault>
    ensures text { OnOk result (IfSome (C.remaining (flag.device commands.old)) (λ input.
        talk.IsWhole (spec.opening session) input
        (Appends (buffer.written W.contents writer.old) (buffer.sent W.contents writer.new)))) }
    ensures stopped { IfErr result (λ fault. IfSome (C.remaining (flag.device commands.old)) (λ input.
        talk.IsStopped (spec.opening session) input (C.remaining (flag.device commands.new))
        (Appends (buffer.written W.contents writer.old) (buffer.sent W.contents writer.new)) fault)) }
    ensures reader { flag.has_failed commands.new ≡ (flag.has_failed commands.old || fails_by is_read result) }
    ensures writer { buffer.has_failed writer.new ≡ (buffer.has_failed writer.old || fails_by is_write result) }
{
    let mut conversation = Conversation::new(alloc, session);
    conversation.hear_input(alloc, commands, writer)
}
