//! What is answered to a command.
ghost use Rattle.std.specs.Prelude.{◌≡◌, ◌≤◌, ◌∷◌, [], ◌++◌, ◌||◌, is_err, IfSome, OnOk, Some};
ghost use Rattle.std.specs.Io.KnownBytes.{Appends};
ghost use Rattle.std.specs.List.{flat_map};
ghost use Rattle.std.specs.String.{string_bytes};
ghost use Rattle.rv_debug.specs.Answered as spec;
ghost use Rattle.rv_debug.specs.Command.{IsInRange};
ghost use Rattle.rv_debug.specs.internal.Puts.{Puts};
ghost use Rattle.rv_debug.specs.declared.command.Command.TheVariants as command_is;

use crate::command::Command;
use crate::session::{Session, SessionFault};
use rv_hart::texts::write_hart;
use rv_memory::flagged::WriteFault;
use rv_memory::output::{Output, put_pieces};
use rv_text::decimal::Decimal;
use rv_text::hexadecimal::{byte_digits, word_digits};
use std::alloc::Global;

// ---- texts

fn put_place<O: Output>(writer: &mut O, place: u32) -> Result<(), WriteFault>
    ensures ok { OnOk result (Appends (O.written writer.old) (O.written writer.new) (spec.place_text place)) }
    ensures failed { O.has_failed writer.new ≡ (O.has_failed writer.old || is_err result) }
{
    let number = Decimal::new(u64::from(place));
    put_pieces(writer, &[b"at ", number.as_bytes(), b"\n"])
}

fn put_found<O: Output>(writer: &mut O, place: u32) -> Result<(), WriteFault>
    ensures ok { OnOk result (Appends (O.written writer.old) (O.written writer.new) (spec.found_text place)) }
    ensures failed { O.has_failed writer.new ≡ (O.has_failed writer.old || is_err result) }
{
    let number = Decimal::new(u64::from(place));
    put_pieces(writer, &[b"found ", number.as_bytes(), b"\n"])
}

fn fault_words(fault: SessionFault) -> &'static [u8]
    ensures { result.now ≡ spec.fault_words fault }
{
    match fault {
        SessionFault::NoPlace => b"1 NoPlace",
        SessionFault::NoHart => b"2 NoHart",
        SessionFault::NoBytes => b"3 NoBytes",
        SessionFault::NotFound => b"4 NotFound",
        SessionFault::NoMemory => b"5 NoMemory",
    }
}

fn put_fault<O: Output>(writer: &mut O, fault: SessionFault) -> Result<(), WriteFault>
    ensures ok { OnOk result (Appends (O.written writer.old) (O.written writer.new) (spec.fault_text fault)) }
    ensures failed { O.has_failed writer.new ≡ (O.has_failed writer.old || is_err result) }
{
    put_pieces(writer, &[b"fault ", fault_words(fault), b"\n"])
}

fn put_bytes<O: Output>(writer: &mut O, address: u32, bytes: &[u8]) -> Result<(), WriteFault>
    ensures ok { OnOk result (Appends (O.written writer.old) (O.written writer.new)
        (spec.bytes_text address bytes.now)) }
    ensures failed { O.has_failed writer.new ≡ (O.has_failed writer.old || is_err result) }
{
    put_pieces(writer, &[&word_digits(address), b":"])?;
    for byte in bytes {
        put_pieces(writer, &[b" ", &byte_digits(*byte)])?;
    }
    writer.put(b"\n")
}

fn put_lines<O: Output>(writer: &mut O, lines: &[String]) -> Result<(), WriteFault>
    ensures ok { OnOk result (Appends (O.written writer.old) (O.written writer.new)
        (flat_map (λ line. string_bytes line ++ 10 ∷ []) lines.now)) }
    ensures failed { O.has_failed writer.new ≡ (O.has_failed writer.old || is_err result) }
{
    for line in lines {
        put_pieces(writer, &[line.as_bytes(), b"\n"])?;
    }
    Ok(())
}

// ---- commands

fn go<O: Output>(session: &mut Session, n: u32, writer: &mut O) -> Result<(), WriteFault>
    ensures ok { OnOk result (Puts session.old (Some (command_is.Go n)) session.new
        (Appends (O.written writer.old) (O.written writer.new))) }
    ensures failed { O.has_failed writer.new ≡ (O.has_failed writer.old || is_err result) }
{
    match session.go(n) {
        Ok(()) => put_place(writer, n),
        Err(fault) => put_fault(writer, fault),
    }
}

fn forward<O: Output>(session: &mut Session, writer: &mut O) -> Result<(), WriteFault>
    ensures ok { OnOk result (Puts session.old (Some command_is.Forward) session.new
        (Appends (O.written writer.old) (O.written writer.new))) }
    ensures failed { O.has_failed writer.new ≡ (O.has_failed writer.old || is_err result) }
{
    session.facts();
    match session.forward() {
        Ok(()) => put_place(writer, session.place()),
        Err(fault) => put_fault(writer, fault),
    }
}

fn back<O: Output>(session: &mut Session, writer: &mut O) -> Result<(), WriteFault>
    ensures ok { OnOk result (Puts session.old (Some command_is.Back) session.new
        (Appends (O.written writer.old) (O.written writer.new))) }
    ensures failed { O.has_failed writer.new ≡ (O.has_failed writer.old || is_err result) }
{
    match session.back() {
        Ok(()) => put_place(writer, session.place()),
        Err(fault) => put_fault(writer, fault),
    }
}

fn show_hart<O: Output>(session: &Session, h: u32, writer: &mut O) -> Result<(), WriteFault>
    ensures ok { OnOk result (Puts session.now (Some (command_is.Hart h)) session.now
        (Appends (O.written writer.old) (O.written writer.new))) }
    ensures failed { O.has_failed writer.new ≡ (O.has_failed writer.old || is_err result) }
{
    let machine = session.machine();
    if h >= u32::from(machine.harts()) {
        return put_fault(writer, SessionFault::NoHart);
    }
    write_hart(writer, machine, h as u8)
}

fn show_bytes<O: Output>(
    alloc: Global,
    session: &Session,
    address: u32,
    len: u32,
    writer: &mut O,
) -> Result<(), WriteFault>
    requires some { 1 ≤ len }
    requires few { len ≤ 256 }
    ensures ok { OnOk result (Puts session.now (Some (command_is.Bytes address len)) session.now
        (Appends (O.written writer.old) (O.written writer.new))) }
    ensures failed { O.has_failed writer.new ≡ (O.has_failed writer.old || is_err result) }
{
    match session.bytes(alloc, address, len) {
        Ok(bytes) => put_bytes(writer, address, &bytes),
        Err(fault) => put_fault(writer, fault),
    }
}

fn show_lines<O: Output>(
    alloc: Global,
    session: &Session,
    address: u32,
    count: u32,
    writer: &mut O,
) -> Result<(), WriteFault>
    requires some { 1 ≤ count }
    requires few { count ≤ 64 }
    ensures ok { OnOk result (Puts session.now (Some (command_is.Lines address count)) session.now
        (Appends (O.written writer.old) (O.written writer.new))) }
    ensures failed { O.has_failed writer.new ≡ (O.has_failed writer.old || is_err result) }
{
    match session.list(alloc, address, count) {
        Ok(lines) => put_lines(writer, &lines),
        Err(fault) => put_fault(writer, fault),
    }
}

fn find<O: Output>(session: &mut Session, address: u32, writer: &mut O) -> Result<(), WriteFault>
    ensures ok { OnOk result (Puts session.old (Some (command_is.Find address)) session.new
        (Appends (O.written writer.old) (O.written writer.new))) }
    ensures failed { O.has_failed writer.new ≡ (O.has_failed writer.old || is_err result) }
{
    match session.find(address) {
        Ok(found) => put_found(writer, found),
        Err(fault) => put_fault(writer, fault),
    }
}

/// Calls the session for a line's command, and puts the answer. A fault of the session is an answer too.
pub fn answer<O: Output>(
    alloc: Global,
    session: &mut Session,
    command: Option<Command>,
    writer: &mut O,
) -> Result<(), WriteFault>
    requires { IfSome command IsInRange }
    ensures ok { OnOk result (Puts session.old command session.new
        (Appends (O.written writer.old) (O.written writer.new))) }
    ensures failed { O.has_failed writer.new ≡ (O.has_failed writer.old || is_err result) }
{
    let command = match command {
        Some(command) => command,
        None => return writer.put(b"fault 0 Command\n"),
    };
    match command {
        Command::Go(n) => go(session, n, writer),
        Command::Forward => forward(session, writer),
        Command::Back => back(session, writer),
        Command::Hart(h) => show_hart(session, h, writer),
        Command::Bytes { address, len } => show_bytes(alloc, session, address, len, writer),
        Command::Lines { address, count } => show_lines(alloc, session, address, count, writer),
        Command::Find(address) => find(session, address, writer),
        Command::Quit => writer.put(b""),
    }
}
