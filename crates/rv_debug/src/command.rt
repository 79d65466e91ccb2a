//! The commands of the debugger, one a line.
ghost use Rattle.std.specs.Prelude.{◌≡◌, ◌≤◌, ◌<◌, IfSome};
ghost use Rattle.rv_debug.specs.Command as spec;

use rv_text::decimal::read_decimal;
use rv_text::hexadecimal::read_word;
use rv_text::pieces::Pieces;

/// The most bytes that are shown at once.
const MOST_BYTES: u32 = 256;

/// The most lines that are listed at once.
const MOST_LINES: u32 = 64;

/// What a line asks of the session.
#[derive(Clone, Copy)]
pub enum Command {
    /// `g N`: to place N.
    Go(u32),
    /// `f`: one place forwards.
    Forward,
    /// `b`: one place backwards.
    Back,
    /// `x H`: the hart of that number.
    Hart(u32),
    /// `m ADDR LEN`: 1 to 256 bytes.
    Bytes { address: u32, len: u32 },
    /// `l ADDR COUNT`: the lines of 1 to 64 words.
    Lines { address: u32, count: u32 },
    /// `w ADDR`: to after the next entry that touches the byte.
    Find(u32),
    /// `q`: no more commands.
    Quit,
}

fn read_number(word: &[u8]) -> Option<u32>
    ensures { result ≡ spec.number_in word.now }
{
    read_decimal(word, u32::MAX)
}

/// A number from 1 to the limit.
fn read_count(limit: u32, word: &[u8]) -> Option<u32>
    ensures value { result ≡ spec.count_in limit word.now }
    ensures range { IfSome result (λ count. (1 ≤ count) × (count ≤ limit)) }
{
    let count = read_decimal(word, limit)?;
    if count == 0 { None } else { Some(count) }
}

fn read_plain(name: &[u8]) -> Option<Command>
    ensures value { result ≡ spec.plain_command name.now }
    ensures range { IfSome result spec.IsInRange }
{
    match name {
        b"f" => Some(Command::Forward),
        b"b" => Some(Command::Back),
        b"q" => Some(Command::Quit),
        _ => None,
    }
}

/// A command with one word after its name.
fn read_with(name: &[u8], word: &[u8]) -> Option<Command>
    ensures value { result ≡ spec.command_with name.now word.now }
    ensures range { IfSome result spec.IsInRange }
{
    match name {
        b"g" => Some(Command::Go(read_number(word)?)),
        b"x" => Some(Command::Hart(read_number(word)?)),
        b"w" => Some(Command::Find(read_word(word)?)),
        _ => None,
    }
}

/// A command with an address and a number after its name.
fn read_from(name: &[u8], from: &[u8], number: &[u8]) -> Option<Command>
    ensures value { result ≡ spec.command_from name.now from.now number.now }
    ensures range { IfSome result spec.IsInRange }
{
    match name {
        b"m" => {
            let address = read_word(from)?;
            let len = read_count(MOST_BYTES, number)?;
            Some(Command::Bytes { address, len })
        }
        b"l" => {
            let address = read_word(from)?;
            let count = read_count(MOST_LINES, number)?;
            Some(Command::Lines { address, count })
        }
        _ => None,
    }
}

/// The command that a line says. None where the line is malformed, or a number in it is out of its range.
#[tactic(auto, unfolding(crate::specs::Command::command_of))]
pub fn read_command(line: &[u8]) -> Option<Command>
    ensures value { result ≡ spec.command_of line.now }
    ensures range { IfSome result spec.IsInRange }
{
    let mut words = Pieces::of(line, b' ');
    let name = words.next_piece()?;
    let Some(first) = words.next_piece() else {
        return read_plain(name);
    };
    match words.next_piece() {
        None => read_with(name, first),
        Some(_) if words.next_piece().is_some() => None,
        Some(second) => read_from(name, first, second),
    }
}

/// Whether the command ends the session.
pub fn is_quit(command: Option<Command>) -> bool
    ensures { result ≡ spec.is_quit command }
{
    matches!(command, Some(Command::Quit))
}
