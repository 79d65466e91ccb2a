//! How a name from a file is shown to people: in printable ASCII, so that it cannot steer a terminal.
ghost use Rattle.std.specs.Prelude.{◌≡◌, ◌++◌, IfOk, OnOk, codes};
ghost use Rattle.rv_symbols.specs.Escaped as spec;
ghost use Rattle.rv_text.specs.Hexadecimal.{byte_digits};

use rv_memory::store::NoMemory;
use rv_text::hexadecimal::byte_digits;
use std::alloc::Global;

fn is_hidden(byte: u8) -> bool
    ensures { result ≡ spec.is_hidden byte }
{
    byte <= b' ' || byte > b'~'
}

fn add_hidden(text: &mut Vec<u8>, byte: u8) -> Result<(), NoMemory>
    ensures { OnOk result (text.new.items ≡ text.old.items ++ (codes "\\x" ++ byte_digits byte)) }
{
    text.extend_from_slice(b"\\x")?;
    text.extend_from_slice(&byte_digits(byte))?;
    Ok(())
}

fn add_byte(text: &mut Vec<u8>, byte: u8) -> Result<(), NoMemory>
    ensures { OnOk result (text.new.items ≡ text.old.items ++ spec.escaped_byte byte) }
{
    if is_hidden(byte) {
        return add_hidden(text, byte);
    }
    if byte == b'\\' {
        text.extend_from_slice(b"\\\\")?;
    } else {
        text.push(byte)?;
    }
    Ok(())
}

fn add_field_byte(text: &mut Vec<u8>, byte: u8) -> Result<(), NoMemory>
    ensures { OnOk result (text.new.items ≡ text.old.items ++ spec.field_byte byte) }
{
    if is_hidden(byte) {
        return add_hidden(text, byte);
    }
    text.push(byte)?;
    Ok(())
}

/// Writes a name over a text.
pub fn write_escaped(text: &mut Vec<u8>, name: &[u8]) -> Result<(), NoMemory>
    ensures { OnOk result (text.new.items ≡ spec.escaped name.now) }
{
    text.clear();
    for byte in name {
        add_byte(text, *byte)?;
    }
    Ok(())
}

/// Writes a field of a source line over a text: its file escapes backslashes itself.
pub fn write_escaped_field(text: &mut Vec<u8>, field: &[u8]) -> Result<(), NoMemory>
    ensures { OnOk result (text.new.items ≡ spec.escaped_field field.now) }
{
    text.clear();
    for byte in field {
        add_field_byte(text, *byte)?;
    }
    Ok(())
}

/// A name as people are shown it.
pub fn escaped(alloc: Global, name: &[u8]) -> Result<Vec<u8>, NoMemory>
    ensures { IfOk result (λ text. text.items ≡ spec.escaped name.now) }
{
    let mut text = Vec::new(alloc);
    write_escaped(&mut text, name)?;
    Ok(text)
}

/// A field of a source line as people are shown it.
pub fn escaped_field(alloc: Global, field: &[u8]) -> Result<Vec<u8>, NoMemory>
    ensures { IfOk result (λ text. text.items ≡ spec.escaped_field field.now) }
{
    let mut text = Vec::new(alloc);
    write_escaped_field(&mut text, field)?;
    Ok(text)
}
