//! Texts as HTML writes them.
ghost use Rattle.std.specs.Prelude.{◌≡◌, ◌++◌, IfOk, OnOk};
ghost use Rattle.std.specs.Option.{option_map_or};
ghost use Rattle.rv_markup.specs.Escaped as spec;

use rv_memory::store::NoMemory;
use rv_text::hexadecimal::byte_digits;
use std::alloc::Global;

fn is_hidden(byte: u8) -> bool
    ensures { result ≡ spec.is_hidden byte }
{
    (byte < 32 && byte != b'\n') || byte > 126
}

fn add_plain(text: &mut Vec<u8>, byte: u8) -> Result<(), NoMemory>
    ensures { OnOk result (text.new.items ≡ text.old.items ++ spec.plain_byte byte) }
{
    if is_hidden(byte) {
        text.extend_from_slice(b"\\x")?;
        text.extend_from_slice(&byte_digits(byte))?;
    } else {
        text.push(byte)?;
    }
    Ok(())
}

/// What HTML writes for a character that it may read as markup.
fn entity_of(byte: u8) -> Option<&'static [u8]>
    ensures { option_map_or (λ entity. entity.now) result (spec.plain_byte byte) ≡ spec.escaped_byte byte }
{
    match byte {
        b'&' => Some(b"&amp;"),
        b'<' => Some(b"&lt;"),
        b'>' => Some(b"&gt;"),
        b'"' => Some(b"&quot;"),
        b'\'' => Some(b"&#39;"),
        _ => None,
    }
}

fn add_escaped(text: &mut Vec<u8>, byte: u8) -> Result<(), NoMemory>
    ensures { OnOk result (text.new.items ≡ text.old.items ++ spec.escaped_byte byte) }
{
    match entity_of(byte) {
        Some(entity) => text.extend_from_slice(entity)?,
        None => add_plain(text, byte)?,
    }
    Ok(())
}

/// Adds a text as it stands in markup.
pub(crate) fn push_escaped(written: &mut Vec<u8>, text: &[u8]) -> Result<(), NoMemory>
    ensures { OnOk result (written.new.items ≡ written.old.items ++ spec.escaped text.now) }
{
    for byte in text {
        add_escaped(written, *byte)?;
    }
    Ok(())
}

/// A text as it stands in the page.
pub fn escaped(alloc: Global, text: &[u8]) -> Result<Vec<u8>, NoMemory>
    ensures { IfOk result (λ written. written.items ≡ spec.escaped text.now) }
{
    let mut written = Vec::new(alloc);
    push_escaped(&mut written, text)?;
    Ok(written)
}
