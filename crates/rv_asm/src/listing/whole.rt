//! Eight-digit words in texts.
ghost use Rattle.std.specs.Prelude.{◌≡◌, ◌++◌, IfOk, OnOk};
ghost use Rattle.std.specs.String.{string_bytes};
ghost use Rattle.rv_text.specs.Hexadecimal as hexadecimal;

use rv_memory::store::NoMemory;
use rv_text::hexadecimal::word_digits;
use std::alloc::Global;

/// Appends the word's eight digits.
pub(crate) fn push_word(text: &mut String, word: u32) -> Result<(), NoMemory>
    ensures { OnOk result (string_bytes text.new ≡ string_bytes text.old ++ hexadecimal.word_digits word) }
{
    let digits = word_digits(word);
    for digit in &digits {
        text.push(char::from(*digit))?;
    }
    Ok(())
}

/// The word's eight digits.
pub(crate) fn digits_of(alloc: Global, word: u32) -> Result<String, NoMemory>
    ensures { IfOk result (λ text. string_bytes text ≡ hexadecimal.word_digits word) }
{
    let mut text = String::new(alloc);
    push_word(&mut text, word)?;
    Ok(text)
}
