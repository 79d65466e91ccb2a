//! Decimal numbers that may be over 2^64 - 1.
ghost use Rattle.std.specs.Prelude.{◌≡◌, ◌<◌, ◌+◌, ◌*◌, ℕ};
ghost use Rattle.std.specs.Option.{option_map};
ghost use Rattle.rv_tables.specs.HuntRead.{sized};
ghost use Rattle.rv_text.specs.Decimal.{decimal_of};
ghost use Rattle.rv_text.specs.Numeral.{number_of};

/// A number with one digit more. None stands for one over 2^64 - 1.
fn longer(number: Option<u64>, digit: u32) -> Option<u64>
    requires { digit < 10 }
    ensures { (n : ℕ) → number ≡ sized n → result ≡ sized (n * 10 + digit) }
{
    match number {
        None => None,
        Some(number) => number.checked_mul(10)?.checked_add(u64::from(digit)),
    }
}

/// The number that the text writes in digits.
#[tactic(auto, unfolding(rv_text::specs::Numeral::number_of))]
fn read_digits(text: &[u8]) -> Option<Option<u64>>
    ensures { result ≡ option_map sized (number_of 10 text.now) }
{
    if text.is_empty() {
        return None;
    }
    let mut number = Some(0);
    for byte in text {
        let digit = char::from(*byte).to_digit(10)?;
        number = longer(number, digit);
    }
    Some(number)
}

/// The number that the text writes in decimal digits without a leading zero, Some(None) where it is over 2^64 - 1.
/// None for any other text.
#[tactic(auto, unfolding(rv_text::specs::Decimal::decimal_of))]
pub(crate) fn read_large(text: &[u8]) -> Option<Option<u64>>
    ensures { result ≡ option_map sized (decimal_of text.now) }
{
    match text {
        [b'0', _, ..] => None,
        _ => read_digits(text),
    }
}
