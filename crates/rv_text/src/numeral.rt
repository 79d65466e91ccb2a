ghost use Rattle.std.specs.Prelude.{◌≡◌, ◌≤◌};
ghost use Rattle.rv_text.specs.Numeral.{number_of, up_to};

/// The number that the text writes in digits of the radix, letters in either case. None where the
/// text is empty or has another byte, or where the number is above the limit.
#[tactic(auto, unfolding(crate::specs::Numeral::number_of))]
pub fn read_number(text: &[u8], radix: u32, limit: u32) -> Option<u32>
    requires least { 2 ≤ radix }
    requires most { radix ≤ 36 }
    ensures { result ≡ up_to limit (number_of radix text.now) }
{
    if text.is_empty() {
        return None;
    }
    let mut number = 0;
    for byte in text {
        let digit = char::from(*byte).to_digit(radix)?;
        let longer = u64::from(number) * u64::from(radix) + u64::from(digit);
        if longer > u64::from(limit) {
            return None;
        }
        number = longer as u32;
    }
    Some(number)
}
