//! What the values of options mean: numbers in decimal digits, and flags.
ghost use Rattle.std.specs.Prelude.{◌≡◌, ◌≤◌, IfOk, IfSome, MatchResult, Some, None};
ghost use Rattle.clap.specs.Matches.{found_of};
ghost use Rattle.clap.specs.Walk.{rows_of};
ghost use Rattle.rv_text.specs.Numeral.{number_of as numeral, up_to};
ghost use Rattle.rv_command.specs.Values as values;

use super::complaint::{Complaint, NumberOption};
use super::text_of;
use clap::ArgMatches;

/// The number of an option that has to be given.
pub fn number_of<'a>(given: &ArgMatches<'a>, option: NumberOption) -> Result<u64, Complaint<'a>>
    ensures number { MatchResult result
        (λ n. values.number_at option.name.now option.least option.most (rows_of (found_of given.now)) ≡ Some n)
        (λ _. values.number_at option.name.now option.least option.most (rows_of (found_of given.now)) ≡ None) }
    ensures range { IfOk result (λ n. (option.least ≤ n) × (n ≤ option.most)) }
{
    let value = text_of(given, option.name).ok_or(Complaint::Words)?;
    number_in(option, value)
}

/// The number of an option that may be left out and has a default.
pub fn number_or<'a>(
    given: &ArgMatches<'a>,
    option: NumberOption,
    default: u64,
) -> Result<u64, Complaint<'a>>
    requires least { option.least ≤ default }
    requires most { default ≤ option.most }
    ensures number { MatchResult result
        (λ n. values.number_or default option.name.now option.least option.most (rows_of (found_of given.now)) ≡ Some n)
        (λ _. values.number_or default option.name.now option.least option.most (rows_of (found_of given.now)) ≡ None) }
    ensures range { IfOk result (λ n. (option.least ≤ n) × (n ≤ option.most)) }
{
    Ok(number_if(given, option)?.unwrap_or(default))
}

/// The number of an option that may be left out.
pub fn number_if<'a>(
    given: &ArgMatches<'a>,
    option: NumberOption,
) -> Result<Option<u64>, Complaint<'a>>
    ensures number { MatchResult result
        (λ n. values.number_if option.name.now option.least option.most (rows_of (found_of given.now)) ≡ Some n)
        (λ _. values.number_if option.name.now option.least option.most (rows_of (found_of given.now)) ≡ None) }
    ensures range { IfOk result (λ given. IfSome given (λ n. (option.least ≤ n) × (n ≤ option.most))) }
{
    match text_of(given, option.name) {
        None => Ok(None),
        Some(value) => Ok(Some(number_in(option, value)?)),
    }
}

/// The number that an option's value writes.
pub fn number_in<'a>(option: NumberOption, value: &'a str) -> Result<u64, Complaint<'a>>
    ensures number { MatchResult result (λ n. values.number_in option.least option.most value.now ≡ Some n)
        (λ _. values.number_in option.least option.most value.now ≡ None) }
    ensures range { IfOk result (λ n. (option.least ≤ n) × (n ≤ option.most)) }
{
    number_between(value.as_bytes(), option.least, option.most).ok_or(Complaint::Number {
        option,
        value,
    })
}

/// The number that a text writes, if it lies in the range.
pub fn number_between(text: &[u8], least: u64, most: u64) -> Option<u64>
    ensures number { result ≡ values.number_in least most text.now }
    ensures range { IfSome result (λ n. (least ≤ n) × (n ≤ most)) }
{
    match read_number(text, most) {
        Some(number) if least <= number => Some(number),
        _ => None,
    }
}

/// The number that a text writes. None where it is empty or has another byte than a digit, or the number is above the
/// limit.
#[tactic(auto, unfolding(rv_text::specs::Numeral::number_of))]
fn read_number(text: &[u8], limit: u64) -> Option<u64>
    ensures { result ≡ up_to limit (numeral 10 text.now) }
{
    if text.is_empty() {
        return None;
    }
    let mut number = 0;
    for byte in text {
        let digit = char::from(*byte).to_digit(10)?;
        let longer = u128::from(number) * 10 + u128::from(digit);
        if longer > u128::from(limit) {
            return None;
        }
        number = longer as u64;
    }
    Some(number)
}

/// Whether a flag is given.
pub fn flag_of(given: &ArgMatches<'_>, name: &str) -> bool
    ensures { result ≡ values.flag_at name.now (rows_of (found_of given.now)) }
{
    match text_of(given, name) {
        Some(value) => value == "true",
        None => false,
    }
}
