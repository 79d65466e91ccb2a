//! The line of the plan.
ghost use Rattle.std.specs.Prelude.{◌≡◌, ◌↔◌, true, is_some, min, IsSome, IfSome, IfOk, IfErr, OnSome, Ok, Err, drop};
ghost use Rattle.std.specs.List.{list_all};
ghost use Rattle.std.specs.Char.{is_ascii_digit};
ghost use Rattle.std.specs.Option.{option_map};
ghost use Rattle.rv_text.specs.Decimal.{decimal_of};
ghost use Rattle.rv_collide.specs.Numbers.{numbers};
ghost use Rattle.rv_collide.specs.Plan.{IsPlan};
ghost use Rattle.rv_collide.specs.ScheduleRead.{is_of_text, named, numbers_of, plan_of, slots_in, words_of};
ghost use Rattle.rv_collide.specs.internal.Capped.{capped, given_numbers};

use crate::plan::{DEFAULT_SLOTS, Plan};
use crate::schedule::fault::ScheduleKind;
use crate::schedule::format::Format;
use rv_text::decimal::read_decimal;
use rv_text::pieces::Pieces;

/// The numbers of a plan line, where one that is above `u32::MAX` stands as `u32::MAX`: both are out of
/// range.
#[derive(Clone, Copy)]
struct Given {
    harts: u32,
    steps: u32,
    arms: u32,
    pause: u32,
    slots: u32,
}

fn are_digits(text: &[u8]) -> bool
    ensures { result ≡ list_all is_ascii_digit text.now }
{
    text.iter().all(|byte| byte.is_ascii_digit())
}

/// Whether the text is a number in decimal digits without a leading zero, of any size.
#[tactic(auto, using(crate::proofs::PlanLineLemmas::digits_tell))]
fn is_decimal(text: &[u8]) -> bool
    ensures { result ≡ is_some (decimal_of text.now) }
{
    let leading_zero = text.len() > 1 && text[0] == b'0';
    !text.is_empty() && !leading_zero && are_digits(text)
}

/// The number that the text writes in decimal digits without a leading zero, or `u32::MAX` where it is
/// greater.
fn read_capped(text: &[u8]) -> Option<u32>
    ensures { result ≡ option_map (min u32.MAX) (decimal_of text.now) }
{
    match read_decimal(text, u32::MAX) {
        None if is_decimal(text) => Some(u32::MAX),
        number => number,
    }
}

/// The number that follows the name, of the next two words.
fn read_named(words: &mut Pieces<'_>, name: &[u8]) -> Option<u32>
    ensures value { result ≡ option_map (min u32.MAX) (named name.now words.old) }
    ensures rest { OnSome result (words.new ≡ drop 2 words.old) }
{
    let word = words.next_piece()?;
    let numeral = words.next_piece()?;
    if word == name {
        read_capped(numeral)
    } else {
        None
    }
}

/// The slots of the words that are left, after which there are no more.
fn read_slots(format: Format, words: &mut Pieces<'_>) -> Option<u32>
    ensures { result ≡ option_map (min u32.MAX) (slots_in format words.old) }
{
    let slots = match format {
        Format::First => u32::from(DEFAULT_SLOTS),
        Format::Second => read_named(words, b"slots")?,
    };
    match words.next_piece() {
        None => Some(slots),
        Some(_) => None,
    }
}

#[tactic(auto, unfolding(crate::specs::ScheduleRead::numbers_of))]
fn read_numbers(format: Format, line: &[u8]) -> Option<Given>
    ensures { option_map given_numbers result ≡ option_map capped (numbers_of format (words_of line.now)) }
{
    let mut words = Pieces::of(line, b' ');
    let harts = read_named(&mut words, b"harts")?;
    let steps = read_named(&mut words, b"steps")?;
    let arms = read_named(&mut words, b"arms")?;
    let pause = read_named(&mut words, b"pause")?;
    let slots = read_slots(format, &mut words)?;
    Some(Given {
        harts,
        steps,
        arms,
        pause,
        slots,
    })
}

/// The plan of the numbers, where they are in range.
fn planned(given: Given) -> Option<Plan>
    ensures valid { IsSome result ↔ IsPlan (given_numbers given) }
    ensures value { IfSome result (λ plan. numbers plan ≡ given_numbers given) }
{
    if given.harts > 255 || given.slots > 255 {
        return None;
    }
    let (harts, slots) = (given.harts as u8, given.slots as u8);
    Plan::new(harts, given.steps, given.arms, given.pause, slots)
}

/// The plan that a line says: its shape is tested before the range of its numbers.
#[tactic(auto, unfolding(crate::specs::ScheduleRead::plan_of))]
pub(crate) fn read_plan(format: Format, line: &[u8]) -> Result<Plan, ScheduleKind>
    ensures ok { IfOk result (λ plan. plan_of format line.now ≡ Ok (numbers plan)) }
    ensures err { IfErr result (λ kind. plan_of format line.now ≡ Err kind) }
    ensures told { IfErr result (λ kind. is_of_text kind ≡ true) }
{
    let Some(given) = read_numbers(format, line) else {
        return Err(ScheduleKind::PlanLine);
    };
    match planned(given) {
        Some(plan) => Ok(plan),
        None => Err(ScheduleKind::PlanRange),
    }
}
