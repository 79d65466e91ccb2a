//! What a table's last line says was given of its runs, as `specs/GivenRuns.antt` has it.
ghost use Rattle.std.specs.Prelude.{◌≡◌, ◌≤◌, IfSome, option_map};
ghost use Rattle.std.specs.Option.{option_copied};
ghost use Rattle.rv_hunt.specs.GivenRuns as spec;

use rv_collide::plan::{DEFAULT_SLOTS, MOST_ARMS, MOST_HARTS, MOST_PAUSE, MOST_SLOTS, MOST_STEPS};
use rv_plans::plans::{Lengths, Mix};
use rv_search::aim::Sides;
use rv_text::decimal::read_decimal;
use rv_text::pieces::Pieces;
use std::str;

/// How many slots the runs of a hunt have, where not all are sampled ones: in contended programs many harts are paused at once.
pub const SLOTS: u8 = 8;

/// The most slots that may be given.
pub const MOST_GIVEN_SLOTS: u8 = MOST_SLOTS;

/// What was given of the runs of a hunt, by its options.
#[derive(Clone, Copy)]
pub struct GivenRuns<'a> {
    pub harts: Option<u8>,
    pub lengths: Option<Lengths>,
    pub slots: Option<u8>,
    pub sampled: bool,
    pub skip: Option<&'a str>,
    pub named: Option<&'a str>,
    pub aim: Option<Sides<'a>>,
}

/// What was given as it is written: the value behind each name, where it is given.
#[derive(Clone, Copy)]
struct Written<'a> {
    harts: Option<&'a [u8]>,
    plan: Option<&'a [u8]>,
    slots: Option<&'a [u8]>,
    sampled: bool,
    skip: Option<&'a [u8]>,
    named: Option<&'a [u8]>,
    aim: Option<&'a [u8]>,
}

impl GivenRuns<'_> {
    /// What the runs are.
    pub(crate) fn mix(&self) -> Mix
        ensures { result ≡ spec.mix_of (spec.given self.now) }
    {
        if self.sampled {
            Mix::Sampled
        } else if self.aim.is_some() {
            // Sampled runs make no probes.
            Mix::Walks
        } else {
            Mix::Mixed
        }
    }

    /// How many slots they have.
    pub(crate) fn slots(&self) -> u8
        ensures { result ≡ spec.slots_of (spec.given self.now) }
    {
        match self.slots {
            Some(slots) => slots,
            None if self.sampled => DEFAULT_SLOTS,
            None => SLOTS,
        }
    }
}

/// The value of the name that the words begin with, and the words behind it; else all words.
fn value_first<'w, 'a>(words: &'w [&'a [u8]], name: &[u8]) -> (Option<&'a [u8]>, &'w [&'a [u8]])
    ensures { (spec.bytes_if result.0, spec.texts result.1.now) ≡ spec.value_first name.now (spec.texts words.entry.now) }
{
    match words {
        [word, value, rest @ ..] if *word == name => (Some(*value), rest),
        _ => (None, words),
    }
}

/// Whether the words begin with the name, and the words behind it.
fn flag_first<'w, 'a>(words: &'w [&'a [u8]], name: &[u8]) -> (bool, &'w [&'a [u8]])
    ensures { (result.0, spec.texts result.1.now) ≡ spec.flag_first name.now (spec.texts words.entry.now) }
{
    match words {
        [word, rest @ ..] if *word == name => (true, rest),
        _ => (false, words),
    }
}

/// What the words write, each of which stands at its place.
#[tactic(auto, unfolding(crate::specs::GivenRuns::values_in))]
fn written_in<'a>(words: &[&'a [u8]]) -> Option<Written<'a>>
    ensures { option_map spec.values result ≡ spec.values_in (spec.texts words.now) }
{
    let (harts, rest) = value_first(words, b"harts");
    let (plan, rest) = value_first(rest, b"plan");
    let (slots, rest) = value_first(rest, b"slots");
    let (sampled, rest) = flag_first(rest, b"sampled");
    let (skip, rest) = value_first(rest, b"skip");
    let (named, rest) = value_first(rest, b"named");
    let (aim, rest) = value_first(rest, b"aim");
    if !rest.is_empty() {
        return None;
    }
    Some(Written {
        harts,
        plan,
        slots,
        sampled,
        skip,
        named,
        aim,
    })
}

/// A number in its range.
fn number_in(least: u32, most: u32, word: &[u8]) -> Option<u32>
    ensures number { result ≡ spec.number_in least most word.now }
    ensures range { IfSome result (λ n. (least ≤ n) × (n ≤ most)) }
{
    let number = read_decimal(word, most)?;
    if least <= number { Some(number) } else { None }
}

/// The same of one byte, where it is given.
fn number_if(most: u8, word: Option<&[u8]>) -> Option<Option<u8>>
    ensures { result ≡ spec.if_given (spec.number_in 1 most) (spec.bytes_if word.entry) }
{
    match word {
        None => Some(None),
        Some(word) => Some(Some(number_in(1, u32::from(most), word)? as u8)),
    }
}

/// STEPS,ARMS,PAUSE.
fn lengths_in(word: &[u8]) -> Option<Lengths>
    ensures { result ≡ spec.lengths_in word.now }
{
    let mut pieces = Pieces::of(word, b',');
    let steps = pieces.next_piece()?;
    let arms = pieces.next_piece()?;
    let pause = pieces.next_piece()?;
    if pieces.next_piece().is_some() {
        return None;
    }
    three_lengths(steps, arms, pause)
}

/// The lengths that three words write.
fn three_lengths(steps: &[u8], arms: &[u8], pause: &[u8]) -> Option<Lengths>
    ensures { result ≡ spec.three_lengths steps.now arms.now pause.now }
{
    let steps = number_in(1, MOST_STEPS, steps)?;
    let arms = number_in(0, MOST_ARMS, arms)?;
    let pause = number_in(1, MOST_PAUSE, pause)?;
    Some(Lengths { steps, arms, pause })
}

/// The same, where they are given.
fn lengths_if(word: Option<&[u8]>) -> Option<Option<Lengths>>
    ensures { result ≡ spec.if_given spec.lengths_in (spec.bytes_if word.entry) }
{
    match word {
        None => Some(None),
        Some(word) => Some(Some(lengths_in(word)?)),
    }
}

/// A list as a text.
#[tactic(auto, using(crate::proofs::GivenLemmas::from_utf8, crate::proofs::GivenLemmas::not_utf8))]
fn text_in(word: &[u8]) -> Option<&str>
    ensures { option_copied result ≡ spec.text_in word.now }
{
    let Ok(text) = str::from_utf8(word) else {
        return None;
    };
    Some(text)
}

/// The same, where it is given.
fn text_if<'a>(word: Option<&'a [u8]>) -> Option<Option<&'a str>>
    ensures { option_map (λ text. option_copied text) result ≡ spec.if_given spec.text_in (spec.bytes_if word.entry) }
{
    match word {
        None => Some(None),
        Some(word) => Some(Some(text_in(word)?)),
    }
}

/// A,B: two sides.
fn sides_in(word: &[u8]) -> Option<Sides<'_>>
    ensures { option_map spec.sides result ≡ spec.sides_in word.now }
{
    let mut pieces = Pieces::of(word, b',');
    let one = pieces.next_piece()?;
    let other = pieces.next_piece()?;
    if pieces.next_piece().is_some() {
        return None;
    }
    both_sides(one, other)
}

/// The sides that two words name.
fn both_sides<'a>(one: &'a [u8], other: &'a [u8]) -> Option<Sides<'a>>
    ensures { option_map spec.sides result ≡ spec.both_sides one.entry.now other.entry.now }
{
    let one = text_in(one)?;
    let other = text_in(other)?;
    if one.is_empty() || other.is_empty() {
        None
    } else {
        Some(Sides { one, other })
    }
}

/// The same, where they are given.
fn sides_if<'a>(word: Option<&'a [u8]>) -> Option<Option<Sides<'a>>>
    ensures { option_map (λ both. option_map spec.sides both) result ≡ spec.if_given spec.sides_in (spec.bytes_if word.entry) }
{
    match word {
        None => Some(None),
        Some(word) => Some(Some(sides_in(word)?)),
    }
}

/// What the words say was given.
#[tactic(auto, unfolding(crate::specs::GivenRuns::given_in))]
pub(crate) fn given_in<'a>(words: &[&'a [u8]]) -> Option<GivenRuns<'a>>
    ensures { option_map spec.given result ≡ spec.given_in (spec.texts words.now) }
{
    let written = written_in(words)?;
    Some(GivenRuns {
        harts: number_if(MOST_HARTS, written.harts)?,
        lengths: lengths_if(written.plan)?,
        slots: number_if(MOST_GIVEN_SLOTS, written.slots)?,
        sampled: written.sampled,
        skip: text_if(written.skip)?,
        named: text_if(written.named)?,
        aim: sides_if(written.aim)?,
    })
}
