//! What the text of a list of instruction words says.
ghost use Rattle.std.specs.Prelude.{◌≡◌, ◌≤◌, IfSome, IfOk, IfErr, vec_len};
ghost use Rattle.std.specs.Option.{option_copied};
ghost use Rattle.rv_words.specs.Prefix as spec;
ghost use Rattle.rv_words.specs.HartsLine.{harts_of};
ghost use Rattle.rv_words.specs.StepsLine.{step_list_of, steps_of};
ghost use Rattle.rv_words.specs.WordsInput.{told_at, words_from, input_of, IsFaultOf, IsInLimits};

use crate::fault::WordsFault;
use rv_hart::machine::MOST_HARTS;
use rv_text::decimal::read_decimal;
use rv_text::hexadecimal::read_word;
use rv_text::lines::Lines;
use rv_text::pieces::Pieces;
use std::alloc::Global;
use std::marker::Model;

/// The greatest number of a step.
pub const MOST_STEP: u32 = MOST_HARTS as u32 - 1;

/// The most steps of an input.
pub const MOST_STEPS: usize = 100_000;

/// The most instruction words of an input.
pub const MOST_WORDS: usize = 16_384;

/// What an input of `words` says: how many harts there are (1 to `MOST_HARTS`), the hart of each step (0 to
/// `MOST_STEP`, which may be no hart of the machine), and the instruction words.
#[derive(Drop)]
pub struct Input {
    pub harts: u8,
    pub steps: Vec<u8>,
    pub words: Vec<u32>,
}

impl Model for Input {
    ghost use Rattle.rv_words.specs.WordsInput.{WordsInput};

    ghost Value = { WordsInput };

    ghost view = { λ i. record { harts = i.harts; steps = i.steps.items; words = i.words.items } };
}

/// What follows the prefix in a text that begins with it.
fn after<'a>(prefix: &[u8], text: &'a [u8]) -> Option<&'a [u8]>
    ensures { option_copied result ≡ spec.after prefix.now text.now }
{
    text.strip_prefix(prefix)
}

/// How many harts the line `harts N` says.
#[tactic(auto, unfolding(crate::specs::HartsLine::harts_of))]
fn read_harts(line: &[u8]) -> Option<u8>
    ensures value { result ≡ harts_of line.now }
    ensures limits { IfSome result (λ harts. (1 ≤ harts) × (harts ≤ MOST_HARTS)) }
{
    let harts = read_decimal(after(b"harts ", line)?, u32::from(MOST_HARTS))?;
    if harts == 0 { None } else { Some(harts as u8) }
}

/// The numbers of steps, with a blank between two of them.
fn read_numbers(alloc: Global, text: &[u8]) -> Result<Vec<u8>, WordsFault>
    ensures ok { IfOk result (λ steps. step_list_of text.now ≡ Some steps.items) }
    ensures few { IfOk result (λ steps. vec_len steps ≤ MOST_STEPS) }
    ensures err { IfErr result (IsFaultOf (told_at 2 (step_list_of text.now))) }
{
    let mut numbers = Pieces::of(text, b' ');
    let mut steps = Vec::new(alloc);
    while let Some(number) = numbers.next_piece() {
        if steps.len() == MOST_STEPS {
            return Err(WordsFault::Line(2));
        }
        let step = read_decimal(number, MOST_STEP).ok_or(WordsFault::Line(2))?;
        steps.push(step as u8)?;
    }
    Ok(steps)
}

/// The steps that the line `steps` says.
#[tactic(auto, unfolding(crate::specs::StepsLine::steps_of))]
fn read_steps(alloc: Global, line: &[u8]) -> Result<Vec<u8>, WordsFault>
    ensures ok { IfOk result (λ steps. steps_of line.now ≡ Some steps.items) }
    ensures few { IfOk result (λ steps. vec_len steps ≤ MOST_STEPS) }
    ensures err { IfErr result (IsFaultOf (told_at 2 (steps_of line.now))) }
{
    match after(b"steps", line).ok_or(WordsFault::Line(2))? {
        [] => Ok(Vec::new(alloc)),
        [b' ', numbers @ ..] => read_numbers(alloc, numbers),
        _ => Err(WordsFault::Line(2)),
    }
}

/// The instruction words of the lines, the first of which is line 3.
fn read_words(alloc: Global, lines: &mut Lines<'_>) -> Result<Vec<u32>, WordsFault>
    ensures ok { IfOk result (λ words. words_from 3 lines.old ≡ Ok words.items) }
    ensures few { IfOk result (λ words. vec_len words ≤ MOST_WORDS) }
    ensures err { IfErr result (IsFaultOf (words_from 3 lines.old)) }
{
    let mut words = Vec::new(alloc);
    while let Some(line) = lines.next_line() {
        let fault = WordsFault::Line(3 + words.len() as u32);
        if words.len() == MOST_WORDS {
            return Err(fault);
        }
        words.push(read_word(line).ok_or(fault)?)?;
    }
    Ok(words)
}

/// What the text of an input says. The fault is the first malformed line, or that memory is out.
#[tactic(auto, unfolding(crate::specs::WordsInput::input_of))]
pub fn read_input(alloc: Global, text: &[u8]) -> Result<Input, WordsFault>
    ensures ok { IfOk result (λ input. input_of text.now ≡ Ok input) }
    ensures limits { IfOk result IsInLimits }
    ensures err { IfErr result (IsFaultOf (input_of text.now)) }
{
    let mut lines = Lines::of(text);
    let harts = lines
        .next_line()
        .and_then(read_harts)
        .ok_or(WordsFault::Line(1))?;
    let steps = read_steps(alloc, lines.next_line().ok_or(WordsFault::Line(2))?)?;
    let words = read_words(alloc, &mut lines)?;
    Ok(Input {
        harts,
        steps,
        words,
    })
}
