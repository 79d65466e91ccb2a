//! What a hunt's text tells of its command line.
use crate::hunting::slots_of;
use crate::paths::{expect_path, ignore_path};
use rv_command::arguments::{Aim, FolderPath, ImagePath};
use rv_command::command::VERSION;
use rv_command::command::hunt::{DEFAULT_SEED, HuntLine};
use rv_faults::shown::Shown;
use rv_plans::plans::Lengths;
use rv_shown::options::{LineParts, SaidOptions};
use std::alloc::{AllocError, Global};

/// Parts of a line, as messages show them.
#[derive(Drop)]
pub struct ShownLine<'a> {
    command: String,
    image: String,
    nested_image: String,
    options: String,
    folder: Option<String>,
    given: String,
    path: &'a str,
    said: SaidOptions<'a>,
}

/// Options of the line that other programs are told.
fn said_of<'a>(line: &HuntLine<'a>) -> SaidOptions<'a> {
    SaidOptions {
        harts: line.harts,
        slots: line.slots.unwrap_or(slots_of(line)),
        lengths: line.lengths,
        ignore: ignore_path(line.ignore),
        expect: expect_path(line.expect),
    }
}

impl<'a> ShownLine<'a> {
    pub fn of(
        alloc: Global,
        words: &[&str],
        image: ImagePath<'a>,
        line: &HuntLine<'a>,
    ) -> Result<ShownLine<'a>, AllocError> {
        Ok(ShownLine {
            command: command_of(alloc, words)?,
            image: shell_word(alloc, image.0)?,
            nested_image: nested(alloc, image.0)?,
            options: options_of(alloc, line)?,
            folder: folder_of(alloc, line.save_to)?,
            given: given_of(alloc, line)?,
            path: image.0,
            said: said_of(line),
        })
    }

    /// The parts.
    pub fn parts(&self) -> LineParts<'_> {
        LineParts {
            command: self.command.as_str(),
            image: self.image.as_str(),
            nested_image: self.nested_image.as_str(),
            options: self.options.as_str(),
            folder: self.folder.as_deref(),
            version: VERSION,
            given: self.given.as_str(),
            path: self.path,
            said: self.said,
        }
    }
}

/// The whole line, with a blank between two words.
fn command_of(alloc: Global, words: &[&str]) -> Result<String, AllocError> {
    let mut text = String::from_str(alloc, "rvcollide")?;
    for word in words.iter().skip(1) {
        let shown = format!(in alloc; " {}", Shown(*word))?;
        text.push_str(shown.as_str())?;
    }
    Ok(text)
}

/// Whether a shell takes the character as it is.
fn is_plain(character: char) -> bool {
    character.is_ascii_alphanumeric() || "_@%+=:,./-".contains(character)
}

/// The text without single quotes: each ends the quotes, stands by itself, and begins them anew.
fn without_quotes(alloc: Global, text: &str) -> Result<String, AllocError> {
    let mut rest = String::new(alloc);
    for character in text.chars() {
        if character == '\'' {
            rest.push_str("'\\''")?;
        } else {
            rest.push(character)?;
        }
    }
    Ok(rest)
}

/// A text, as messages show it, that a shell takes as one word.
fn shell_word(alloc: Global, text: &str) -> Result<String, AllocError> {
    let shown = format!(in alloc; "{}", Shown(text))?;
    if !shown.is_empty() && shown.chars().all(is_plain) {
        return Ok(shown);
    }
    let inside = without_quotes(alloc, shown.as_str())?;
    format!(in alloc; "'{inside}'")
}

/// The same within the single quotes of another command.
fn nested(alloc: Global, text: &str) -> Result<String, AllocError> {
    let word = shell_word(alloc, text)?;
    without_quotes(alloc, word.as_str())
}

/// The folder within the quotes of another command, where one is given.
fn folder_of(alloc: Global, folder: Option<FolderPath<'_>>) -> Result<Option<String>, AllocError> {
    match folder {
        Some(path) => Ok(Some(nested(alloc, path.0)?)),
        None => Ok(None),
    }
}

/// Adds an option with a number, unless it has its default.
fn push_number(
    alloc: Global,
    text: &mut String,
    name: &str,
    number: u32,
    default: u32,
) -> Result<(), AllocError> {
    if number == default {
        return Ok(());
    }
    let option = format!(in alloc; " --{name} {number}")?;
    text.push_str(option.as_str())
}

/// Adds an option with a text, where it is given.
fn push_text(
    alloc: Global,
    text: &mut String,
    name: &str,
    value: Option<&str>,
) -> Result<(), AllocError> {
    let Some(value) = value else {
        return Ok(());
    };
    let word = shell_word(alloc, value)?;
    let option = format!(in alloc; " --{name} {word}")?;
    text.push_str(option.as_str())
}

/// Adds the lengths of the runs, where they are given.
fn push_lengths(
    alloc: Global,
    text: &mut String,
    lengths: Option<Lengths>,
) -> Result<(), AllocError> {
    let Some(of) = lengths else {
        return Ok(());
    };
    let option = format!(in alloc; " --plan {},{},{}", of.steps, of.arms, of.pause)?;
    text.push_str(option.as_str())
}

/// Adds the sides that are aimed at, where they are given.
fn push_aim(alloc: Global, text: &mut String, aim: Option<Aim<'_>>) -> Result<(), AllocError> {
    let Some(aim) = aim else {
        return Ok(());
    };
    let sides = format!(in alloc; "{},{}", aim.one, aim.other)?;
    push_text(alloc, text, "aim", Some(sides.as_str()))
}

/// The options that make the runs what they are, with a blank before each word.
fn options_of(alloc: Global, line: &HuntLine<'_>) -> Result<String, AllocError> {
    let mut text = String::new(alloc);
    push_number(
        alloc,
        &mut text,
        "harts",
        u32::from(line.harts.unwrap_or(0)),
        0,
    )?;
    push_number(alloc, &mut text, "seed", line.seed, DEFAULT_SEED)?;
    push_lengths(alloc, &mut text, line.lengths)?;
    push_number(
        alloc,
        &mut text,
        "slots",
        u32::from(line.slots.unwrap_or(0)),
        0,
    )?;
    if line.sampled {
        text.push_str(" --sampled")?;
    }
    push_aim(alloc, &mut text, line.aim)?;
    if line.no_orders {
        text.push_str(" --no-orders")?;
    }
    push_text(alloc, &mut text, "named", line.named)?;
    push_text(alloc, &mut text, "skip", line.skip)?;
    push_text(alloc, &mut text, "idle", line.idle)?;
    push_text(alloc, &mut text, "ignore", ignore_path(line.ignore))?;
    Ok(text)
}

/// Adds a word and a number behind it, where it is given.
fn push_given(
    alloc: Global,
    text: &mut String,
    name: &str,
    number: Option<u8>,
) -> Result<(), AllocError> {
    let Some(number) = number else {
        return Ok(());
    };
    let words = format!(in alloc; " {name} {number}")?;
    text.push_str(words.as_str())
}

/// Adds a word and a list behind it, as messages show it, where it is given.
fn push_list(
    alloc: Global,
    text: &mut String,
    name: &str,
    list: Option<&str>,
) -> Result<(), AllocError> {
    let Some(list) = list else {
        return Ok(());
    };
    let words = format!(in alloc; " {name} {}", Shown(list))?;
    text.push_str(words.as_str())
}

/// What was given of the runs, as a table's last line has it: a blank before each word.
fn given_of(alloc: Global, line: &HuntLine<'_>) -> Result<String, AllocError> {
    let mut text = String::new(alloc);
    push_given(alloc, &mut text, "harts", line.harts)?;
    if let Some(of) = line.lengths {
        let plan = format!(in alloc; " plan {},{},{}", of.steps, of.arms, of.pause)?;
        text.push_str(plan.as_str())?;
    }
    push_given(alloc, &mut text, "slots", line.slots)?;
    if line.sampled {
        text.push_str(" sampled")?;
    }
    push_list(alloc, &mut text, "skip", line.skip)?;
    push_list(alloc, &mut text, "named", line.named)?;
    if let Some(aim) = line.aim {
        let sides = format!(in alloc; "{},{}", aim.one, aim.other)?;
        push_list(alloc, &mut text, "aim", Some(sides.as_str()))?;
    }
    Ok(text)
}
