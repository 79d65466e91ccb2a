//! The option `--color`, which every command takes, anywhere before `--`. It is taken away before the rest of the line is read.
ghost use Rattle.std.specs.Prelude.{◌≡◌, ◌∷◌, ◌++◌, [], List, IfErr, IfOk, MatchResult, Ok, Err};
ghost use Rattle.clap.specs.Words.{Text};
ghost use Rattle.rv_command.specs.Color as spec;
ghost use Rattle.rv_command.specs.Command.{texts};
ghost use Rattle.rv_command.specs.internal.Colors.{line_with};

use std::alloc::Global;

/// When classes, errors and warnings have colours.
#[derive(Clone, Copy)]
pub enum Color {
    /// Where a terminal shows them, and its user wants them.
    Auto,
    Always,
    Never,
}

/// The words of a line without the option, and what it says.
#[derive(Drop)]
pub struct ColorLine<'a> {
    pub color: Color,
    pub words: Vec<&'a str>,
}

/// Why a line has none.
#[derive(Clone, Copy)]
pub enum ColorFault<'a> {
    /// The value is none of the words.
    Value(&'a str),
    NoMemory,
}

/// What a word may be.
#[derive(Clone, Copy)]
enum Place {
    /// A word, or the option.
    Any,
    /// The option's value.
    Value,
    /// A word behind `--`.
    Behind,
}

fn color_in<'a>(value: &'a str) -> Result<Color, ColorFault<'a>>
    ensures { MatchResult result (λ color. spec.color_of value.now ≡ Ok color)
        (λ fault. (fault ≡ ColorFault.Value value.entry) × (spec.color_of value.now ≡ Err value.now)) }
{
    match value {
        "auto" => Ok(Color::Auto),
        "always" => Ok(Color::Always),
        "never" => Ok(Color::Never),
        _ => Err(ColorFault::Value(value)),
    }
}

impl<'a> ColorLine<'a> {
    fn push(&mut self, word: &'a str) -> Result<(), ColorFault<'a>>
        ensures words { IfOk result (λ done. self.new.words.items ≡ self.old.words.items ++ word.entry ∷ []) }
        ensures color { self.new.color ≡ self.old.color }
        ensures fault { IfErr result (λ fault. fault ≡ ColorFault.NoMemory) }
    {
        self.words.push(word).map_err(|_| ColorFault::NoMemory)
    }

    /// Takes a word that is no value of the option, and gives what the next one may be.
    fn take(&mut self, word: &'a str) -> Result<Place, ColorFault<'a>>
        ensures { (rest : List Text) → MatchResult result
            (λ place. line_with self.new place rest ≡ line_with self.old Place.Any (word.now ∷ rest))
            (λ fault. spec.IsRefused fault (line_with self.old Place.Any (word.now ∷ rest))) }
    {
        if word == "--color" {
            return Ok(Place::Value);
        }
        if let Some(value) = word.strip_prefix("--color=") {
            self.color = color_in(value)?;
            return Ok(Place::Any);
        }
        self.push(word)?;
        if word == "--" {
            Ok(Place::Behind)
        } else {
            Ok(Place::Any)
        }
    }
}

/// What a line says of colours, the last option where there are several, and its other words.
pub fn color_line<'a>(alloc: Global, words: &[&'a str]) -> Result<ColorLine<'a>, ColorFault<'a>>
    ensures { MatchResult result
        (λ line. spec.colored Color.Auto (texts words.now) ≡ Ok (line.color, texts line.words.items))
        (λ fault. spec.IsRefused fault (spec.colored Color.Auto (texts words.now))) }
{
    let mut line = ColorLine {
        color: Color::Auto,
        words: Vec::new(alloc),
    };
    let mut place = Place::Any;
    for word in words {
        place = match place {
            Place::Any => line.take(*word)?,
            Place::Value => {
                line.color = color_in(*word)?;
                Place::Any
            }
            Place::Behind => {
                line.push(*word)?;
                Place::Behind
            }
        };
    }
    match place {
        Place::Value => Err(ColorFault::Value("")),
        Place::Any | Place::Behind => Ok(line),
    }
}
