//! Lines.
ghost use Rattle.std.specs.Prelude.{◌≡◌};
ghost use Rattle.std.specs.List.{list_all};
ghost use Rattle.std.specs.Option.{option_copied};
ghost use Rattle.std.specs.Char.{is_ascii};
ghost use Rattle.rv_asm.specs.SourceLine as spec;

use crate::reading::keyword::keyword_of;
use crate::reading::statements::statement_of;
use crate::reading::text::{Stop, cut, trimmed};
use crate::statement::{AsmKind, Line, Name, Section, Statement};

pub(crate) fn is_ascii(text: &[u8]) -> bool
    ensures { result ≡ list_all is_ascii text.now }
{
    text.iter().all(|byte| byte.is_ascii())
}

/// The statement in a text without comment, label and blanks before it.
fn statement_in(section: Section, text: &[u8]) -> Result<Option<Statement<'_>>, AsmKind>
    ensures { result ≡ spec.statement_in section text.now }
{
    if text.is_empty() {
        return Ok(None);
    }
    if !is_ascii(text) {
        return Err(AsmKind::Word);
    }
    let (word, rest) = cut(text, Stop::Blank);
    let keyword = keyword_of(word)?;
    let statement = statement_of(keyword, section, trimmed(rest))?;
    Ok(Some(statement))
}

/// The text without a comment and the blanks that it begins with.
pub(crate) fn uncommented(text: &[u8]) -> &[u8]
    ensures { result.now ≡ spec.uncommented text.now }
{
    trimmed(cut(text, Stop::Comment).0)
}

/// What follows the colon of a label.
pub(crate) fn after_colon(text: &[u8]) -> Option<&[u8]>
    ensures { option_copied result ≡ spec.after_colon text.now }
{
    match text {
        [b':', rest @ ..] => Some(trimmed(rest)),
        _ => None,
    }
}

fn unlabelled(section: Section, text: &[u8]) -> Line<'_>
    ensures { result ≡ spec.unlabelled section text.now }
{
    Line {
        label: None,
        statement: statement_in(section, text),
    }
}

/// The line in a text without comment and without blanks before it.
fn line_in(section: Section, text: &[u8]) -> Line<'_>
    ensures { result ≡ spec.line_in section text.now }
{
    let (name, rest) = cut(text, Stop::NameEnd);
    let Some(rest) = after_colon(rest) else {
        return unlabelled(section, text);
    };
    match Name::new(name) {
        Some(label) => Line {
            label: Some(label),
            statement: statement_in(section, rest),
        },
        None => unlabelled(section, text),
    }
}

/// What a line says in a section. The line has no LF.
pub(crate) fn read_line(section: Section, text: &[u8]) -> Line<'_>
    ensures { result ≡ spec.line_said section text.now }
{
    line_in(section, uncommented(text))
}
