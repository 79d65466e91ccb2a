//! What the first word of a statement names.
ghost use Rattle.std.specs.Prelude.{◌≡◌};
ghost use Rattle.rv_asm.specs.Keyword as spec;

use crate::reading::mnemonic::{Mnemonic, mnemonic_named};
use crate::reading::text::is_name;
use crate::statement::AsmKind;

/// The statements that stand for instructions of other names.
#[derive(Clone, Copy)]
pub enum Pseudo {
    Nop,
    Mv,
    J,
    Ret,
    Li,
    La,
}

#[derive(Clone, Copy)]
pub enum Directive {
    Text,
    Data,
    Word,
    Byte,
    Zero,
    Globl,
    Global,
}

/// What the first word of a statement names.
#[derive(Clone, Copy)]
pub enum Keyword {
    Instr(Mnemonic),
    Pseudo(Pseudo),
    Directive(Directive),
}

pub const PSEUDOS: [Pseudo; 6] = [
    Pseudo::Nop,
    Pseudo::Mv,
    Pseudo::J,
    Pseudo::Ret,
    Pseudo::Li,
    Pseudo::La,
];

pub const DIRECTIVES: [Directive; 7] = [
    Directive::Text,
    Directive::Data,
    Directive::Word,
    Directive::Byte,
    Directive::Zero,
    Directive::Globl,
    Directive::Global,
];

fn pseudo_name(pseudo: Pseudo) -> &'static [u8]
    ensures { result.now ≡ spec.pseudo_name pseudo }
{
    match pseudo {
        Pseudo::Nop => b"nop",
        Pseudo::Mv => b"mv",
        Pseudo::J => b"j",
        Pseudo::Ret => b"ret",
        Pseudo::Li => b"li",
        Pseudo::La => b"la",
    }
}

fn directive_name(directive: Directive) -> &'static [u8]
    ensures { result.now ≡ spec.directive_name directive }
{
    match directive {
        Directive::Text => b".text",
        Directive::Data => b".data",
        Directive::Word => b".word",
        Directive::Byte => b".byte",
        Directive::Zero => b".zero",
        Directive::Globl => b".globl",
        Directive::Global => b".global",
    }
}

fn pseudo_named(text: &[u8]) -> Option<Pseudo>
    ensures { result ≡ spec.pseudo_named text.now }
{
    PSEUDOS
        .iter()
        .copied()
        .find(|pseudo| pseudo_name(*pseudo) == text)
}

fn directive_named(text: &[u8]) -> Option<Directive>
    ensures { result ≡ spec.directive_named text.now }
{
    DIRECTIVES
        .iter()
        .copied()
        .find(|directive| directive_name(*directive) == text)
}

/// Why a word that names nothing is refused.
fn unknown(text: &[u8]) -> AsmKind
    ensures { result ≡ spec.unknown text.now }
{
    if text.starts_with(b".") && is_name(text) {
        AsmKind::Directive
    } else {
        AsmKind::Word
    }
}

/// What the first word of a statement names, or why it names nothing.
#[tactic(auto, unfolding(crate::specs::Keyword::keyword_of))]
pub(crate) fn keyword_of(text: &[u8]) -> Result<Keyword, AsmKind>
    ensures { result ≡ spec.keyword_of text.now }
{
    if let Some(mnemonic) = mnemonic_named(text) {
        return Ok(Keyword::Instr(mnemonic));
    }
    if let Some(pseudo) = pseudo_named(text) {
        return Ok(Keyword::Pseudo(pseudo));
    }
    match directive_named(text) {
        Some(directive) => Ok(Keyword::Directive(directive)),
        None => Err(unknown(text)),
    }
}
