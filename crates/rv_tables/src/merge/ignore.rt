//! Lists of races that are to be ignored. `specs/merge/Ignore.antt` has what they say.
//!
//! A list and an image may both be long. So the words of a list have numbers, and one pass over the symbols of the image
//! finds those of every name.
ghost use Rattle.std.specs.Prelude.{◌≡◌, ◌≤◌, ◌&&◌, ◌||◌, ◌++◌, ◌∷◌, Bool, false, true, None, Some, Ok, Err, IfOk, IfErr, IfSome, OnOk, [], is_some, length, filter, drop, slice_get, map, option_map};
ghost use Rattle.std.specs.List.{AllZip};
ghost use Rattle.std.specs.Option.{option_copied};
ghost use Rattle.rv_tables.specs.declared.merge.ignore.Line.{Line};
ghost use Rattle.rv_memory.specs.Flagged as flag;
ghost use Rattle.rv_text.specs.Pieces.{pieces_of};
ghost use Rattle.rv_tables.specs.merge.FileFault.{IsTold, fails_by, is_read, is_write, told_ignore};
ghost use Rattle.rv_tables.specs.internal.Shaped as shape;
ghost use Rattle.rv_tables.specs.internal.Sought as by_number;
ghost use Rattle.rv_tables.specs.internal.Words as numbers;
ghost use Rattle.rv_tables.specs.merge.Ignore as spec;

use crate::merge::fault::{FileFault, IgnoreFault, IgnoreKind};
use crate::merge::sought::{
    Instruction, RacePlaces, SoughtLine, SoughtSide, any_fits, first_unknown,
};
use crate::merge::words::{
    NamedSymbol, Words, begins_comment, instruction_marks, mark_lines, marks_at, marks_of,
    named_symbols,
};
use rv_elf::Image;
use rv_lines::lines::SourceLines;
use rv_memory::flagged::{Flagged, INPUT_LIMIT, read_whole};
use rv_memory::store::NoMemory;
use rv_report::key::Key;
use rv_symbols::symbol_table::SymbolTable;
use rv_text::hexadecimal::read_word;
use rv_text::pieces::Pieces;
use std::alloc::Global;
use std::io::Read;
use std::marker::Model;

/// The most bytes of a word. No symbol that a tool has made has a longer name, and each race costs the longest word.
pub const LONGEST_WORD: usize = 65_536;

/// The name of a symbol, as `explain` shows it.
#[derive(Drop)]
pub struct SymbolName {
    bytes: Vec<u8>,
}

impl Model for SymbolName {
    ghost use Rattle.std.specs.Prelude.{List, ℕ};

    ghost Value = { List ℕ };

    ghost view = { λ n. n.bytes.items };
}

/// A side of a race as a line says it: any instruction, the one at an address, or one in a symbol of a name. The same of its data.
#[derive(Drop)]
pub enum Side {
    Any,
    Address(u32),
    Name(SymbolName),
}

/// The two sides that a line says, and the data.
#[derive(Drop)]
pub struct Line {
    pub one: Side,
    pub other: Side,
    pub on: Side,
}

/// The words of a line that say something: those of its two sides, and that of the data.
#[derive(Clone, Copy)]
struct SaidWords<'a> {
    one: &'a [u8],
    other: &'a [u8],
    on: &'a [u8],
}

/// A line of a list, and its number in the file.
#[derive(Drop)]
pub struct ListedLine {
    at: u64,
    line: Line,
}

/// Lines of races that are to be ignored.
#[derive(Drop)]
pub struct Ignores {
    lines: Vec<ListedLine>,
}

impl Model for Ignores {
    ghost use Rattle.std.specs.Prelude.{List, map};
    ghost use Rattle.rv_tables.specs.declared.merge.ignore.Line.{Line};
    ghost use Rattle.rv_tables.specs.declared.merge.ignore.ListedLine.{ListedLine};

    ghost Value = { List Line };

    ghost view = { λ i. map (λ (l : ListedLine). l.line) i.lines.items };
}

/// The words of a list by numbers, its lines in terms of these, and the symbols of an image that have them for names.
#[derive(Drop)]
pub struct Names<'a> {
    words: Words<'a>,
    lines: Vec<SoughtLine>,
    symbols: Vec<NamedSymbol>,
}

impl SymbolName {
    fn new(alloc: Global, word: &[u8]) -> Result<SymbolName, NoMemory>
        ensures { IfOk result (λ name. name ≡ word.now) }
    {
        let mut bytes = Vec::new(alloc);
        bytes.extend_from_slice(word)?;
        Ok(SymbolName { bytes })
    }

    fn word(&self) -> &[u8]
        ensures { result.now ≡ self.now }
    {
        &self.bytes
    }
}

impl Side {
    /// The side that a word says.
    fn of(alloc: Global, word: &[u8]) -> Result<Side, NoMemory>
        ensures { IfOk result (λ side. side ≡ spec.side_of word.now) }
    {
        if word == b"*".as_slice() {
            return Ok(Side::Any);
        }
        match read_word(word) {
            Some(address) => Ok(Side::Address(address)),
            None => Ok(Side::Name(SymbolName::new(alloc, word)?)),
        }
    }

    /// The side by the number of its word.
    fn sought<'a>(&'a self, words: &mut Words<'a>) -> Result<SoughtSide, NoMemory>
        requires { numbers.AreNumbered words.old }
        ensures numbered { OnOk result (numbers.AreNumbered words.new) }
        ensures is { IfOk result (λ side. by_number.sought_side words.new self.now ≡ Some side) }
        ensures kept { OnOk result (numbers.Keeps words.old words.new) }
    {
        match self {
            Side::Any => Ok(SoughtSide::Any),
            Side::Address(address) => Ok(SoughtSide::Address(*address)),
            Side::Name(name) => Ok(SoughtSide::Word(words.number(name.word())?)),
        }
    }
}

impl Line {
    fn of(alloc: Global, said: SaidWords<'_>) -> Result<Line, NoMemory>
        ensures { IfOk result (λ line. line ≡ spec.sides_of (shape.said_by said.entry)) }
    {
        let one = Side::of(alloc, said.one)?;
        let other = Side::of(alloc, said.other)?;
        let on = Side::of(alloc, said.on)?;
        Ok(Line { one, other, on })
    }
}

impl ListedLine {
    /// The line by the numbers of its words.
    fn sought<'a>(&'a self, words: &mut Words<'a>) -> Result<SoughtLine, NoMemory>
        requires { numbers.AreNumbered words.old }
        ensures numbered { OnOk result (numbers.AreNumbered words.new) }
        ensures is { IfOk result (λ line. by_number.IsSought words.new self.now line) }
        ensures kept { OnOk result (numbers.Keeps words.old words.new) }
    {
        let one = self.line.one.sought(words)?;
        let other = self.line.other.sought(words)?;
        let on = self.line.on.sought(words)?;
        let at = self.at;
        Ok(SoughtLine { at, one, other, on })
    }
}

/// The lines by the numbers of their words, each of which gets one.
fn sought_lines<'a>(
    alloc: Global,
    words: &mut Words<'a>,
    lines: &'a [ListedLine],
) -> Result<Vec<SoughtLine>, NoMemory>
    requires { numbers.AreNumbered words.old }
    ensures numbered { OnOk result (numbers.AreNumbered words.new) }
    ensures are { IfOk result (λ sought. AllZip (by_number.IsSought words.new) lines.now sought.items) }
{
    let mut sought = Vec::new(alloc);
    for line in lines {
        sought.push(line.sought(words)?)?;
    }
    Ok(sought)
}

impl<'a> Names<'a> {
    /// The names that these lines say, of this image.
    fn of(alloc: Global, image: &Image, lines: &'a [ListedLine]) -> Result<Names<'a>, NoMemory>
        ensures { IfOk result (λ names. by_number.AreNames names image.now lines.now) }
    {
        let mut words = Words::new(alloc);
        let lines = sought_lines(alloc, &mut words, lines)?;
        let symbols = named_symbols(alloc, &words, image)?;
        Ok(Names {
            words,
            lines,
            symbols,
        })
    }

    /// A place in data, or one that is not known, with the names there.
    fn data(
        &self,
        alloc: Global,
        symbols: &SymbolTable,
        at: Option<u32>,
    ) -> Result<Instruction, NoMemory>
        requires { by_number.AreNamesOf self.now symbols.now.image }
        ensures { IfOk result (λ place. by_number.IsData self.now symbols.now.image at place) }
    {
        let marks = marks_at(alloc, &self.words, &self.symbols, symbols, at)?;
        Ok(Instruction { at, marks })
    }

    /// An instruction, or one that is not known, with the names there.
    fn instruction(
        &self,
        alloc: Global,
        symbols: &SymbolTable,
        at: Option<u32>,
    ) -> Result<Instruction, NoMemory>
        requires { by_number.AreNamesOf self.now symbols.now.image }
        ensures { IfOk result (λ instruction. by_number.IsInstruction self.now symbols.now at instruction) }
    {
        let marks = instruction_marks(alloc, &self.words, &self.symbols, symbols, at)?;
        Ok(Instruction { at, marks })
    }

    /// The places of a race, with the names there.
    fn places(
        &self,
        alloc: Global,
        symbols: &SymbolTable,
        key: &Key,
        on: Option<u32>,
    ) -> Result<RacePlaces, NoMemory>
        requires { by_number.AreNamesOf self.now symbols.now.image }
        ensures { IfOk result (λ places. by_number.ArePlaces self.now symbols.now key.now on places) }
    {
        let first = self.instruction(alloc, symbols, Some(key.first))?;
        let second = self.instruction(alloc, symbols, key.second)?;
        let on = self.data(alloc, symbols, on)?;
        Ok(RacePlaces { first, second, on })
    }
}

impl Ignores {
    /// No line.
    pub fn none(alloc: Global) -> Ignores
        ensures { result ≡ [] }
    {
        Ignores {
            lines: Vec::new(alloc),
        }
    }

    /// The names that the lines say, which are looked for once for all races.
    pub fn names<'a>(&'a self, alloc: Global, image: &Image) -> Result<Names<'a>, NoMemory>
        ensures { IfOk result (λ names. by_number.AreTheNames names image.now self.now) }
    {
        Names::of(alloc, image, &self.lines)
    }

    /// Whether a line fits a race of this data.
    pub fn fits(
        &self,
        alloc: Global,
        symbols: &SymbolTable,
        names: &Names,
        key: &Key,
        on: Option<u32>,
    ) -> Result<bool, NoMemory>
        requires { by_number.AreTheNames names.now symbols.now.image self.now }
        ensures { IfOk result (λ fits. fits ≡ spec.any_fits symbols.now self.now key.now on) }
    {
        let places = names.places(alloc, symbols, key, on)?;
        Ok(any_fits(&names.lines, &places))
    }

    /// The number of the first line with a name that no symbol of the image and no source line has.
    pub fn unknown(
        &self,
        alloc: Global,
        image: &Image,
        source: &Option<SourceLines>,
    ) -> Result<Option<u64>, NoMemory>
        ensures { IfOk result (λ line. is_some line ≡ spec.has_unknown (spec.naming_of image.now source.now) self.now) }
    {
        unknown_in(alloc, image, source, &self.lines)
    }
}

/// The number of the first line with a name that no symbol of the image and no source line has.
fn unknown_in(
    alloc: Global,
    image: &Image,
    source: &Option<SourceLines>,
    lines: &[ListedLine],
) -> Result<Option<u64>, NoMemory>
    ensures { IfOk result (λ line. line ≡ shape.unknown_in (spec.are_known (spec.naming_of image.now source.now)) lines.now) }
{
    let names = Names::of(alloc, image, lines)?;
    let mut known = marks_of(alloc, names.words.count(), &names.symbols)?;
    mark_lines(alloc, &names.words, source, &mut known)?;
    Ok(first_unknown(&names.lines, &known))
}

/// The line without the CR of a line end of two bytes.
fn without_return(line: &[u8]) -> &[u8]
    ensures { result.now ≡ spec.without_return line.now }
{
    let last = line.len().saturating_sub(1);
    match line.get(last) {
        Some(byte) if *byte == b'\r' => &line[..last],
        _ => line,
    }
}

/// Takes the next word.
fn next_word<'a>(pieces: &mut Pieces<'a>) -> Option<&'a [u8]>
    ensures first { option_copied result ≡ slice_get (filter spec.has_bytes pieces.old) 0 }
    ensures rest { filter spec.has_bytes pieces.new ≡ drop 1 (filter spec.has_bytes pieces.old) }
{
    while let Some(word) = pieces.next_piece() {
        if !word.is_empty() {
            return Some(word);
        }
    }
    None
}

fn is_short(word: &[u8]) -> bool
    ensures { result ≡ spec.is_short word.now }
{
    word.len() <= LONGEST_WORD
}

/// Takes the next word, unless it begins a comment.
#[tactic(auto, using(crate::proofs::SaidLemmas::none_said, crate::proofs::SaidLemmas::comment_said, crate::proofs::SaidLemmas::word_said))]
fn next_said<'a>(pieces: &mut Pieces<'a>) -> Option<&'a [u8]>
    ensures none { result ≡ None → spec.said_words pieces.old ≡ [] }
    ensures some { IfSome result (λ word. spec.said_words pieces.old ≡ word.now ∷ spec.said_words pieces.new) }
{
    let word = next_word(pieces)?;
    if begins_comment(word) {
        None
    } else {
        Some(word)
    }
}

/// The words, where none is too long.
fn said_if(is_line: bool, said: SaidWords<'_>) -> Result<Option<SaidWords<'_>>, IgnoreKind>
    ensures ok { IfOk result (λ found. spec.said_if (is_line && spec.are_short (shape.said_by said.entry)) (shape.said_by said.entry) ≡ Ok (option_map shape.said_by found)) }
    ensures err { IfErr result (λ kind. spec.said_if (is_line && spec.are_short (shape.said_by said.entry)) (shape.said_by said.entry) ≡ Err kind) }
{
    if is_line && is_short(said.one) && is_short(said.other) && is_short(said.on) {
        Ok(Some(said))
    } else {
        Err(IgnoreKind::Shape)
    }
}

/// The words of the data behind those of two sides, or the one that means any.
fn data_words<'a>(
    words: &mut Pieces<'a>,
    one: &'a [u8],
    other: &'a [u8],
) -> Result<Option<SaidWords<'a>>, IgnoreKind>
    ensures ok { IfOk result (λ found. spec.words_in (one.entry.now ∷ other.entry.now ∷ spec.said_words words.old) ≡ Ok (option_map shape.said_by found)) }
    ensures err { IfErr result (λ kind. spec.words_in (one.entry.now ∷ other.entry.now ∷ spec.said_words words.old) ≡ Err kind) }
{
    let Some(word) = next_said(words) else {
        let on = b"*".as_slice();
        return said_if(true, SaidWords { one, other, on });
    };
    let Some(on) = next_said(words) else {
        return Err(IgnoreKind::Shape);
    };
    if next_said(words).is_some() {
        return Err(IgnoreKind::Shape);
    }
    said_if(word == b"on".as_slice(), SaidWords { one, other, on })
}

/// The words of a line, or none where it has no words.
fn words_of(line: &[u8]) -> Result<Option<SaidWords<'_>>, IgnoreKind>
    ensures ok { IfOk result (λ found. spec.words_in (spec.words_of line.now) ≡ Ok (option_map shape.said_by found)) }
    ensures err { IfErr result (λ kind. spec.words_in (spec.words_of line.now) ≡ Err kind) }
{
    let mut words = Pieces::of(without_return(line), b' ');
    let Some(one) = next_said(&mut words) else {
        return Ok(None);
    };
    let Some(other) = next_said(&mut words) else {
        return Err(IgnoreKind::Shape);
    };
    data_words(&mut words, one, other)
}

/// The lines of a text up to the first that has not the shape of a line, and its fault.
#[derive(Drop)]
struct Shaped {
    lines: Vec<ListedLine>,
    fault: Option<IgnoreFault>,
}

/// Adds the line of these words, where there are some.
fn add_line(
    alloc: Global,
    lines: &mut Vec<ListedLine>,
    at: u64,
    words: Option<SaidWords<'_>>,
) -> Result<(), NoMemory>
    ensures { OnOk result (lines.new.items ≡ lines.old.items ++ shape.listed_at at (option_map shape.said_by words.entry)) }
{
    if let Some(said) = words {
        let line = Line::of(alloc, said)?;
        lines.push(ListedLine { at, line })?;
    }
    Ok(())
}

/// The line of two sides that are aimed at, where the image has their names.
pub fn aimed(alloc: Global, image: &Image, one: &[u8], other: &[u8]) -> Result<Ignores, FileFault>
    ensures ok { IfOk result (λ lines. spec.aimed_in image.now (Some (one.now, other.now)) ≡ Ok lines) }
    ensures err { IfErr result (IsTold (spec.aimed_in image.now (Some (one.now, other.now)))) }
    ensures reader { fails_by is_read result ≡ false }
    ensures writer { fails_by is_write result ≡ false }
{
    let mut lines = Vec::new(alloc);
    let on = b"*".as_slice();
    add_line(alloc, &mut lines, 1, Some(SaidWords { one, other, on }))?;
    match unknown_in(alloc, image, &None, &lines)? {
        Some(_) => Err(FileFault::Aim),
        None => Ok(Ignores { lines }),
    }
}

/// The lines of a text, whose names are not looked for yet.
fn shaped_lines(alloc: Global, text: &[u8]) -> Result<Shaped, NoMemory>
    requires { length text.now ≤ INPUT_LIMIT }
    ensures { IfOk result (λ shaped. (known : Line → Bool) → spec.lines_from known 1 (pieces_of 10 text.now)
        ≡ shape.judged known shaped.lines.items (shape.ended shaped.fault)) }
{
    let mut lines = Vec::new(alloc);
    let mut pieces = Pieces::of(text, b'\n');
    let mut line = 1_u64;
    while let Some(text) = pieces.next_piece() {
        match words_of(text) {
            Ok(words) => add_line(alloc, &mut lines, line, words)?,
            Err(kind) => {
                let fault = Some(IgnoreFault { line, kind });
                return Ok(Shaped { lines, fault });
            }
        }
        line += 1;
    }
    Ok(Shaped { lines, fault: None })
}

/// What the lines of a text say.
fn read_lines(
    alloc: Global,
    image: &Image,
    source: &Option<SourceLines>,
    text: &[u8],
) -> Result<Ignores, FileFault>
    requires { length text.now ≤ INPUT_LIMIT }
    ensures ok { IfOk result (λ lines. spec.lines_from (spec.are_known (spec.naming_of image.now source.now)) 1 (pieces_of 10 text.now) ≡ Ok lines) }
    ensures err { IfErr result (IsTold (told_ignore (spec.lines_from (spec.are_known (spec.naming_of image.now source.now)) 1 (pieces_of 10 text.now)))) }
    ensures reader { fails_by is_read result ≡ false }
    ensures writer { fails_by is_write result ≡ false }
{
    let Shaped { lines, fault } = shaped_lines(alloc, text)?;
    if let Some(line) = unknown_in(alloc, image, source, &lines)? {
        let kind = IgnoreKind::Unknown;
        return Err(FileFault::Ignore(IgnoreFault { line, kind }));
    }
    match fault {
        Some(fault) => Err(FileFault::Ignore(fault)),
        None => Ok(Ignores { lines }),
    }
}

/// Reads a list of races that are to be ignored. The image is the one that is hunted, and the source lines are those that are given.
#[tactic(auto, unfolding(crate::specs::merge::Ignore::ignores_of))]
pub fn read_ignores<R: Read>(
    alloc: Global,
    image: &Image,
    source: &Option<SourceLines>,
    reader: &mut Flagged<R>,
) -> Result<Ignores, FileFault>
    ensures ok { IfOk result (λ lines. IfSome (R.remaining (flag.device reader.old)) (λ bytes.
        spec.ignores_of (spec.naming_of image.now source.now) bytes ≡ Ok lines)) }
    ensures err { IfErr result (λ fault. IfSome (R.remaining (flag.device reader.old)) (λ bytes.
        IsTold (spec.ignores_of (spec.naming_of image.now source.now) bytes) fault)) }
    ensures reader { flag.has_failed reader.new ≡ (flag.has_failed reader.old || fails_by is_read result) }
    ensures writer { fails_by is_write result ≡ false }
{
    let bytes = read_whole(alloc, reader, INPUT_LIMIT)?;
    read_lines(alloc, image, source, &bytes)
}

/// What the lines of a text say, whatever names the image has.
pub(crate) fn lines_of(alloc: Global, text: &[u8]) -> Result<Ignores, FileFault>
    requires { length text.now ≤ INPUT_LIMIT }
    ensures ok { IfOk result (λ lines. spec.lines_from (λ line. true) 1 (pieces_of 10 text.now) ≡ Ok lines) }
    ensures err { IfErr result (IsTold (told_ignore (spec.lines_from (λ line. true) 1 (pieces_of 10 text.now)))) }
    ensures reader { fails_by is_read result ≡ false }
    ensures writer { fails_by is_write result ≡ false }
{
    let Shaped { lines, fault } = shaped_lines(alloc, text)?;
    match fault {
        Some(fault) => Err(FileFault::Ignore(fault)),
        None => Ok(Ignores { lines }),
    }
}
