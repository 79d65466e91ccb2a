//! The words of an ignore list by numbers, so that one pass over the symbols of an image finds those of every name.
ghost use Rattle.std.specs.Prelude.{◌≡◌, ◌<◌, ◌++◌, Some, All, IfOk, IfSome, OnOk, length, filter, filter_map};
ghost use Rattle.std.specs.Option.{option_to_list};
ghost use Rattle.rv_tables.specs.merge.Ignore.{begins_comment, first_escaped, lines_of, says_other, spelled, spelled_field};
ghost use Rattle.rv_tables.specs.internal.Words as spec;
ghost use Rattle.rv_lines.specs.SourceLines.{frame_of};

use rv_elf::{Image, Symbol};
use rv_lines::frames::{Frame, Frames};
use rv_lines::lines::SourceLines;
use rv_memory::store::NoMemory;
use rv_symbols::escaped::{write_escaped, write_escaped_field};
use rv_symbols::symbol_table::SymbolTable;
use rv_text::hexadecimal::{byte_digits, read_word};
use std::alloc::{AllocError, Global};
use std::collections::BTreeMap;

/// A symbol whose name is the word of that number.
#[derive(Clone, Copy)]
pub(crate) struct NamedSymbol {
    pub(crate) word: usize,
    value: u32,
    size: u32,
}

impl NamedSymbol {
    fn holds(&self, address: u32) -> bool
        ensures { result ≡ spec.holds address self.now }
    {
        self.value <= address && u64::from(address) < u64::from(self.value) + u64::from(self.size)
    }
}

/// Words and their numbers, from 0 on in the order in which they came, and how many bytes the longest has.
#[derive(Drop)]
pub(crate) struct Words<'a> {
    numbers: BTreeMap<&'a [u8], usize>,
    longest: usize,
}

impl<'a> Words<'a> {
    /// No words.
    pub(crate) fn new(alloc: Global) -> Words<'a>
        ensures { spec.AreNumbered result }
    {
        Words {
            numbers: BTreeMap::new(alloc),
            longest: 0,
        }
    }

    /// How many there are.
    pub(crate) fn count(&self) -> usize
        ensures { result ≡ spec.count self.now }
    {
        self.numbers.len()
    }

    /// The number of a word, which gets the next one where it has none.
    pub(crate) fn number(&mut self, word: &'a [u8]) -> Result<usize, NoMemory>
        requires { spec.AreNumbered self.old }
        ensures numbered { OnOk result (spec.AreNumbered self.new) }
        ensures is { IfOk result (λ number. spec.number_of self.new word.now ≡ Some number) }
        ensures kept { OnOk result (spec.Keeps self.old self.new) }
    {
        if let Some(number) = self.numbers.get(word) {
            return Ok(*number);
        }
        let number = self.numbers.len();
        self.numbers.insert(word, number)?;
        self.longest = self.longest.max(word.len());
        Ok(number)
    }

    /// The number of the word that is the symbol's name. The text is room to write it in. A name that is longer than each
    /// word is not written, since there are names of megabytes.
    fn name_of(
        &self,
        alloc: Global,
        text: &mut Vec<u8>,
        symbol: &Symbol,
    ) -> Result<Option<usize>, NoMemory>
        requires { spec.AreNumbered self.now }
        ensures { IfOk result (λ word. word ≡ spec.number_of self.now (spelled symbol.now.name)) }
    {
        if symbol.name.len() > self.longest {
            return Ok(None);
        }
        write_spelled(alloc, text, symbol.name.as_bytes())?;
        Ok(self.numbers.get(text.as_slice()).copied())
    }

    /// The number of the word that is a frame's function, where that is known. The text is room to write it in.
    fn function_of(
        &self,
        alloc: Global,
        text: &mut Vec<u8>,
        frame: &Frame<'_>,
    ) -> Result<Option<usize>, NoMemory>
        requires { spec.AreNumbered self.now }
        ensures { IfOk result (λ word. word ≡ spec.function_word self.now (frame_of frame.now)) }
    {
        let Some(function) = frame.known_function() else {
            return Ok(None);
        };
        if function.len() > self.longest {
            return Ok(None);
        }
        write_spelled_field(alloc, text, function)?;
        Ok(self.numbers.get(text.as_slice()).copied())
    }
}

/// Whether a word begins a comment.
pub(crate) fn begins_comment(word: &[u8]) -> bool
    ensures { result ≡ begins_comment word.now }
{
    word.first() == Some(&b'#')
}

/// Whether a word says something else than a name.
fn says_other(word: &[u8]) -> bool
    ensures { result ≡ says_other word.now }
{
    begins_comment(word) || word == b"*".as_slice() || read_word(word).is_some()
}

/// The word with its first byte as `\xNN`.
fn first_escaped(alloc: Global, word: &[u8]) -> Result<Vec<u8>, NoMemory>
    ensures { IfOk result (λ made. made.items ≡ first_escaped word.now) }
{
    let mut made = Vec::new(alloc);
    if let [first, rest @ ..] = word {
        made.extend_from_slice(b"\\x")?;
        made.extend_from_slice(&byte_digits(*first))?;
        made.extend_from_slice(rest)?;
    }
    Ok(made)
}

/// Writes a name, as a list has it, over a text.
#[tactic(auto, unfolding(crate::specs::merge::Ignore::spelled))]
pub(crate) fn write_spelled(alloc: Global, text: &mut Vec<u8>, name: &[u8]) -> Result<(), NoMemory>
    ensures { OnOk result (text.new.items ≡ spelled name.now) }
{
    write_escaped(text, name)?;
    if says_other(text) {
        *text = first_escaped(alloc, text)?;
    }
    Ok(())
}

/// Writes a function of a source line, as a list has it, over a text.
#[tactic(auto, unfolding(crate::specs::merge::Ignore::spelled_field))]
pub(crate) fn write_spelled_field(
    alloc: Global,
    text: &mut Vec<u8>,
    field: &[u8],
) -> Result<(), NoMemory>
    ensures { OnOk result (text.new.items ≡ spelled_field field.now) }
{
    write_escaped_field(text, field)?;
    if says_other(text) {
        *text = first_escaped(alloc, text)?;
    }
    Ok(())
}

/// Adds a symbol whose name is the word, where there is one.
fn add_named(
    named: &mut Vec<NamedSymbol>,
    word: Option<usize>,
    symbol: &Symbol,
) -> Result<(), NoMemory>
    ensures { OnOk result (named.new.items ≡ named.old.items ++ option_to_list (spec.named symbol.now word)) }
{
    if let Some(word) = word {
        let value = symbol.value;
        let size = symbol.size;
        named.push(NamedSymbol { word, value, size })?;
    }
    Ok(())
}

/// The symbols whose names are words.
pub(crate) fn named_symbols(
    alloc: Global,
    words: &Words,
    image: &Image,
) -> Result<Vec<NamedSymbol>, NoMemory>
    requires { spec.AreNumbered words.now }
    ensures { IfOk result (λ named. named.items ≡ filter_map (spec.named_by words.now) image.now.symbols) }
{
    let mut text = Vec::new(alloc);
    let mut named = Vec::new(alloc);
    for symbol in image.symbols() {
        let word = words.name_of(alloc, &mut text, symbol)?;
        add_named(&mut named, word, symbol)?;
    }
    Ok(named)
}

/// The symbols that hold an address.
fn holding(
    alloc: Global,
    named: &[NamedSymbol],
    address: u32,
) -> Result<Vec<NamedSymbol>, AllocError>
    ensures { IfOk result (λ holding. holding.items ≡ filter (spec.holds address) named.now) }
{
    named
        .iter()
        .copied()
        .filter(|symbol| symbol.holds(address))
        .collect(alloc)
}

/// Which of so many words are the names of these symbols.
pub(crate) fn marks_of(
    alloc: Global,
    count: usize,
    symbols: &[NamedSymbol],
) -> Result<Vec<bool>, NoMemory>
    requires { All (λ symbol. symbol.word < count) symbols.now }
    ensures count { IfOk result (λ marks. length marks.items ≡ count) }
    ensures marks { IfOk result (λ marks. spec.AreMarks symbols.now marks.items) }
{
    let mut marks = vec![in alloc; false; count]?;
    for symbol in symbols {
        marks[symbol.word] = true;
    }
    Ok(marks)
}

/// The word that is the name by which `explain` tells the address.
fn told_word(
    alloc: Global,
    words: &Words,
    symbols: &SymbolTable,
    address: u32,
) -> Result<Option<usize>, NoMemory>
    requires { spec.AreNumbered words.now }
    ensures { IfOk result (λ word. word ≡ spec.told_word words.now symbols.now.image address) }
{
    match symbols.symbol_of(address) {
        Some(symbol) => words.name_of(alloc, &mut Vec::new(alloc), symbol),
        None => Ok(None),
    }
}

/// Marks a word, where there is one.
fn mark(marks: &mut Vec<bool>, word: Option<usize>)
    requires { IfSome word (λ number. number < length marks.old.items) }
    ensures count { length marks.new.items ≡ length marks.old.items }
    ensures marks { spec.MarksMore word marks.old.items marks.new.items }
{
    if let Some(number) = word {
        marks[number] = true;
    }
}

/// Which words are names at an address: of the symbols that it lies in, and of the one that tells it. At one that is
/// not known there are none.
pub(crate) fn marks_at(
    alloc: Global,
    words: &Words,
    named: &[NamedSymbol],
    symbols: &SymbolTable,
    at: Option<u32>,
) -> Result<Vec<bool>, NoMemory>
    requires numbered { spec.AreNumbered words.now }
    requires named { named.now ≡ filter_map (spec.named_by words.now) symbols.now.image.symbols }
    ensures count { IfOk result (λ marks. length marks.items ≡ spec.count words.now) }
    ensures marks { IfOk result (λ marks. spec.AreMarksAt words.now symbols.now.image at marks.items) }
{
    let Some(address) = at else {
        return marks_of(alloc, words.count(), &[]);
    };
    let holding = holding(alloc, named, address)?;
    let mut marks = marks_of(alloc, words.count(), &holding)?;
    mark(&mut marks, told_word(alloc, words, symbols, address)?);
    Ok(marks)
}

/// Marks the words that are functions of frames.
fn mark_frames(
    alloc: Global,
    words: &Words,
    frames: Frames<'_>,
    marks: &mut Vec<bool>,
) -> Result<(), NoMemory>
    requires numbered { spec.AreNumbered words.now }
    requires count { length marks.old.items ≡ spec.count words.now }
    ensures count { OnOk result (length marks.new.items ≡ length marks.old.items) }
    ensures marks { OnOk result (spec.MarksFrames words.now frames.entry marks.old.items marks.new.items) }
{
    let mut text = Vec::new(alloc);
    let mut frames = frames;
    while let Some(frame) = frames.next_frame() {
        let word = words.function_of(alloc, &mut text, &frame)?;
        mark(marks, word);
    }
    Ok(())
}

/// Marks the words that are functions of some line.
fn mark_all(
    alloc: Global,
    words: &Words,
    lines: &SourceLines,
    marks: &mut Vec<bool>,
) -> Result<(), NoMemory>
    requires numbered { spec.AreNumbered words.now }
    requires count { length marks.old.items ≡ spec.count words.now }
    ensures count { OnOk result (length marks.new.items ≡ length marks.old.items) }
    ensures marks { OnOk result (spec.MarksLines words.now lines.now marks.old.items marks.new.items) }
{
    for number in 0..lines.count() {
        mark_frames(alloc, words, lines.frames_of(number), marks)?;
    }
    Ok(())
}

/// The same, where lines are given.
pub(crate) fn mark_lines(
    alloc: Global,
    words: &Words,
    lines: &Option<SourceLines>,
    marks: &mut Vec<bool>,
) -> Result<(), NoMemory>
    requires numbered { spec.AreNumbered words.now }
    requires count { length marks.old.items ≡ spec.count words.now }
    ensures count { OnOk result (length marks.new.items ≡ length marks.old.items) }
    ensures marks { OnOk result (spec.MarksLines words.now (lines_of lines.now) marks.old.items marks.new.items) }
{
    match lines {
        None => Ok(()),
        Some(lines) => mark_all(alloc, words, lines, marks),
    }
}

/// Which words are names at an instruction: those at its address, and the functions of its frames.
pub(crate) fn instruction_marks(
    alloc: Global,
    words: &Words,
    named: &[NamedSymbol],
    symbols: &SymbolTable,
    at: Option<u32>,
) -> Result<Vec<bool>, NoMemory>
    requires numbered { spec.AreNumbered words.now }
    requires named { named.now ≡ filter_map (spec.named_by words.now) symbols.now.image.symbols }
    ensures count { IfOk result (λ marks. length marks.items ≡ spec.count words.now) }
    ensures marks { IfOk result (λ marks. spec.AreInstructionMarks words.now symbols.now at marks.items) }
{
    let mut marks = marks_at(alloc, words, named, symbols, at)?;
    let Some(address) = at else {
        return Ok(marks);
    };
    mark_frames(alloc, words, symbols.frames_at(address), &mut marks)?;
    Ok(marks)
}
