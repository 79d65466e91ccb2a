//! The table of source lines.
ghost use Rattle.std.specs.Prelude.{◌≡◌, ◌<◌, ◌≤◌, ◌&&◌, ◌||◌, ◌++◌, ◌∷◌, [], Ok, IfOk, IfErr, OnOk, get_or, length, option_map};
ghost use Rattle.std.specs.List.{list_any};
ghost use Rattle.rv_lines.specs.LinesFault.{IsTold, refused};
ghost use Rattle.rv_lines.specs.SourceLines as spec;
ghost use Rattle.rv_lines.specs.internal.Kept as kept;

use crate::checks::address_of;
use crate::fault::{LinesFault, LinesKind, LinesRefusal};
use crate::frames::Frames;
use rv_memory::flagged::INPUT_LIMIT;
use rv_memory::store::NoMemory;
use rv_text::lines::Lines;
use std::alloc::Global;
use std::marker::Model;

/// A line that has the shape of one: its address, and its text.
#[derive(Drop)]
struct KeptLine {
    address: u32,
    text: Vec<u8>,
}

/// Lines in ascending order of their addresses. Each has the frames of the instructions from its address up to that of the next one.
#[derive(Drop)]
pub struct SourceLines {
    lines: Vec<KeptLine>,
}

impl Model for SourceLines {
    ghost use Rattle.std.specs.Prelude.{List, map};
    ghost use Rattle.rv_lines.specs.SourceLines.{SourceLine};
    ghost use Rattle.rv_lines.specs.internal.Kept.{AreAscending, line_of};

    ghost Value = { List SourceLine };

    ghost view = { λ s. map line_of s.lines.items };

    ghost invariant = { λ s. AreAscending s.lines.items };
}

impl SourceLines {
    /// No line.
    pub fn none(alloc: Global) -> SourceLines
        ensures { result ≡ [] }
    {
        SourceLines {
            lines: Vec::new(alloc),
        }
    }

    /// The frames of the instruction at an address, the innermost first.
    pub fn frames_at(&self, address: u32) -> Frames<'_>
        ensures { result ≡ spec.frames_at self.now address }
    {
        told_at(&self.lines, address)
    }

    /// How many lines there are.
    pub fn count(&self) -> usize
        ensures { result ≡ length self.now }
    {
        self.lines.len()
    }

    /// The frames of the line of a number, from 0 on.
    pub fn frames_of(&self, number: usize) -> Frames<'_>
        requires { number < length self.now }
        ensures { (d : spec.SourceLine) → result ≡ (get_or self.now number d).frames }
    {
        Frames::of_line(&self.lines[number].text)
    }

    /// Whether some instruction from one address up to another has a frame.
    pub fn reach(&self, start: u32, end: u64) -> bool
        ensures { result ≡ spec.reach start end self.now }
    {
        let starts = has_frames(self.frames_at(start));
        let begins = begin_within(&self.lines, start, end);
        is_either(starts, u64::from(start) < end, begins)
    }
}

/// The frames that lines in ascending order have for an address.
fn told_at<'a>(lines: &'a [KeptLine], address: u32) -> Frames<'a>
    requires { kept.AreAscending lines.now }
    ensures { result ≡ kept.told_at lines.now address }
{
    // The lines that begin at the address or below.
    let behind = lines.partition_point(|line| line.address <= address);
    if behind == 0 {
        return Frames::none();
    }
    Frames::of_line(&lines[behind - 1].text)
}

fn is_either(one: bool, and: bool, other: bool) -> bool
    ensures { result ≡ (one && and || other) }
{
    one && and || other
}

/// Whether a line has a frame, and an address from one up to another.
fn begin_within(lines: &[KeptLine], start: u32, end: u64) -> bool
    ensures { result ≡ list_any (λ line. spec.begins_within start end (kept.line_of line)) lines.now }
{
    lines.iter().any(|line| line.begins_within(start, end))
}

fn has_frames(frames: Frames<'_>) -> bool
    ensures { result ≡ spec.has_some frames.entry }
{
    let mut frames = frames;
    frames.next_frame().is_some()
}

impl KeptLine {
    /// Whether it has a frame, and an address from one up to another.
    fn begins_within(&self, start: u32, end: u64) -> bool
        ensures { result ≡ spec.begins_within start end (kept.line_of self.now) }
    {
        start <= self.address
            && u64::from(self.address) < end
            && has_frames(Frames::of_line(&self.text))
    }
}

/// The line of a text, where it has the shape of one.
fn kept_line(alloc: Global, text: &[u8]) -> Result<Option<KeptLine>, NoMemory>
    ensures { IfOk result (λ line. option_map kept.line_of line ≡ spec.line_in text.now) }
{
    let Some(address) = address_of(text) else {
        return Ok(None);
    };
    let text = Vec::from_slice(alloc, text)?;
    Ok(Some(KeptLine { address, text }))
}

fn add(lines: &mut Vec<KeptLine>, line: KeptLine) -> Result<(), NoMemory>
    ensures { OnOk result (lines.new.items ≡ lines.old.items ++ line ∷ []) }
{
    lines.push(line)?;
    Ok(())
}

/// Whether an address may stand behind the one before.
fn may_follow(before: Option<u32>, address: u32) -> bool
    ensures { result ≡ spec.may_follow before address }
{
    match before {
        Some(before) => before < address,
        None => true,
    }
}

/// The source lines that a file says, which is not too long, or its first line with a fault.
#[tactic(auto, unfolding(crate::specs::SourceLines::lines_in))]
pub fn read_lines(alloc: Global, text: &[u8]) -> Result<SourceLines, LinesRefusal>
    requires { length text.now ≤ INPUT_LIMIT }
    ensures ok { IfOk result (λ lines. spec.lines_in text.now ≡ Ok lines) }
    ensures err { IfErr result (IsTold (spec.lines_in text.now)) }
{
    let mut lines = Vec::new(alloc);
    let mut texts = Lines::of(text);
    let mut before = None;
    let mut number = 1_u64;
    while let Some(text) = texts.next_line() {
        let Some(line) = kept_line(alloc, text)? else {
            return Err(refusal(number, LinesKind::Shape));
        };
        if !may_follow(before, line.address) {
            return Err(refusal(number, LinesKind::Order));
        }
        before = Some(line.address);
        add(&mut lines, line)?;
        number += 1;
    }
    Ok(SourceLines { lines })
}

fn refusal(number: u64, kind: LinesKind) -> LinesRefusal
    ensures { result ≡ refused number kind }
{
    LinesRefusal::Line(LinesFault { line: number, kind })
}
