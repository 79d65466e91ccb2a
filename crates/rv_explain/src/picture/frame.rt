//! Where the lines and the lanes of a picture stand. All lengths are in pixels.
ghost use Rattle.std.specs.Prelude.{◌≡◌, ◌+◌, ◌*◌};

use crate::block::Block;
use crate::picture::shapes::Point;
use crate::row::Shown;
use rv_collide::entry::Entry;
use rv_memory::store::NoMemory;

/// What the shapes mean.
pub(crate) const LEGEND: &[u8] =
    b"dot: a step; square: a store; ring: paused, resumed; bar: the pause";

/// How many lines a picture has and which of them is the first entry's, how many characters the longest has,
/// and how many lanes there are.
#[derive(Clone, Copy)]
pub(crate) struct Frame {
    pub lines: u32,
    pub first: u32,
    pub columns: u32,
    pub lanes: u32,
}

/// The hart in whose lane an entry stands.
fn hart_shown(shown: &Shown) -> Option<u8> {
    let Shown::Row(row) = shown else {
        return None;
    };
    match row.entry {
        Entry::Stepped(hart) | Entry::Paused(hart, _) | Entry::Resumed(hart) => Some(hart),
        Entry::Armed(_) | Entry::Disarmed(_) => None,
    }
}

/// The greatest number of a hart that is shown.
fn last_hart(block: &Block) -> u8 {
    let mut most = block.paused.hart.max(block.other.hart);
    for shown in &block.lines {
        most = most.max(hart_shown(shown).unwrap_or(0));
    }
    most
}

/// How many characters the longest line has.
fn longest(lines: &[Vec<u8>]) -> usize {
    let mut most = LEGEND.len();
    for line in lines {
        most = most.max(line.len());
    }
    most
}

/// A number of lines or characters. A picture with as many as a `u32` cannot tell is too large for memory.
pub(crate) fn small(count: usize) -> Result<u32, NoMemory> {
    u32::try_from(count).map_err(|_| NoMemory)
}

/// Where the lines and lanes of a block stand.
pub(crate) fn frame_of(lines: &[Vec<u8>], block: &Block) -> Result<Frame, NoMemory> {
    let count = small(lines.len())?;
    Ok(Frame {
        lines: count,
        first: count.saturating_sub(small(block.lines.len())?),
        columns: small(longest(lines))?,
        lanes: u32::from(last_hart(block)) + 1,
    })
}

/// The middle of a hart's lane.
pub(crate) fn lane_x(hart: u32) -> u64
    ensures { result ≡ 28 + 24 * hart }
{
    28 + 24 * u64::from(hart)
}

/// The baseline of a line.
fn baseline(line: u32) -> u64
    ensures { result ≡ 28 + 20 * line }
{
    28 + 20 * u64::from(line)
}

impl Frame {
    /// Where the texts beside the lanes begin.
    fn beside(&self) -> u64
        ensures { result ≡ 24 + 24 * self.now.lanes }
    {
        24 + 24 * u64::from(self.lanes)
    }

    /// The middle of the row of an entry.
    pub(crate) fn middle(&self, row: u32) -> u64
        ensures { result ≡ 23 + 20 * (self.now.first + row) }
    {
        23 + 20 * (u64::from(self.first) + u64::from(row))
    }

    /// The baseline of the harts' numbers.
    pub(crate) fn numbers(&self) -> u64 {
        baseline(self.first.saturating_sub(1))
    }

    /// Where the lanes begin and end.
    pub(crate) fn lanes_top(&self) -> u64 {
        self.middle(0) - 8
    }

    pub(crate) fn lanes_end(&self) -> u64 {
        baseline(self.lines) - 17
    }

    pub(crate) fn width(&self) -> u64
        ensures { result ≡ 40 + 24 * self.now.lanes + 8 * self.now.columns }
    {
        self.beside() + 8 * u64::from(self.columns) + 16
    }

    pub(crate) fn height(&self) -> u64 {
        baseline(self.lines) + 36
    }

    /// Where a line begins: those of entries and the columns' names stand beside the lanes.
    pub(crate) fn line(&self, line: u32) -> Point {
        let above = u64::from(line) + 1 < u64::from(self.first);
        let x = if above { 16 } else { self.beside() };
        Point::new(x, baseline(line))
    }

    /// Where the legend begins.
    pub(crate) fn legend(&self) -> Point {
        Point::new(16, baseline(self.lines) + 20)
    }
}
