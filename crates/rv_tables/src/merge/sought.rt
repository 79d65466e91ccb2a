//! The lines of an ignore list by the numbers of their words.
ghost use Rattle.std.specs.Prelude.{◌≡◌, All, IfOk, length};
ghost use Rattle.std.specs.List.{list_any};
ghost use Rattle.rv_tables.specs.internal.Sought as spec;

/// A side of a line, which says a word by its number.
#[derive(Clone, Copy)]
pub(crate) enum SoughtSide {
    Any,
    Address(u32),
    Word(usize),
}

/// The line that stands at that number in its file.
#[derive(Clone, Copy)]
pub(crate) struct SoughtLine {
    pub(crate) at: u64,
    pub(crate) one: SoughtSide,
    pub(crate) other: SoughtSide,
    pub(crate) on: SoughtSide,
}

/// An instruction or a place in data, or one that is not known, with the words marked that are names there.
#[derive(Drop)]
pub(crate) struct Instruction {
    pub(crate) at: Option<u32>,
    pub(crate) marks: Vec<bool>,
}

/// The instructions of a race, and its data.
#[derive(Drop)]
pub(crate) struct RacePlaces {
    pub(crate) first: Instruction,
    pub(crate) second: Instruction,
    pub(crate) on: Instruction,
}

impl SoughtSide {
    /// Whether it says no word, or one that is known.
    fn is_known(&self, known: &[bool]) -> bool
        requires { spec.IsWithin (length known.now) self.now }
        ensures { result ≡ spec.is_known known.now self.now }
    {
        match self {
            SoughtSide::Any | SoughtSide::Address(_) => true,
            SoughtSide::Word(word) => known[*word],
        }
    }

    fn fits(&self, instruction: &Instruction) -> bool
        requires { spec.IsWithin (length instruction.now.marks.items) self.now }
        ensures { result ≡ spec.fits instruction.now self.now }
    {
        match self {
            SoughtSide::Any => true,
            SoughtSide::Address(address) => instruction.at == Some(*address),
            SoughtSide::Word(word) => instruction.marks[*word],
        }
    }
}

impl SoughtLine {
    fn is_known(&self, known: &[bool]) -> bool
        requires { spec.LineIsWithin (length known.now) self.now }
        ensures { result ≡ spec.line_is_known known.now self.now }
    {
        self.one.is_known(known) && self.other.is_known(known) && self.on.is_known(known)
    }

    /// Whether its sides fit the race's instructions, in either order, and the data too.
    fn fits(&self, race: &RacePlaces) -> bool
        requires first { spec.LineIsWithin (length race.now.first.marks.items) self.now }
        requires second { spec.LineIsWithin (length race.now.second.marks.items) self.now }
        requires on { spec.LineIsWithin (length race.now.on.marks.items) self.now }
        ensures { result ≡ spec.line_fits race.now self.now }
    {
        (self.one.fits(&race.first) && self.other.fits(&race.second)
            || self.one.fits(&race.second) && self.other.fits(&race.first))
            && self.on.fits(&race.on)
    }
}

/// The number of the first line with a word that is not known.
pub(crate) fn first_unknown(lines: &[SoughtLine], known: &[bool]) -> Option<u64>
    requires { All (spec.LineIsWithin (length known.now)) lines.now }
    ensures { result ≡ spec.first_unknown known.now lines.now }
{
    for line in lines {
        if !line.is_known(known) {
            return Some(line.at);
        }
    }
    None
}

/// Whether a line fits the race.
pub(crate) fn any_fits(lines: &[SoughtLine], race: &RacePlaces) -> bool
    requires first { All (spec.LineIsWithin (length race.now.first.marks.items)) lines.now }
    requires second { All (spec.LineIsWithin (length race.now.second.marks.items)) lines.now }
    requires on { All (spec.LineIsWithin (length race.now.on.marks.items)) lines.now }
    ensures { result ≡ list_any (spec.line_fits race.now) lines.now }
{
    for line in lines {
        if line.fits(race) {
            return true;
        }
    }
    false
}
