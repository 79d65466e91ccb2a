//! In which runs harts first ended in each way, and whether one ended as it should not.
ghost use Rattle.std.specs.Prelude.{◌≡◌, ◌==◌, ◌||◌, false, ◌++◌, IfOk, OnOk, filter_map, option_map};
ghost use Rattle.std.specs.List.{list_any};
ghost use Rattle.std.specs.Option.{option_to_list};
ghost use Rattle.rv_search.specs.RightEnds as spec;
ghost use Rattle.rv_text.specs.Pieces.{pieces_of};

use crate::end::{End, Way};
use crate::ended::Ways;
use crate::tally::kinds::{MOST_TOLD, is_same};
use rv_memory::store::NoMemory;
use rv_text::numeral::read_number;
use rv_text::pieces::Pieces;
use std::alloc::Global;
use std::marker::Model;

/// The exit codes that are right.
#[derive(Drop)]
pub struct RightCodes {
    codes: Vec<u32>,
}

impl Model for RightCodes {
    ghost use Rattle.std.specs.Prelude.{ℕ, List};

    ghost Value = { List ℕ };

    ghost view = { λ r. r.codes.items };
}

/// A way of ending, and the first run in which a hart ended so.
#[derive(Clone, Copy)]
struct FirstRun {
    end: End,
    run: u32,
}

/// The first runs of the ways that have a line of their own, and of all others together.
#[derive(Drop)]
struct FirstRuns {
    told: Vec<FirstRun>,
    rest: Option<u32>,
}

/// The runs in which harts first ended in each way that has a line, and whether a trap stopped one or one exited with a wrong code.
#[derive(Drop)]
pub struct EndRuns {
    right: RightCodes,
    exits: FirstRuns,
    stops: FirstRuns,
    waits: FirstRuns,
    out_of_steps: Option<u32>,
    is_wrong: bool,
}

impl Model for EndRuns {
    ghost use Rattle.rv_search.specs.RightEnds.{EndsSeen};

    ghost Value = { EndsSeen };

    ghost view = { λ e. record { right = e.right; is_wrong = e.is_wrong } };
}

/// Adds the code that a piece of a list writes, if it writes one.
fn push_code(codes: &mut Vec<u32>, piece: &[u8]) -> Result<(), NoMemory>
    ensures { OnOk result (codes.new.items ≡ codes.old.items ++ option_to_list (spec.code_of piece.now)) }
{
    if let Some(code) = read_number(piece, 10, u32::MAX) {
        codes.push(code)?;
    }
    Ok(())
}

/// The codes of a list.
fn codes_in(alloc: Global, list: &[u8]) -> Result<Vec<u32>, NoMemory>
    ensures { IfOk result (λ codes. codes.items ≡ filter_map spec.code_of (pieces_of 44 list.now)) }
{
    let mut codes = Vec::new(alloc);
    let mut pieces = Pieces::of(list, b',');
    while let Some(piece) = pieces.next_piece() {
        push_code(&mut codes, piece)?;
    }
    Ok(codes)
}

impl RightCodes {
    /// The codes of a list of decimal numbers with a comma between two; without a list 0 alone.
    pub fn of(alloc: Global, list: Option<&str>) -> Result<RightCodes, NoMemory>
        ensures { IfOk result (λ right. right ≡ spec.right_codes (option_map (λ text. text.now) list.entry)) }
    {
        let codes = match list {
            None => vec![in alloc; 0]?,
            Some(list) => codes_in(alloc, list.as_bytes())?,
        };
        Ok(RightCodes { codes })
    }

    /// Whether a code is right.
    fn has(&self, code: u32) -> bool
        ensures { result ≡ list_any (λ one. one == code) self.now }
    {
        self.codes.iter().any(|one| *one == code)
    }

    /// Whether a hart that ended so ended as it should not.
    fn is_wrong(&self, end: End) -> bool
        ensures { result ≡ spec.is_wrong_end self.now end }
    {
        match end {
            End::Exited(code) => !self.has(code),
            End::Stopped(..) => true,
            End::Polls(_) | End::Parked | End::OutOfSteps | End::Idle => false,
        }
    }
}

impl FirstRuns {
    fn none(alloc: Global) -> FirstRuns {
        FirstRuns {
            told: Vec::new(alloc),
            rest: None,
        }
    }

    fn of(&self, end: End) -> Option<u32> {
        let first = self.told.iter().find(|first| is_same(first.end, end))?;
        Some(first.run)
    }

    /// A hart ended so in a run: those of earlier runs were added before.
    fn add(&mut self, end: End, run: u32) -> Result<(), NoMemory> {
        if self.of(end).is_some() {
            return Ok(());
        }
        if self.told.len() < MOST_TOLD {
            self.told.push(FirstRun { end, run })?;
        } else if self.rest.is_none() {
            self.rest = Some(run);
        }
        Ok(())
    }
}

impl EndRuns {
    /// Of no run.
    pub fn none(alloc: Global, right: RightCodes) -> EndRuns
        ensures { result ≡ record { right = right; is_wrong = false } }
    {
        EndRuns {
            right,
            exits: FirstRuns::none(alloc),
            stops: FirstRuns::none(alloc),
            waits: FirstRuns::none(alloc),
            out_of_steps: None,
            is_wrong: false,
        }
    }

    fn add_one(&mut self, run: u32, end: End) -> Result<(), NoMemory>
        ensures { OnOk result (self.new ≡ record self.old { is_wrong = self.old.is_wrong || spec.is_wrong_end self.old.right end }) }
    {
        self.is_wrong = self.is_wrong || self.right.is_wrong(end);
        match end.way() {
            Way::Exit => self.exits.add(end, run),
            Way::Trap => self.stops.add(end, run),
            Way::Wait => self.waits.add(end, run),
            Way::Spent => {
                if self.out_of_steps.is_none() {
                    self.out_of_steps = Some(run);
                }
                Ok(())
            }
        }
    }

    /// Adds how the harts of a run ended.
    pub(crate) fn add(&mut self, run: u32, ends: &[End]) -> Result<(), NoMemory>
        ensures { OnOk result (self.new ≡ record self.old { is_wrong = self.old.is_wrong || list_any (spec.is_wrong_end self.old.right) ends.now }) }
    {
        for end in ends {
            self.add_one(run, *end)?;
        }
        Ok(())
    }

    /// Whether a trap stopped a hart, or one exited with a wrong code.
    pub fn is_wrong(&self) -> bool
        ensures { result ≡ self.now.is_wrong }
    {
        self.is_wrong
    }

    /// The first run in which a hart ended so, where that is worth a look: it did not exit with a right code.
    pub fn run_of(&self, ways: Ways) -> Option<u32> {
        match ways {
            Ways::One(End::Exited(code)) if !self.right.is_wrong(End::Exited(code)) => None,
            Ways::One(end) => match end.way() {
                Way::Exit => self.exits.of(end),
                Way::Trap => self.stops.of(end),
                Way::Wait => self.waits.of(end),
                Way::Spent => self.out_of_steps,
            },
            Ways::OtherExits => self.exits.rest,
            Ways::OtherStops => self.stops.rest,
            Ways::OtherWaits => self.waits.rest,
        }
    }
}
