ghost use Rattle.rv_command.specs.Notice as notice;

use crate::command::exhibit::MOST_ENDING;
use crate::command::hunt::MOST_CODE;
use rv_collide::plan::{MOST_ARMS, MOST_PAUSE, MOST_STEPS};
use rv_faults::shown::Shown;
use std::fmt;

/// An option whose value is a decimal number, and its range.
#[derive(Clone, Copy)]
pub struct NumberOption {
    pub name: &'static str,
    pub least: u64,
    pub most: u64,
}

/// Why a line is refused in which `clap` finds no fault.
#[derive(Clone, Copy)]
pub enum Complaint<'a> {
    /// The value of an option is no number in its range.
    Number {
        option: NumberOption,
        value: &'a str,
    },
    /// The value of `--plan` is not three numbers in their ranges.
    Lengths {
        value: &'a str,
    },
    /// The value of `--aim` is not two sides.
    Aim {
        value: &'a str,
    },
    /// `--aim` and `--sampled` are both given.
    SampledAim,
    /// `--progress` and `--quiet` are both given.
    QuietProgress,
    /// The value of `--color` is none of its words.
    Color {
        value: &'a str,
    },
    /// The value of `--right` is not a list of exit codes.
    Right {
        value: &'a str,
    },
    /// The tables of `merge` do not stand together.
    Tables,
    /// The run whose schedule is saved is not among the runs.
    Keep {
        value: &'a str,
        runs: u32,
    },
    /// The number of an ending is none, or out of its range.
    Ending {
        value: &'a str,
    },
    /// The words are no command with its arguments.
    Words,
}

impl<'a> fmt::Display for Complaint<'a> {
    ghost output = { λ complaint. notice.complaint_output complaint };

    fn fmt<W: fmt::Write>(&self, f: &mut fmt::Formatter<W>) -> fmt::Result {
        match self {
            Complaint::Number { option, value } => write!(
                f,
                "error: invalid value '{}' for '--{}': it is a decimal number from {} to {}\n",
                Shown(*value),
                option.name,
                option.least,
                option.most
            ),
            Complaint::Lengths { value } => write!(
                f,
                "error: invalid value '{}' for '--plan': it is STEPS,ARMS,PAUSE: numbers from 1 to {}, 0 to {} and 1 to {}\n",
                Shown(*value),
                MOST_STEPS,
                MOST_ARMS,
                MOST_PAUSE
            ),
            Complaint::Aim { value } => write!(
                f,
                "error: invalid value '{}' for '--aim': it is A,B: two names or addresses with one comma\n",
                Shown(*value)
            ),
            Complaint::SampledAim => f.write_str(
                "error: '--aim' cannot be used with '--sampled': sampled runs make no probes\n",
            ),
            Complaint::QuietProgress => {
                f.write_str("error: '--progress' cannot be used with '--quiet'\n")
            }
            Complaint::Color { value } => write!(
                f,
                "error: invalid value '{}' for '--color': it is auto, always or never\n",
                Shown(*value)
            ),
            Complaint::Right { value } => write!(
                f,
                "error: invalid value '{}' for '--right': it is a list of decimal numbers from 0 to {} with commas between them\n",
                Shown(*value),
                MOST_CODE
            ),
            Complaint::Keep { value, runs } => write!(
                f,
                "error: invalid value '{}' for '--keep': it is less than '--runs', which is {runs}\n",
                Shown(*value)
            ),
            Complaint::Ending { value } => write!(
                f,
                "error: invalid value '{}' for 'N': it is a decimal number from 0 to {}\n",
                Shown(*value),
                MOST_ENDING
            ),
            Complaint::Tables => f.write_str(
                "error: merge takes its tables together, with '--expect TABLE' before them or behind\n",
            ),
            Complaint::Words => f.write_str("error: the command line is refused\n"),
        }
    }
}
