ghost use Rattle.std.specs.Prelude.{◌≡◌, ◌++◌, option_map};
ghost use Rattle.rv_faults.specs.FaultText as spec;
ghost use Rattle.rv_faults.specs.Fault.{fault_of_asm, fault_of_exhibit, fault_of_list, fault_of_load, fault_of_read, fault_of_replay, fault_of_schedule, fault_of_talk, fault_of_threads, fault_of_words};
ghost use Rattle.rv_faults.specs.declared.fault.Fault.TheVariants as fault;

use rv_asm::{AsmFault, AsmKind, ListFault};
use rv_collide::replay::{ReplayFault, Why};
use rv_collide::schedule::{ScheduleFault, ScheduleKind};
use rv_debug::fault::TalkFault;
use rv_elf::LoadFault;
use rv_hart::machine::StepFault;
use rv_locked::threads::RunFault;
use rv_memory::flagged::{ReadFault, WriteFault};
use rv_memory::store::NoMemory;
use rv_report::exhibit::ExhibitFault;
use rv_words::fault::WordsFault;
use std::convert::Infallible;
use std::fmt;

/// Why a run by threads is refused: a thread cannot be started, or what a thread recorded is not its hart's part
/// of the schedule.
#[derive(Clone, Copy)]
pub enum ThreadsFault {
    NoThread,
    Stray,
}

/// Why a command does not write its text.
#[derive(Clone, Copy)]
pub enum Fault {
    /// The first malformed line of an input of `words`, from 1 on.
    Line(u32),
    /// The first step of `words` that is refused, from 0 on, and why: there is no such hart, or it does not run.
    Step { number: u32, fault: StepFault },
    /// The first fault of a source.
    Asm(AsmFault),
    /// The first test of an image that its file fails.
    Load(LoadFault),
    /// The first line of a schedule's text that has a fault, and its fault.
    Schedule(ScheduleFault),
    /// The first entry of a schedule, from 0 on, that is not what a call would add there, and why.
    Entry { place: u32, why: Why },
    /// Why a run by threads is refused.
    Threads(ThreadsFault),
    /// Why an ending of a schedule has no exhibit.
    Exhibit(ExhibitFault),
    /// The input has more bytes than an input may have.
    TooLong,
    /// The reader failed.
    Read,
    /// The writer failed.
    Write,
    NoMemory,
}

impl Fault {
    /// The exit status of a program that tells the fault.
    pub fn status(self) -> u8
        ensures { result ≡ spec.status self }
    {
        match self {
            Fault::Line(_)
            | Fault::Step { .. }
            | Fault::Asm(_)
            | Fault::Load(_)
            | Fault::Schedule(_)
            | Fault::Entry { .. }
            | Fault::Threads(_)
            | Fault::Exhibit(_)
            | Fault::TooLong => 1,
            Fault::Read | Fault::Write => 3,
            Fault::NoMemory => 4,
        }
    }
}

impl From<WordsFault> for Fault {
    ghost from_gives = { λ given made. made ≡ fault_of_words given };

    fn from(given: WordsFault) -> Fault {
        match given {
            WordsFault::Line(number) => Fault::Line(number),
            WordsFault::Step { number, fault } => Fault::Step { number, fault },
            WordsFault::NoMemory => Fault::NoMemory,
        }
    }
}

impl From<AsmFault> for Fault {
    ghost from_gives = { λ given made. made ≡ fault_of_asm given };

    fn from(given: AsmFault) -> Fault {
        match given.kind {
            AsmKind::NoMemory => Fault::NoMemory,
            _ => Fault::Asm(given),
        }
    }
}

impl From<LoadFault> for Fault {
    ghost from_gives = { λ given made. made ≡ fault_of_load given };

    fn from(given: LoadFault) -> Fault {
        match given {
            LoadFault::NoMemory => Fault::NoMemory,
            fault => Fault::Load(fault),
        }
    }
}

/// What a reader or memory did is told as of any input.
impl From<ScheduleFault> for Fault {
    ghost from_gives = { λ given made. made ≡ fault_of_schedule given };

    fn from(given: ScheduleFault) -> Fault {
        match given.kind {
            ScheduleKind::Read => Fault::Read,
            ScheduleKind::NoMemory => Fault::NoMemory,
            _ => Fault::Schedule(given),
        }
    }
}

impl From<ReplayFault> for Fault {
    ghost from_gives = { λ given made. made ≡ fault_of_replay given };

    fn from(given: ReplayFault) -> Fault {
        match given {
            ReplayFault::NoMemory => Fault::NoMemory,
            ReplayFault::Entry { place, why } => Fault::Entry { place, why },
        }
    }
}

/// An entry that is not what a call would add is told as `replay` tells it.
impl From<ExhibitFault> for Fault {
    ghost from_gives = { λ given made. made ≡ fault_of_exhibit given };

    fn from(given: ExhibitFault) -> Fault {
        match given {
            ExhibitFault::NoMemory => Fault::NoMemory,
            ExhibitFault::Replay { place, why } => Fault::Entry { place, why },
            fault => Fault::Exhibit(fault),
        }
    }
}

impl From<RunFault<Infallible>> for Fault {
    ghost from_gives = { λ given made. made ≡ fault_of_threads given };

    fn from(given: RunFault<Infallible>) -> Fault {
        match given {
            RunFault::NoMemory => Fault::NoMemory,
            RunFault::NoThread => Fault::Threads(ThreadsFault::NoThread),
            RunFault::Stray(_) => Fault::Threads(ThreadsFault::Stray),
        }
    }
}

impl From<ListFault> for Fault {
    ghost from_gives = { λ given made. made ≡ fault_of_list given };

    fn from(given: ListFault) -> Fault {
        match given {
            ListFault::Write => Fault::Write,
            ListFault::NoMemory => Fault::NoMemory,
        }
    }
}

impl From<TalkFault> for Fault {
    ghost from_gives = { λ given made. made ≡ fault_of_talk given };

    fn from(given: TalkFault) -> Fault {
        match given {
            TalkFault::TooLong => Fault::TooLong,
            TalkFault::Read => Fault::Read,
            TalkFault::Write => Fault::Write,
        }
    }
}

impl From<ReadFault> for Fault {
    ghost from_gives = { λ given made. made ≡ fault_of_read given };

    fn from(given: ReadFault) -> Fault {
        match given {
            ReadFault::Read => Fault::Read,
            ReadFault::TooLong => Fault::TooLong,
            ReadFault::NoMemory => Fault::NoMemory,
        }
    }
}

impl From<WriteFault> for Fault {
    ghost from_gives = { λ _ made. made ≡ fault.Write };

    fn from(_: WriteFault) -> Fault {
        Fault::Write
    }
}

impl From<NoMemory> for Fault {
    ghost from_gives = { λ _ made. made ≡ fault.NoMemory };

    fn from(_: NoMemory) -> Fault {
        Fault::NoMemory
    }
}

/// The line of a fault whose name is another crate's: the fixed words, the number and the name.
#[derive(Drop)]
struct Named<'a, N> {
    fault: &'a Fault,
    name: &'a N,
}

impl<N: fmt::Display> fmt::Display for Named<'_, N> {
    ghost output = { λ line. option_map (λ name. spec.words_before line.fault.now ++ name) (N.output line.name.now) };

    fn fmt<W: fmt::Write>(&self, f: &mut fmt::Formatter<W>) -> fmt::Result {
        let name = self.name;
        match self.fault {
            Fault::Load(_) => write!(f, "load {name}"),
            Fault::Schedule(fault) => write!(f, "schedule line {} {name}", fault.line),
            Fault::Entry { place, .. } => write!(f, "replay entry {place} {name}"),
            Fault::Exhibit(_) => write!(f, "exhibit {name}"),
            _ => write!(f, "{name}"),
        }
    }
}

/// The fault's text, after the program's name.
impl fmt::Display for Fault {
    ghost output = { λ told. spec.fault_output told };

    fn fmt<W: fmt::Write>(&self, f: &mut fmt::Formatter<W>) -> fmt::Result {
        match self {
            Fault::Line(number) => write!(f, "words line {number}"),
            Fault::Step { number, fault } => {
                write!(f, "words step {number} {}", step_fault_name(*fault))
            }
            Fault::Asm(fault) => {
                write!(f, "asm line {} {}", fault.line, asm_fault_name(fault.kind))
            }
            Fault::Load(name) => write!(f, "{}", Named { fault: self, name }),
            Fault::Schedule(fault) => {
                let name = &fault.kind;
                write!(f, "{}", Named { fault: self, name })
            }
            Fault::Entry { why: name, .. } => write!(f, "{}", Named { fault: self, name }),
            Fault::Exhibit(name) => write!(f, "{}", Named { fault: self, name }),
            Fault::Threads(fault) => write!(f, "run {}", threads_fault_name(*fault)),
            Fault::TooLong => f.write_str("input TooLong"),
            Fault::Read => f.write_str("read"),
            Fault::Write => f.write_str("write"),
            Fault::NoMemory => f.write_str("memory"),
        }
    }
}

fn step_fault_name(fault: StepFault) -> &'static str
    ensures { result.now ≡ spec.step_fault_name fault }
{
    match fault {
        StepFault::NoHart => "NoHart",
        StepFault::NotRunning => "NotRunning",
        StepFault::OutputFull => "OutputFull",
        StepFault::NoMemory => "NoMemory",
    }
}

fn asm_fault_name(kind: AsmKind) -> &'static str
    ensures { result.now ≡ spec.asm_fault_name kind }
{
    match kind {
        AsmKind::Word => "Word",
        AsmKind::Register => "Register",
        AsmKind::Range => "Range",
        AsmKind::LabelTwice => "LabelTwice",
        AsmKind::LabelUnknown => "LabelUnknown",
        AsmKind::Directive => "Directive",
        AsmKind::TooLarge => "TooLarge",
        AsmKind::NoMemory => "NoMemory",
        AsmKind::Empty => "Empty",
    }
}

fn threads_fault_name(fault: ThreadsFault) -> &'static str
    ensures { result.now ≡ spec.threads_fault_name fault }
{
    match fault {
        ThreadsFault::NoThread => "NoThread",
        ThreadsFault::Stray => "Stray",
    }
}
