//! The lines of faults as the newer commands tell them: with the file that is at fault, and a sentence that says what is
//! wrong or what to do. `specs/Sentences.antt` has the table.
ghost use Rattle.std.specs.Prelude.{◌≡◌, option_map};
ghost use Rattle.rv_faults.specs.Sentences as spec;

use crate::command::CommandFault;
use crate::fault::{Fault, ThreadsFault};
use crate::shown::Shown;
use rv_asm::AsmKind;
use rv_campaign::NumberFault;
use rv_collide::refused::Refused;
use rv_collide::replay::Why;
use rv_collide::schedule::ScheduleKind;
use rv_elf::LoadFault;
use rv_hart::machine::StepFault;
use rv_report::exhibit::ExhibitFault;
use std::fmt;

/// The files of a command as its line names them: the image, the schedule where it has one, and the one whose device
/// failed, where one did.
#[derive(Clone, Copy)]
pub struct Paths<'a> {
    pub image: &'a str,
    pub schedule: Option<&'a str>,
    pub failed: Option<&'a str>,
}

/// A fault with the file that is at fault, where one is.
#[derive(Clone, Copy)]
pub struct FaultLine<'a> {
    pub file: Option<&'a str>,
    pub fault: CommandFault<'a>,
}

impl<'a> Paths<'a> {
    /// The file that is at fault, where one is.
    pub fn at_fault(self, fault: CommandFault<'a>) -> Option<&'a str>
        ensures { option_map (λ path. path.now) result ≡ spec.at_fault self.entry fault.entry }
    {
        match fault {
            CommandFault::Plain(Fault::Load(_) | Fault::TooLong) | CommandFault::Name(_) => Some(
                self.image,
            ),
            CommandFault::Plain(Fault::Schedule(_) | Fault::Entry { .. } | Fault::Exhibit(_))
            | CommandFault::NoRace(_) => self.schedule,
            CommandFault::Plain(Fault::Read | Fault::Write) => self.failed,
            _ => None,
        }
    }
}

/// A fault's own text, with an element of a list as messages show it.
#[derive(Drop)]
struct Told<'a>(CommandFault<'a>);

impl fmt::Display for Told<'_> {
    ghost output = { λ told. spec.told_output told.0 };

    fn fmt<W: fmt::Write>(&self, f: &mut fmt::Formatter<W>) -> fmt::Result {
        match self.0 {
            CommandFault::Skip(element) => write!(f, "skip {}", Shown(element)),
            CommandFault::Name(name) => write!(f, "name {}", Shown(name)),
            CommandFault::Plain(_)
            | CommandFault::Campaign(_)
            | CommandFault::NoThread
            | CommandFault::NoRace(_) => write!(f, "{}", self.0),
        }
    }
}

/// A fault and its sentence.
#[derive(Drop)]
struct Said<'a>(CommandFault<'a>);

impl fmt::Display for Said<'_> {
    ghost output = { λ said. spec.said_output said.0 };

    fn fmt<W: fmt::Write>(&self, f: &mut fmt::Formatter<W>) -> fmt::Result {
        write!(f, "{}: {}", Told(self.0), sentence(self.0))
    }
}

/// The line, after the program's name.
impl fmt::Display for FaultLine<'_> {
    ghost output = { λ line. spec.line_output line };

    fn fmt<W: fmt::Write>(&self, f: &mut fmt::Formatter<W>) -> fmt::Result {
        let said = Said(self.fault);
        match self.file {
            Some(file) => write!(f, "{}: {said}", Shown(file)),
            None => write!(f, "{said}"),
        }
    }
}

/// What is wrong, or what to do.
pub fn sentence(fault: CommandFault<'_>) -> &'static str
    ensures { result.now ≡ spec.sentence fault.entry }
{
    match fault {
        CommandFault::Plain(fault) => fault_sentence(fault),
        CommandFault::Skip(_) => "an address is eight hexadecimal digits",
        CommandFault::Name(_) => "the image has no symbol with this name",
        CommandFault::Campaign(fault) => number_sentence(fault),
        CommandFault::NoThread => "a thread could not be started: try fewer workers",
        CommandFault::NoRace(_) => "there is no race with this number",
    }
}

const MEMORY: &str = "there was not enough memory";

const READ: &str = "cannot read the input: does it exist, and is it a file?";

fn fault_sentence(fault: Fault) -> &'static str
    ensures { result.now ≡ spec.fault_sentence fault }
{
    match fault {
        Fault::Line(_) => "the line is malformed or missing",
        Fault::Step { fault, .. } => step_sentence(fault),
        Fault::Asm(fault) => asm_sentence(fault.kind),
        Fault::Load(fault) => load_sentence(fault),
        Fault::Schedule(fault) => schedule_sentence(fault.kind),
        Fault::Entry { why, .. } => why_sentence(why),
        Fault::Threads(fault) => threads_sentence(fault),
        Fault::Exhibit(fault) => exhibit_sentence(fault),
        Fault::TooLong => "the input is larger than 67108864 bytes",
        Fault::Read => READ,
        Fault::Write => "cannot write the output: is there space, and does the folder exist?",
        Fault::NoMemory => MEMORY,
    }
}

fn load_sentence(fault: LoadFault) -> &'static str
    ensures { result.now ≡ spec.load_sentence fault }
{
    match fault {
        LoadFault::Truncated => "the file ends inside its headers or a segment: was it cut off?",
        LoadFault::NotElf => "this is not an ELF file",
        LoadFault::NotElf32Little => "the file is ELF, but not 32-bit little-endian",
        LoadFault::NotExecutable =>
            "the file is not an executable at fixed addresses: link it without -pie",
        LoadFault::NotRiscV => "the file is for another processor",
        LoadFault::NotStatic => "the file needs a dynamic linker: link it with -static",
        LoadFault::HeaderSize => "a header in the file does not have the size that ELF prescribes",
        LoadFault::TooManySegments => "the file has more than 64 program headers",
        LoadFault::FileLongerThanMemory => "a segment has more bytes in the file than in memory",
        LoadFault::PastEnd => "a segment runs past the last address",
        LoadFault::Overlap =>
            "two segments overlap, or one overlaps the stacks at c0000000 to c00fffff",
        LoadFault::TooLarge => "the segments add up to more than 16777216 bytes",
        LoadFault::BadEntry => "the entry point is misaligned or not in an executable segment",
        LoadFault::BadSymbols =>
            "the symbol table is malformed or too large: rebuild the file, or strip it",
        LoadFault::NoMemory => MEMORY,
    }
}

fn schedule_sentence(kind: ScheduleKind) -> &'static str
    ensures { result.now ≡ spec.schedule_sentence kind }
{
    match kind {
        ScheduleKind::Read => READ,
        ScheduleKind::Header => "the first line is not that of a schedule: is this the right file?",
        ScheduleKind::PlanLine => "the plan has the form: harts N steps N arms N pause N slots N",
        ScheduleKind::PlanRange => "a number in the plan is out of range",
        ScheduleKind::Entry =>
            "the line is neither an entry nor the end, or a number is out of range",
        ScheduleKind::TooMany =>
            "there are more entries than the plan's steps plus four times its arms",
        ScheduleKind::NoEnd => "the line 'end' is missing: was the schedule cut off?",
        ScheduleKind::AfterEnd => "there is something after the line 'end'",
        ScheduleKind::TooLong => "the line is longer than 64 bytes",
        ScheduleKind::NoMemory => MEMORY,
    }
}

fn refused_sentence(fault: Refused) -> &'static str
    ensures { result.now ≡ spec.refused_sentence fault }
{
    match fault {
        Refused::NoHart => "the plan has no such hart",
        Refused::NotRunning =>
            "the hart has exited or stopped: is the schedule from another image?",
        Refused::Paused => "the hart is paused: is the schedule from another image?",
        Refused::StepsSpent => "the plan's steps are used up",
        Refused::NotPaused => "the hart is not paused: is the schedule from another image?",
        Refused::ArmsSpent => "the plan's arms are used up",
        Refused::Misaligned => "the address is not a multiple of 4",
        Refused::AlreadyArmed => "the address is already armed",
        Refused::ArmedFull => "too many addresses are armed at once",
        Refused::NotArmed => "the address is not armed",
        Refused::NoMemory => MEMORY,
    }
}

fn why_sentence(why: Why) -> &'static str
    ensures { result.now ≡ spec.why_sentence why }
{
    match why {
        Why::Refused(refused) => refused_sentence(refused),
        Why::Differs => "the run does something else here: is the schedule from another image?",
    }
}

fn exhibit_sentence(fault: ExhibitFault) -> &'static str
    ensures { result.now ≡ spec.exhibit_sentence fault }
{
    match fault {
        ExhibitFault::NoEnding => "the schedule has no ending with this number",
        ExhibitFault::NotReport =>
            "the ending is quiet: nothing touched the watched bytes during the pause",
        ExhibitFault::TextChanged =>
            "the paused instruction was overwritten before the second access",
        ExhibitFault::NoMemory => MEMORY,
        ExhibitFault::Replay { why, .. } => why_sentence(why),
    }
}

fn asm_sentence(kind: AsmKind) -> &'static str
    ensures { result.now ≡ spec.asm_sentence kind }
{
    match kind {
        AsmKind::Word => "the line is not a statement, or its operands are malformed",
        AsmKind::Register => "a register is x0 to x31 or its ABI name",
        AsmKind::Range => "a number is out of range, or a target is odd or too far away",
        AsmKind::LabelTwice => "the label is already defined on an earlier line",
        AsmKind::LabelUnknown => "the source defines no such label",
        AsmKind::Directive => "there is no such directive, or it is not allowed in this section",
        AsmKind::TooLarge => "the section, or the label names, would exceed the limit",
        AsmKind::NoMemory => MEMORY,
        AsmKind::Empty => "the source has nothing in .text",
    }
}

fn step_sentence(fault: StepFault) -> &'static str
    ensures { result.now ≡ spec.step_sentence fault }
{
    match fault {
        StepFault::NoHart => "there is no such hart",
        StepFault::NotRunning => "the hart has exited or stopped",
        StepFault::OutputFull => "the output is full",
        StepFault::NoMemory => MEMORY,
    }
}

fn threads_sentence(fault: ThreadsFault) -> &'static str
    ensures { result.now ≡ spec.threads_sentence fault }
{
    match fault {
        ThreadsFault::NoThread => "a thread could not be started: try fewer harts",
        ThreadsFault::Stray =>
            "a thread recorded something that is not its hart's part of the schedule",
    }
}

fn number_sentence(fault: NumberFault) -> &'static str
    ensures { result.now ≡ spec.number_sentence fault }
{
    match fault {
        NumberFault::TooLarge =>
            "the runs could have more than 16777216 entries in total: use fewer runs, steps or arms",
        NumberFault::Runs => "the number of runs is out of range",
        NumberFault::Workers => "the number of workers is out of range",
    }
}
