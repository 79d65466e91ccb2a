//! The folder of a hunt's schedules, on the system.
ghost use Rattle.std.specs.Prelude.{◌≡◌, ◌||◌, ◌/◌, ◌%◌, Some};
ghost use Rattle.rv_remade.specs.FolderFault.{fails_by_write, is_write};
ghost use Rattle.rv_files.specs.Saved.{address_digits, name_of, tail_of, word_of};

use crate::files::write_all;
use crate::system::{SystemFault, SystemSaid};
use rv_remade::folder::{Beside, Folder, FolderFault};
use rv_report::key::Key;
use rv_text::decimal::read_decimal;
use rv_text::hexadecimal::read_word;
use std::fs::{self, File};
use std::{fmt, io};

/// What a schedule of the folder is of.
#[derive(Clone, Copy, PartialEq, Eq, PartialOrd, Ord)]
pub enum Kind {
    Race,
    /// The copies of the trial that is shown of a race's order.
    First,
    Second,
    StuckEnd,
    Ended,
    /// A race of two instructions while the hunt goes on, by their addresses: the first times 2^32, and the second.
    Pair,
    /// A race of one instruction, by its address.
    Single,
}

/// The kinds whose schedules are numbered from 1.
const NUMBERED: [Kind; 5] = [
    Kind::Race,
    Kind::First,
    Kind::Second,
    Kind::StuckEnd,
    Kind::Ended,
];

impl Kind {
    /// What the names of its files begin with.
    pub fn word(self) -> &'static str
        ensures { result.now ≡ word_of self }
    {
        match self {
            Kind::Race | Kind::First | Kind::Second => "race",
            Kind::StuckEnd => "stuck",
            Kind::Ended => "end",
            Kind::Pair | Kind::Single => "",
        }
    }

    /// What stands behind the number in the names of its files.
    pub fn tail(self) -> &'static str
        ensures { result.now ≡ tail_of self }
    {
        match self {
            Kind::First => "-first",
            Kind::Second => "-second",
            Kind::Race | Kind::StuckEnd | Kind::Ended | Kind::Pair | Kind::Single => "",
        }
    }
}

/// A schedule of the folder.
#[derive(Clone, Copy, PartialEq, Eq, PartialOrd, Ord)]
pub struct Saved {
    pub kind: Kind,
    pub number: u64,
}

/// How many words of 32 bits there are.
const WORDS: u64 = 0x1_0000_0000;

/// The eight digits of an address.
#[derive(Clone, Copy)]
struct Address(u32);

impl fmt::Display for Address {
    ghost output = { λ address. Some (address_digits address.0) };

    fn fmt<W: fmt::Write>(&self, f: &mut fmt::Formatter<W>) -> fmt::Result {
        let n = self.0;
        let (a, b, c, d) = (
            n / 0x1000_0000 % 16,
            n / 0x100_0000 % 16,
            n / 0x10_0000 % 16,
            n / 0x1_0000 % 16,
        );
        let (e, g, h, i) = (n / 0x1000 % 16, n / 0x100 % 16, n / 0x10 % 16, n % 16);
        write!(f, "{a:x}{b:x}{c:x}{d:x}{e:x}{g:x}{h:x}{i:x}")
    }
}

impl Saved {
    /// The schedule of a race while the hunt goes on.
    pub fn of_race(race: Key) -> Saved {
        let first = u64::from(race.first);
        match race.second {
            Some(second) => Saved {
                kind: Kind::Pair,
                number: first * WORDS + u64::from(second),
            },
            None => Saved {
                kind: Kind::Single,
                number: first,
            },
        }
    }

    /// The addresses of such a schedule's race.
    fn addresses(self) -> (Address, Address)
        ensures first { result.0.0 ≡ self.number / 0x100000000 }
        ensures second { result.1.0 ≡ self.number % 0x100000000 }
    {
        let first = self.number / WORDS;
        let second = self.number % WORDS;
        (Address(first as u32), Address(second as u32))
    }
}

/// The name of its file, but for `.schedule`.
impl fmt::Display for Saved {
    ghost output = { λ file. Some (name_of file) };

    fn fmt<W: fmt::Write>(&self, f: &mut fmt::Formatter<W>) -> fmt::Result {
        let (first, second) = self.addresses();
        match self.kind {
            Kind::Pair => write!(f, "{first}-{second}"),
            Kind::Single => write!(f, "{second}"),
            Kind::Race | Kind::First | Kind::Second | Kind::StuckEnd | Kind::Ended => write!(
                f,
                "{}-{}{}",
                self.kind.word(),
                self.number,
                self.kind.tail()
            ),
        }
    }
}

/// The name of the file by which a folder is tried.
const TRIED: &str = "race-1.schedule";

/// A folder in which files are made.
#[derive(Drop)]
pub struct ScheduleFolder<'a> {
    rt: &'a HostRuntime,
    path: &'a str,
    is_used: bool,
    failed: bool,
    at: Option<Saved>,
    stands: bool,
    said: Option<SystemSaid>,
}

/// Why a folder takes no file, and what the system said.
#[derive(Clone, Copy)]
struct Refusal {
    fault: FolderFault,
    said: Option<SystemSaid>,
}

impl Refusal {
    /// It says why the system did not do what it was asked.
    fn of(error: &io::Error) -> Refusal {
        let fault = match error.kind() {
            io::ErrorKind::OutOfMemory => FolderFault::NoMemory,
            _ => FolderFault::Write,
        };
        Refusal {
            fault,
            said: SystemSaid::of(error),
        }
    }

    fn plain(fault: FolderFault) -> Refusal {
        Refusal { fault, said: None }
    }
}

impl<'a> ScheduleFolder<'a> {
    pub fn new(rt: &'a HostRuntime, path: &'a str) -> ScheduleFolder<'a> {
        ScheduleFolder {
            rt,
            path,
            is_used: false,
            failed: false,
            at: None,
            stands: false,
            said: None,
        }
    }

    /// Whether looking, making or writing has failed.
    pub fn has_failed(&self) -> bool
        ensures { result ≡ self.now.failed }
    {
        self.failed
    }

    /// The file that is at fault, where it is no fault of the folder.
    pub fn at_fault(&self) -> Option<Saved>
        ensures { result ≡ self.now.at }
    {
        self.at
    }

    /// Whether that file was there already.
    pub fn stands(&self) -> bool
        ensures { result ≡ self.now.stands }
    {
        self.stands
    }

    /// What the system said of the file or the folder.
    pub fn said(&self) -> Option<SystemSaid> {
        self.said
    }

    /// Makes a file, and notes where that fails.
    fn put(&mut self, file: Saved, bytes: &[u8]) -> Result<(), FolderFault>
        ensures { self.new.failed ≡ (self.old.failed || fails_by_write result) }
    {
        self.is_used = true;
        match make_schedule(self.rt, self.path, file, bytes) {
            Ok(()) => Ok(()),
            Err(refusal) => {
                self.note(refusal, Some(file));
                Err(refusal.fault)
            }
        }
    }

    /// Notes why the folder takes no file: the first time, or of the first file by kind and number.
    fn note(&mut self, refusal: Refusal, file: Option<Saved>)
        ensures failed { self.new.failed ≡ (self.old.failed || is_write refusal.fault) }
        ensures used { self.new.is_used ≡ self.old.is_used }
    {
        if matches!(refusal.fault, FolderFault::Write) {
            if !self.failed || file < self.at {
                self.at = file;
                self.said = refusal.said;
            }
            self.failed = true;
        }
    }
}

/// The schedule of that kind that a file of that name is: `KIND-K.schedule`, of a copy `race-K-first.schedule` and so on.
fn schedule_of(kind: Kind, name: &str) -> Option<Saved> {
    let digits = name
        .strip_prefix(kind.word())?
        .strip_prefix("-")?
        .strip_suffix(".schedule")?
        .strip_suffix(kind.tail())?;
    let number = read_decimal(digits.as_bytes(), u32::MAX)?;
    Some(Saved {
        kind,
        number: u64::from(number),
    })
}

/// The address that eight digits write, as the names of files have it.
fn address_of(digits: &str) -> Option<u32> {
    let is_lower = digits.bytes().all(|digit| !digit.is_ascii_uppercase());
    let address = read_word(digits.as_bytes())?;
    is_lower.then_some(address)
}

/// The schedule of a race while a hunt goes on that a file of that name is: `ADDRESS-ADDRESS.schedule`, or `ADDRESS.schedule`.
fn early_in(name: &str) -> Option<Saved> {
    let addresses = name.strip_suffix(".schedule")?;
    let (first, second) = match addresses.split_once('-') {
        Some((first, second)) => (first, Some(address_of(second)?)),
        None => (addresses, None),
    };
    let first = address_of(first)?;
    Some(Saved::of_race(Key { first, second }))
}

/// The schedule that a file of that name is.
fn schedule_in(name: &str) -> Option<Saved> {
    let numbered = NUMBERED.iter().find_map(|kind| schedule_of(*kind, name));
    numbered.or(early_in(name))
}

/// The first of two schedules, where there are any.
fn first_of(one: Option<Saved>, other: Option<Saved>) -> Option<Saved> {
    match (one, other) {
        (Some(one), Some(other)) => Some(one.min(other)),
        (Some(one), None) => Some(one),
        (None, other) => other,
    }
}

/// The first schedule of a hunt, by kind and number, that lies in the folder, if there is one.
fn schedule_there(rt: &HostRuntime, path: &str) -> Result<Option<Saved>, Refusal> {
    let entries = match fs::read_dir(rt, path) {
        Ok(entries) => entries,
        Err(error) => return Err(Refusal::of(&error)),
    };
    let mut first = None;
    for entry in entries {
        match entry {
            Ok(entry) => first = first_of(first, schedule_in(entry.file_name())),
            // A name that is no text is not that of a schedule.
            Err(error) if error.kind() == io::ErrorKind::InvalidFilename => {}
            Err(error) => return Err(Refusal::of(&error)),
        }
    }
    Ok(first)
}

/// Makes a file that is not there yet, with these bytes.
fn make_file(rt: &HostRuntime, path: &str, bytes: &[u8]) -> Result<(), Refusal> {
    let file = match File::create_new(rt, path) {
        Ok(file) => file,
        Err(error) => return Err(Refusal::of(&error)),
    };
    match write_all(file, bytes) {
        Ok(()) => Ok(()),
        Err(SystemFault { said }) => Err(Refusal {
            fault: FolderFault::Write,
            said,
        }),
    }
}

/// Makes a schedule's file in a folder.
fn make_schedule(rt: &HostRuntime, folder: &str, file: Saved, bytes: &[u8]) -> Result<(), Refusal> {
    let Ok(path) = format!(in rt.alloc(); "{folder}/{file}.schedule") else {
        return Err(Refusal::plain(FolderFault::NoMemory));
    };
    make_file(rt, path.as_str(), bytes)
}

/// Makes a file of the folder, and takes it away.
fn try_folder(rt: &HostRuntime, folder: &str) -> Result<(), Refusal> {
    let Ok(path) = format!(in rt.alloc(); "{folder}/{TRIED}") else {
        return Err(Refusal::plain(FolderFault::NoMemory));
    };
    make_file(rt, path.as_str(), &[])?;
    match fs::remove_file(rt, path.as_str()) {
        Ok(()) => Ok(()),
        Err(error) => Err(Refusal::of(&error)),
    }
}

/// Looks whether the folder has no schedule of a hunt yet, and takes files.
fn look_in(rt: &HostRuntime, folder: &str) -> Result<Option<Saved>, Refusal> {
    let there = schedule_there(rt, folder)?;
    if there.is_none() {
        try_folder(rt, folder)?;
    }
    Ok(there)
}

impl Folder for ScheduleFolder<'_> {
    ghost use Rattle.std.specs.Prelude.{⊤};

    ghost is_used = { λ folder. folder.is_used };

    // No contract of the system's says which bytes a file has.
    ghost Holds = { λ folder number bytes. ⊤ };

    ghost has_failed = { λ folder. folder.failed };

    fn is_at_fault(&self) -> bool {
        self.failed
    }

    fn look(&mut self) -> Result<(), FolderFault> {
        let (refusal, there) = match look_in(self.rt, self.path) {
            Ok(None) => return Ok(()),
            Ok(Some(file)) => (Refusal::plain(FolderFault::Write), Some(file)),
            Err(refusal) => (refusal, None),
        };
        self.stands = there.is_some();
        self.note(refusal, there);
        Err(refusal.fault)
    }

    fn make(&mut self, number: u64, bytes: &[u8]) -> Result<(), FolderFault> {
        let kind = Kind::Race;
        self.put(Saved { kind, number }, bytes)
    }

    fn make_beside(&mut self, kind: Beside, number: u64, bytes: &[u8]) -> Result<(), FolderFault> {
        let kind = match kind {
            Beside::StuckEnd => Kind::StuckEnd,
            Beside::Ended => Kind::Ended,
            Beside::First => Kind::First,
            Beside::Second => Kind::Second,
        };
        self.put(Saved { kind, number }, bytes)
    }
}
