//! What is told on the standard error while runs are made: a terminal has one line that moves, and above it each race the moment that it is met;
//! another stream has a line for each tenth, where that is asked for. Nothing of it depends on time.
use crate::painted::tell_painted;
use rv_plans::limit::Limit;
use rv_search::done::Done;
use rv_search::hunted::Hunted;
use rv_text::decimal::read_decimal;
use std::alloc::{AllocError, Global};
use std::env;
use std::io::IsTerminal;

/// How many bytes the line of a terminal has, where COLUMNS says nothing of use.
const LINE: usize = 79;

const LEAST_COLUMNS: u32 = 20;

const MOST_COLUMNS: u32 = 500;

/// In how many parts the work is told: to a terminal, and to another stream. The bar has as many.
const HUNDREDTHS: u64 = 100;

const TENTHS: u64 = 10;

/// Who is told.
#[derive(Clone, Copy)]
pub enum Told {
    Nobody,
    /// A terminal, by a line of so many bytes at most.
    Terminal(usize),
    Stream,
}

/// How long the line of a terminal may be.
fn line_len(rt: &HostRuntime) -> usize {
    let Ok(columns) = env::var(rt, "COLUMNS") else {
        return LINE;
    };
    match read_decimal(columns.as_bytes(), MOST_COLUMNS) {
        Some(number) if number >= LEAST_COLUMNS => number.saturating_sub(1) as usize,
        _ => LINE,
    }
}

impl Told {
    /// By the options of a line.
    pub fn of(rt: &HostRuntime, is_quiet: bool, progress: bool) -> Told {
        if is_quiet {
            Told::Nobody
        } else if rt.stderr().is_terminal() {
            Told::Terminal(line_len(rt))
        } else if progress {
            Told::Stream
        } else {
            Told::Nobody
        }
    }

    /// In how many parts.
    fn parts(self) -> u64 {
        match self {
            Told::Nobody => 0,
            Told::Terminal(_) => HUNDREDTHS,
            Told::Stream => TENTHS,
        }
    }
}

/// As `[####......]`.
fn bar_of(alloc: Global, done: Done) -> Result<String, AllocError> {
    let full = done.parts(TENTHS);
    let mut bar = String::from_str(alloc, "[")?;
    for n in 0..TENTHS {
        bar.push(if n < full { '#' } else { '.' })?;
    }
    bar.push(']')?;
    Ok(bar)
}

/// What a hunt has made and found.
fn hunt_words(alloc: Global, limit: Limit, hunted: &Hunted) -> Result<String, AllocError> {
    let (runs, races) = (hunted.tally.runs(), hunted.table.len());
    let probes = hunted.tally.probes();
    match limit {
        Limit::Runs(all) => {
            format!(in alloc; "runs {runs} of {all}, probes {probes}, races {races}")
        }
        Limit::Budget(all) => {
            let spent = hunted.tally.reached().cost.min(all);
            format!(in alloc; "runs {runs}, probes {probes}, races {races}, {spent} of {all} steps")
        }
    }
}

/// What takes a line of so many bytes away: blanks in its place.
fn erasing(alloc: Global, count: usize) -> Result<String, AllocError> {
    let mut text = String::new(alloc);
    if count > 0 {
        text.push('\r')?;
        for _ in 0..count {
            text.push(' ')?;
        }
        text.push('\r')?;
    }
    Ok(text)
}

/// The first characters of a text.
fn cut(alloc: Global, text: &str, most: usize) -> Result<String, AllocError> {
    let mut line = String::new(alloc);
    for character in text.chars().take(most) {
        line.push(character)?;
    }
    Ok(line)
}

/// Tells how far the work has come. What gets no memory isn't told, and where the standard error fails there is nothing left to tell it to.
#[derive(Drop)]
pub struct Progress<'a> {
    rt: &'a HostRuntime,
    told: Told,
    paints: bool,
    /// The line in place.
    line: String,
    /// How many parts were told of the hunt, of runs that are made again, and of races that are shown in full.
    hunted: u64,
    remade: u64,
    shown: u64,
}

impl<'a> Progress<'a> {
    pub fn new(rt: &'a HostRuntime, told: Told, paints: bool) -> Progress<'a> {
        Progress {
            rt,
            told,
            paints,
            line: String::new(rt.alloc()),
            hunted: 0,
            remade: 0,
            shown: 0,
        }
    }

    /// Puts a line in place of the one that is there.
    fn put(&mut self, line: String) {
        if let Ok(erased) = erasing(self.rt.alloc(), self.line.len()) {
            let _ = eprint!(self.rt; "{erased}{line}");
            self.line = line;
        }
    }

    /// Puts what is done in place.
    fn put_done(&mut self, most: usize, done: Done, words: &str) -> Result<(), AllocError> {
        let alloc = self.rt.alloc();
        let bar = bar_of(alloc, done)?;
        let whole = format!(in alloc; "{bar} {words}")?;
        self.put(cut(alloc, whole.as_str(), most)?);
        Ok(())
    }

    fn tell(&mut self, done: Done, words: &str) {
        match self.told {
            Told::Nobody => {}
            Told::Stream => {
                let _ = eprintln!(self.rt; "{words}");
            }
            Told::Terminal(most) => {
                let _ = self.put_done(most, done, words);
            }
        }
    }

    /// One more run has been added up.
    pub fn saw(&mut self, limit: Limit, hunted: &Hunted) {
        let done = Done::of(limit, hunted);
        let parts = done.parts(self.told.parts());
        if self.hunted < parts {
            self.hunted = parts;
            if let Ok(words) = hunt_words(self.rt.alloc(), limit, hunted) {
                self.tell(done, words.as_str());
            }
        }
    }

    /// Of so many runs some have been made again.
    pub fn made(&mut self, made: usize, all: usize) {
        let done = Done {
            done: made as u64,
            all: all as u64,
        };
        let parts = done.parts(self.told.parts());
        if self.remade < parts {
            self.remade = parts;
            if let Ok(words) = format!(in self.rt.alloc(); "runs made again {made} of {all}") {
                self.tell(done, words.as_str());
            }
        }
    }

    /// Of so many races that are shown in full some have been.
    pub fn shows(&mut self, shown: usize, all: usize) {
        let done = Done {
            done: shown as u64,
            all: all as u64,
        };
        let parts = done.parts(self.told.parts());
        if self.shown < parts {
            self.shown = parts;
            if let Ok(words) = format!(in self.rt.alloc(); "races shown {shown} of {all}") {
                self.tell(done, words.as_str());
            }
        }
    }

    /// Whether races are told the moment that they are met.
    pub fn tells_meetings(&self) -> bool {
        matches!(self.told, Told::Terminal(_))
    }

    /// Tells such a race, above the line in place.
    pub fn met(&mut self, said: &[u8]) {
        let alloc = self.rt.alloc();
        let Ok(line) = cut(alloc, self.line.as_str(), self.line.len()) else {
            return;
        };
        // It is ASCII.
        let Ok(text) = String::from_utf8_lossy(alloc, said) else {
            return;
        };
        self.ends();
        tell_painted(self.rt, self.paints, text.as_str());
        let _ = eprintln!(self.rt; "");
        self.put(line);
    }

    /// Nothing is left of the line in place.
    pub fn ends(&mut self) {
        if !self.line.is_empty() {
            self.put(String::new(self.rt.alloc()));
        }
    }
}
