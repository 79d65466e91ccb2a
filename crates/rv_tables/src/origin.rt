//! What a hunt table is of: the image, the program, the runs, and what was given of them.
ghost use Rattle.std.specs.Prelude.{◌≡◌, ◌+◌, ◌++◌, ◌∷◌, [], ◌||◌, is_err, map, Some, IfOk, OnOk};
ghost use Rattle.std.specs.List.{flat_map};
ghost use Rattle.std.specs.Io.KnownBytes.{Appends};
ghost use Rattle.rv_tables.specs.Origin as spec;

use crate::fault::TableKind;
use rv_memory::flagged::WriteFault;
use rv_memory::output::{Output, put_pieces};
use rv_memory::store::NoMemory;
use rv_text::decimal::Decimal;
use rv_text::hexadecimal::byte_digits;
use rv_text::pieces::Pieces;
use sha2::{Digest, Sha256};
use std::alloc::Global;
use std::marker::Model;

/// Runs that follow one another: the number of the first, and the number behind the last.
#[derive(Clone, Copy)]
pub struct Stretch {
    pub first: u64,
    pub end: u64,
}

/// What a table is of.
#[derive(Drop)]
pub struct Origin {
    image: Vec<u8>,
    version: Vec<u8>,
    seed: u64,
    stretches: Vec<Stretch>,
    given: Vec<u8>,
}

impl Model for Origin {
    ghost use Rattle.rv_tables.specs.Origin as spec;

    ghost Value = { spec.Origin };

    ghost view = { λ o. record {
      image = o.image.items;
      version = o.version.items;
      seed = o.seed;
      stretches = o.stretches.items;
      given = o.given.items;
    } };
}

/// What a table is of, but for its runs.
#[derive(Clone, Copy)]
pub struct Heading<'a> {
    pub image: &'a [u8],
    pub version: &'a [u8],
    pub seed: u64,
    pub given: &'a [u8],
}

/// The first 16 digits of the SHA-256 digest of an image's file.
#[tactic(auto, unfolding(crate::specs::Origin::image_digits))]
pub fn image_digits(alloc: Global, bytes: &[u8]) -> Result<Vec<u8>, NoMemory>
    ensures { IfOk result (λ digits. digits.items ≡ spec.image_digits bytes.now) }
{
    let digest = Sha256::digest(bytes);
    let mut digits = Vec::new(alloc);
    let first = &digest[..8];
    for byte in first {
        digits.extend_from_slice(&byte_digits(*byte))?;
    }
    Ok(digits)
}

fn write_stretch<O: Output>(writer: &mut O, stretch: &Stretch) -> Result<(), WriteFault>
    ensures ok { OnOk result (Appends (O.written writer.old) (O.written writer.new) (spec.stretch_text stretch.now)) }
    ensures failed { O.has_failed writer.new ≡ (O.has_failed writer.old || is_err result) }
{
    let first = Decimal::new(stretch.first);
    let runs = Decimal::new(stretch.end.saturating_sub(stretch.first));
    put_pieces(
        writer,
        &[b" first ", first.as_bytes(), b" runs ", runs.as_bytes()],
    )
}

fn write_stretches<O: Output>(writer: &mut O, stretches: &[Stretch]) -> Result<(), WriteFault>
    ensures ok { OnOk result (Appends (O.written writer.old) (O.written writer.new)
        (flat_map spec.stretch_text stretches.now)) }
    ensures failed { O.has_failed writer.new ≡ (O.has_failed writer.old || is_err result) }
{
    for stretch in stretches {
        write_stretch(writer, stretch)?;
    }
    Ok(())
}

fn write_heading<O: Output>(writer: &mut O, heading: &Heading<'_>) -> Result<(), WriteFault>
    ensures ok { OnOk result (Appends (O.written writer.old) (O.written writer.new)
        (spec.heading_text heading.entry.now.image.now heading.entry.now.version.now heading.entry.now.seed)) }
    ensures failed { O.has_failed writer.new ≡ (O.has_failed writer.old || is_err result) }
{
    let seed = Decimal::new(heading.seed);
    put_pieces(
        writer,
        &[
            b"of ",
            heading.image,
            b" by ",
            heading.version,
            b" seed ",
            seed.as_bytes(),
        ],
    )
}

fn write_given<O: Output>(writer: &mut O, given: &[u8]) -> Result<(), WriteFault>
    ensures ok { OnOk result (Appends (O.written writer.old) (O.written writer.new) (given.now ++ 10 ∷ [])) }
    ensures failed { O.has_failed writer.new ≡ (O.has_failed writer.old || is_err result) }
{
    put_pieces(writer, &[given, b"\n"])
}

/// Writes the line of what a table is of.
#[tactic(auto, unfolding(crate::specs::Origin::origin_line))]
pub fn write_line<O: Output>(
    writer: &mut O,
    heading: &Heading<'_>,
    stretches: &[Stretch],
) -> Result<(), WriteFault>
    ensures ok { OnOk result (Appends (O.written writer.old) (O.written writer.new)
        (spec.last_line (Some (record {
          image = heading.entry.now.image.now;
          version = heading.entry.now.version.now;
          seed = heading.entry.now.seed;
          stretches = stretches.now;
          given = heading.entry.now.given.now;
        })))) }
    ensures failed { O.has_failed writer.new ≡ (O.has_failed writer.old || is_err result) }
{
    write_heading(writer, heading)?;
    write_stretches(writer, stretches)?;
    write_given(writer, heading.given)
}

/// Where the stretches end: the number behind their last run.
pub(crate) fn end_of(stretches: &[Stretch]) -> u64
    ensures { result ≡ spec.end_of stretches.now }
{
    match stretches.last() {
        None => 0,
        Some(last) => last.end,
    }
}

/// The number of the first run.
fn first_run(stretches: &[Stretch]) -> u64
    ensures { result ≡ spec.first_run stretches.now }
{
    match stretches.first() {
        None => 0,
        Some(first) => first.first,
    }
}

/// How many runs are in the stretches together, up to 2^64 - 1.
#[tactic(auto, using(std::proofs::lemmas::List::Sums::fold_more))]
fn runs_in(stretches: &[Stretch]) -> u64
    ensures { result ≡ spec.runs_of stretches.now }
{
    let mut runs = 0u64;
    for stretch in stretches {
        runs = runs.saturating_add(stretch.end.saturating_sub(stretch.first));
    }
    runs
}

/// So many runs from a number on.
pub fn stretch_on(first: u64, runs: u64) -> Stretch
    ensures { result ≡ spec.stretch_on first runs }
{
    Stretch {
        first,
        end: first.saturating_add(runs),
    }
}

/// Adds a stretch, which makes the last one longer where nothing is between them.
#[tactic(auto, unfolding(crate::specs::Origin::with_stretch))]
fn add_stretch(stretches: &mut Vec<Stretch>, stretch: Stretch) -> Result<(), NoMemory>
    ensures { OnOk result (stretches.new.items ≡ spec.with_stretch stretches.old.items stretch) }
{
    let last = stretches.last().copied();
    match last {
        Some(last) if last.end == stretch.first => {
            let _ = stretches.pop();
            stretches.push(Stretch {
                first: last.first,
                end: stretch.end,
            })?;
        }
        _ => stretches.push(stretch)?,
    }
    Ok(())
}

/// Adds stretches.
#[tactic(auto, unfolding(crate::specs::Origin::joined_stretches))]
fn add_stretches(stretches: &mut Vec<Stretch>, later: &[Stretch]) -> Result<(), NoMemory>
    ensures { OnOk result (stretches.new.items ≡ spec.joined_stretches stretches.old.items later.now) }
{
    for stretch in later {
        add_stretch(stretches, *stretch)?;
    }
    Ok(())
}

/// The words of a text that has a blank before each.
fn words_in<'a>(alloc: Global, text: &'a [u8]) -> Result<Vec<&'a [u8]>, NoMemory>
    ensures { IfOk result (λ words. map (λ word. word.now) words.items ≡ spec.words_in text.entry.now) }
{
    let mut words = Vec::new(alloc);
    let mut pieces = Pieces::of(text, b' ');
    // Nothing stands before the first blank.
    let _ = pieces.next_piece();
    while let Some(word) = pieces.next_piece() {
        words.push(word)?;
    }
    Ok(words)
}

impl Origin {
    /// What the parts of a line say.
    pub(crate) fn of(
        alloc: Global,
        heading: &Heading<'_>,
        stretches: Vec<Stretch>,
    ) -> Result<Origin, NoMemory>
        ensures { IfOk result (λ origin. origin ≡ record {
          image = heading.entry.now.image.now;
          version = heading.entry.now.version.now;
          seed = heading.entry.now.seed;
          stretches = stretches.items;
          given = heading.entry.now.given.now;
        }) }
    {
        let image = Vec::from_slice(alloc, heading.image)?;
        let version = Vec::from_slice(alloc, heading.version)?;
        let given = Vec::from_slice(alloc, heading.given)?;
        Ok(Origin {
            image,
            version,
            seed: heading.seed,
            stretches,
            given,
        })
    }

    /// All but the runs.
    fn heading(&self) -> Heading<'_>
        ensures image { result.image.now ≡ self.now.image }
        ensures version { result.version.now ≡ self.now.version }
        ensures seed { result.seed ≡ self.now.seed }
        ensures given { result.given.now ≡ self.now.given }
    {
        Heading {
            image: &self.image,
            version: &self.version,
            seed: self.seed,
            given: &self.given,
        }
    }

    /// Writes the line.
    pub(crate) fn write<O: Output>(&self, writer: &mut O) -> Result<(), WriteFault>
        ensures ok { OnOk result (Appends (O.written writer.old) (O.written writer.new)
            (spec.last_line (Some self.now))) }
        ensures failed { O.has_failed writer.new ≡ (O.has_failed writer.old || is_err result) }
    {
        write_line(writer, &self.heading(), &self.stretches)
    }

    /// The number of the first run.
    pub fn first_run(&self) -> u64
        ensures { result ≡ spec.first_run self.now.stretches }
    {
        first_run(&self.stretches)
    }

    /// In what a table is not of an image with these digits, or not by this version.
    #[tactic(auto, unfolding(crate::specs::Origin::other_than))]
    pub fn other_than(&self, image: &[u8], version: &[u8]) -> Option<TableKind>
        ensures { result ≡ spec.other_than image.now version.now self.now }
    {
        if self.image.as_slice() != image {
            Some(TableKind::Image)
        } else if self.version.as_slice() != version {
            Some(TableKind::Version)
        } else {
            None
        }
    }

    /// The seed.
    pub fn seed(&self) -> u64
        ensures { result ≡ self.now.seed }
    {
        self.seed
    }

    /// How many runs there are.
    pub fn runs(&self) -> u64
        ensures { result ≡ spec.runs_of self.now.stretches }
    {
        runs_in(&self.stretches)
    }

    /// The words of what was given of the runs.
    pub fn given_words(&self, alloc: Global) -> Result<Vec<&[u8]>, NoMemory>
        ensures { IfOk result (λ words. map (λ word. word.now) words.items ≡ spec.words_in self.now.given) }
    {
        words_in(alloc, &self.given)
    }

    /// Where the runs end: the number behind the last.
    pub(crate) fn end(&self) -> u64
        ensures { result ≡ spec.end_of self.now.stretches }
    {
        end_of(&self.stretches)
    }

    /// Whether runs between the first and the last are missing.
    pub(crate) fn has_gap(&self) -> bool
        ensures { result ≡ spec.has_gap self.now.stretches }
    {
        1 < self.stretches.len()
    }

    /// In what a table of the other origin is not one of the same hunt.
    #[tactic(auto, unfolding(crate::specs::Origin::unlike))]
    pub(crate) fn unlike(&self, other: &Origin) -> Option<TableKind>
        ensures { result ≡ spec.unlike self.now other.now }
    {
        if other.image.as_slice() != self.image.as_slice() {
            Some(TableKind::Image)
        } else if other.version.as_slice() != self.version.as_slice() {
            Some(TableKind::Version)
        } else if other.seed != self.seed || other.given.as_slice() != self.given.as_slice() {
            Some(TableKind::Options)
        } else {
            None
        }
    }

    /// Adds the runs of another.
    pub(crate) fn join(&mut self, later: &Origin) -> Result<(), NoMemory>
        ensures { OnOk result (self.new ≡ spec.joined_origin self.old later.now) }
    {
        add_stretches(&mut self.stretches, &later.stretches)
    }

    /// The same once more.
    pub(crate) fn copy(&self, alloc: Global) -> Result<Origin, NoMemory>
        ensures { IfOk result (λ origin. origin ≡ self.now) }
    {
        let stretches = Vec::from_slice(alloc, &self.stretches)?;
        Origin::of(alloc, &self.heading(), stretches)
    }
}
