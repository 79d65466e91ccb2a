//! The engine of `hunt`: an image in, its races out.
//!
//! It reads an image, makes runs of it as long as it is told to, and writes what they saw: the races as people read them,
//! or as a table. What it writes is stated in `specs/engine/Hunting.antt`.
ghost use Rattle.std.specs.Prelude.{◌≡◌, ◌||◌, true, false, is_err, is_some, IfErr, IfOk, IfSome, OnOk};
ghost use Rattle.std.specs.Io.KnownBytes.{Appends, Keeps};
ghost use Rattle.rv_memory.specs.Buffered as buffer;
ghost use Rattle.rv_engines.specs.Campaigns.{passes};
ghost use Rattle.rv_shown.specs.Asked.{AreLegal, asked};
ghost use Rattle.rv_hunt.specs.engine.HuntFault.{IsTold, fails_by, is_of_files, is_read, is_write};
ghost use Rattle.rv_hunt.specs.engine.Hunting as spec;
ghost use Rattle.rv_hunt.specs.engine.Late.{IfListed, IfPaged, IfWritten};
ghost use Rattle.rv_hunt.specs.engine.Outputs.{AreUntouched, AreWantedAlike, one_failed};
ghost use Rattle.rv_remade.specs.Saved.{IfSaved};
ghost use Rattle.rv_search.specs.RightEnds.{right_codes};
ghost use Rattle.rv_hunt.specs.internal.Opened.{hunt_in, hunting_with, texts_in};

use crate::engine::fault::HuntFault;
use crate::engine::inputs::Inputs;
use crate::engine::lists::{Lists, read_ignored, read_known};
use crate::engine::making::{Made, make_hunt};
use crate::engine::opening::{Opened, open};
use crate::engine::outputs::Outputs;
use rv_engines::new_file::NewFile;
use rv_faults::source_lines::read_source_if;
use rv_memory::buffered::Buffered;
use rv_memory::flagged::WriteFault;
use rv_memory::output::Output;
use rv_remade::folder::Folder;
use rv_search::hunt::Watch;
use rv_shown::found::Found;
use rv_shown::options::HuntOptions;
use std::alloc::Global;
use std::io::{Read, Write};
use std::sync::Wait;
use std::thread::Threads;

pub mod fault;
pub mod inputs;
mod keeping;
mod lists;
mod making;
mod meetings;
mod opening;
pub mod outputs;
pub mod remaking;
pub mod show;
mod survey;
mod table_text;
mod tabled;

/// Writes the notes to their last byte, and then the text.
fn publish<W: Write, E: Write>(
    made: &Made,
    writer: &mut Buffered<W>,
    notes: &mut Buffered<E>,
) -> Result<(), WriteFault>
    ensures text { OnOk result (Appends (buffer.written W.contents writer.old) (buffer.sent W.contents writer.new) made.now.text.items) }
    ensures notes { OnOk result (Appends (buffer.written E.contents notes.old) (buffer.sent E.contents notes.new) made.now.notes.items) }
    ensures first { buffer.has_failed notes.old ≡ false → buffer.has_failed notes.new ≡ true
        → Keeps (buffer.sent W.contents writer.old) (buffer.sent W.contents writer.new) }
    ensures writers { (buffer.has_failed notes.new || buffer.has_failed writer.new)
        ≡ (buffer.has_failed notes.old || buffer.has_failed writer.old || is_err result) }
{
    notes.put(&made.notes)?;
    notes.finish()?;
    writer.put(&made.text)?;
    writer.finish()
}

/// Reads the image with the lists of the line, looks for what is aimed at, and reads the source lines and the lists of files.
fn read<'a, R: Read>(
    alloc: Global,
    options: &HuntOptions<'a, '_>,
    inputs: &mut Inputs<R>,
) -> Result<(Opened, Lists), HuntFault<'a>>
    ensures ok { IfOk result (λ read. IfSome (spec.files_of R.remaining inputs.old) (λ files.
        spec.IsHuntingOf (asked options.now) files (hunting_with (hunt_in (asked options.now) read.0) read.0.digits.items (right_codes (asked options.now).right) read.1))) }
    ensures err { IfErr result (λ fault. IfSome (spec.files_of R.remaining inputs.old) (λ files.
        IsTold (asked options.now) files fault)) }
    ensures readers { spec.any_failed inputs.new ≡ (spec.any_failed inputs.old || fails_by is_read result) }
    ensures writer { fails_by is_write result ≡ false }
{
    let (opened, aim) = match open(alloc, options, &mut inputs.image) {
        Ok(read) => read,
        Err(fault) => return Err(fault),
    };
    let source = match read_source_if(alloc, &mut inputs.lines) {
        Ok(source) => source,
        Err(fault) => return Err(HuntFault::Lines(fault)),
    };
    let ignored = match read_ignored(alloc, &opened.image, &source, &mut inputs.ignored) {
        Ok(ignored) => ignored,
        Err(fault) => return Err(HuntFault::Ignored(fault)),
    };
    let lists = match read_known(alloc, &mut inputs.expected) {
        Ok(expected) => Lists {
            source,
            ignored,
            expected,
            aim,
            built: opened.built,
        },
        Err(fault) => return Err(HuntFault::Expected(fault)),
    };
    Ok((opened, lists))
}

/// Reads the image and the lists, looks at the folder, and makes the runs of a hunt, the schedules of the races that are told,
/// the page, the list of the races, what was found as JSON, and the texts of what the runs saw.
fn make<'a, T: Threads + Wait + Sync, R: Read, D: Folder, F: NewFile, P: Watch>(
    rt: &T,
    alloc: Global,
    options: &HuntOptions<'a, '_>,
    inputs: &mut Inputs<R>,
    outputs: &mut Outputs<D, F>,
    watch: &mut P,
) -> Result<Made, HuntFault<'a>>
    requires { AreLegal options.now }
    ensures made { IfOk result (λ made. IfSome (spec.files_of R.remaining inputs.old) (λ files.
        (hunting : spec.Hunting) × spec.IsHuntingOf (asked options.now) files hunting
        × spec.IsMade (spec.showing_of options.now (is_some outputs.old.folder) (is_some outputs.old.page || is_some outputs.old.json)) hunting
        (IfSaved D.has_failed D.Holds outputs.new.folder) (IfPaged F.has_failed F.Holds outputs.new.page) (IfListed F.has_failed F.Holds outputs.new.list) (IfWritten F.has_failed F.Holds outputs.new.json)
        made.found (texts_in made))) }
    ensures wanted { AreWantedAlike outputs.old outputs.new }
    ensures refused { IfErr result (λ fault. IfSome (spec.files_of R.remaining inputs.old) (λ files.
        IsTold (asked options.now) files fault)) }
    ensures untouched { IfErr result (λ fault. is_of_files fault ≡ true
        → AreUntouched D.is_used F.is_made outputs.old outputs.new) }
    ensures readers { spec.any_failed inputs.new ≡ (spec.any_failed inputs.old || fails_by is_read result) }
    ensures files { fails_by is_write result ≡ true
        → one_failed D.has_failed F.has_failed outputs.new ≡ true }
{
    let read = match read(alloc, options, inputs) {
        Ok(read) => read,
        Err(fault) => return Err(fault),
    };
    let (opened, lists) = &read;
    let made = make_hunt(rt, alloc, options, opened, lists, outputs, watch);
    // Let go here, once for both outcomes.
    drop(read);
    match made {
        Ok(made) => Ok(made),
        Err(fault) => Err(HuntFault::Command(fault.as_command())),
    }
}

/// Reads the image and the lists, looks at the folder, makes the runs of a hunt, the schedules of the races that are told,
/// the page, the list of the races and what was found as JSON, and writes what the runs saw. `notes` is the standard error: it has got all of the notes before the first byte
/// of the text is written. Where a file or a list is refused, or the folder, the page, the list or the JSON can't be made, nothing is made or
/// written. A file that fails after the runs has it noted: all others are made, and the text is written.
pub fn run_hunt<
    'a,
    T: Threads + Wait + Sync,
    R: Read,
    D: Folder,
    F: NewFile,
    W: Write,
    E: Write,
    P: Watch,
>(
    rt: &T,
    alloc: Global,
    options: &HuntOptions<'a, '_>,
    inputs: &mut Inputs<R>,
    outputs: &mut Outputs<D, F>,
    writer: &mut Buffered<W>,
    notes: &mut Buffered<E>,
    watch: &mut P,
) -> Result<Found, HuntFault<'a>>
    requires { AreLegal options.now }
    ensures told { IfOk result (λ found. IfSome (spec.files_of R.remaining inputs.old) (λ files.
        (hunting : spec.Hunting) × spec.IsHuntingOf (asked options.now) files hunting
        × spec.IsTold (spec.showing_of options.now (is_some outputs.old.folder) (is_some outputs.old.page || is_some outputs.old.json)) hunting found
        (Appends (buffer.written W.contents writer.old) (buffer.sent W.contents writer.new))
        (Appends (buffer.written E.contents notes.old) (buffer.sent E.contents notes.new))
        (IfSaved D.has_failed D.Holds outputs.new.folder) (IfPaged F.has_failed F.Holds outputs.new.page) (IfListed F.has_failed F.Holds outputs.new.list) (IfWritten F.has_failed F.Holds outputs.new.json))) }
    ensures wanted { AreWantedAlike outputs.old outputs.new }
    ensures refused { IfErr result (λ fault. IfSome (spec.files_of R.remaining inputs.old) (λ files.
        IsTold (asked options.now) files fault)) }
    ensures nothing { IfErr result (λ fault. is_write fault ≡ false
        → Keeps (buffer.sent W.contents writer.old) (buffer.sent W.contents writer.new)) }
    ensures no_notes { IfErr result (λ fault. is_write fault ≡ false
        → Keeps (buffer.sent E.contents notes.old) (buffer.sent E.contents notes.new)) }
    ensures untouched { IfErr result (λ fault. is_of_files fault ≡ true
        → AreUntouched D.is_used F.is_made outputs.old outputs.new) }
    ensures first { buffer.has_failed notes.old ≡ false → buffer.has_failed notes.new ≡ true
        → Keeps (buffer.sent W.contents writer.old) (buffer.sent W.contents writer.new) }
    ensures looked { fails_by is_write result ≡ true
        → (buffer.has_failed notes.new || buffer.has_failed writer.new) ≡ false
        → Keeps (buffer.sent W.contents writer.old) (buffer.sent W.contents writer.new) }
    ensures readers { spec.any_failed inputs.new ≡ (spec.any_failed inputs.old || fails_by is_read result) }
    ensures writers { fails_by is_write result ≡ true
        → (one_failed D.has_failed F.has_failed outputs.new
        || (buffer.has_failed notes.new || buffer.has_failed writer.new)) ≡ true }
    ensures streams { (buffer.has_failed notes.old || buffer.has_failed writer.old) ≡ false
        → (buffer.has_failed notes.new || buffer.has_failed writer.new) ≡ true
        → fails_by is_write result ≡ true }
{
    let made = match make(rt, alloc, options, inputs, outputs, watch) {
        Ok(made) => made,
        Err(fault) => return Err(fault),
    };
    watch.ends();
    match publish(&made, writer, notes) {
        Ok(()) => Ok(made.found),
        Err(fault) => Err(HuntFault::from(fault)),
    }
}
