//! The text that endings, and a run that is over, are shown in. It is written piece by piece and takes no memory.
ghost use Rattle.std.specs.Prelude.{◌≡◌, ◌∷◌, [], ◌++◌, ◌||◌, is_err, OnOk};
ghost use Rattle.std.specs.Io.KnownBytes.{Appends};
ghost use Rattle.rv_collide.specs.Texts as spec;

use crate::collider::Finished;
use crate::ending::{Ending, Verdict};
use crate::entry::Entry;
use crate::schedule::writing::write_slot;
use rv_break::claim::Seen;
use rv_hart::texts::write_access;
use rv_memory::flagged::WriteFault;
use rv_memory::output::{Output, put_pieces};
use rv_text::decimal::Decimal;
use rv_text::hexadecimal::word_digits;

fn write_seen<O: Output>(writer: &mut O, seen: &Seen) -> Result<(), WriteFault>
    ensures ok { OnOk result (Appends (O.written writer.old) (O.written writer.new) (spec.seen_text seen.now)) }
    ensures failed { O.has_failed writer.new ≡ (O.has_failed writer.old || is_err result) }
{
    let place = Decimal::new(u64::from(seen.place));
    let hart = Decimal::new(u64::from(seen.hart));
    put_pieces(
        writer,
        &[b"hit ", place.as_bytes(), b" hart ", hart.as_bytes(), b" "],
    )?;
    write_access(writer, &seen.access)
}

fn write_verdict<O: Output>(writer: &mut O, verdict: &Verdict) -> Result<(), WriteFault>
    ensures ok { OnOk result (Appends (O.written writer.old) (O.written writer.new) (spec.verdict_text verdict.now)) }
    ensures failed { O.has_failed writer.new ≡ (O.has_failed writer.old || is_err result) }
{
    match verdict {
        Verdict::Hit(seen) => write_seen(writer, seen),
        Verdict::Changed => writer.put(b"changed"),
        Verdict::Quiet => writer.put(b"quiet"),
    }
}

/// Writes what was paused.
fn write_pause<O: Output>(writer: &mut O, number: u64, ending: &Ending) -> Result<(), WriteFault>
    ensures ok { OnOk result (Appends (O.written writer.old) (O.written writer.new) (spec.pause_text number ending.now)) }
    ensures failed { O.has_failed writer.new ≡ (O.has_failed writer.old || is_err result) }
{
    let number = Decimal::new(number);
    let hart = Decimal::new(u64::from(ending.hart));
    put_pieces(
        writer,
        &[
            b"ending ",
            number.as_bytes(),
            b" hart ",
            hart.as_bytes(),
            b" ",
        ],
    )?;
    write_access(writer, &ending.access)
}

fn write_values<O: Output>(writer: &mut O, old: u32, new: u32) -> Result<(), WriteFault>
    ensures ok { OnOk result (Appends (O.written writer.old) (O.written writer.new) (spec.values_text old «new»)) }
    ensures failed { O.has_failed writer.new ≡ (O.has_failed writer.old || is_err result) }
{
    put_pieces(
        writer,
        &[b" old ", &word_digits(old), b" new ", &word_digits(new)],
    )
}

/// Writes the line of the ending with that number.
#[tactic(auto, unfolding(crate::specs::Texts::ending_line))]
pub fn write_ending<O: Output>(
    writer: &mut O,
    number: u64,
    ending: &Ending,
) -> Result<(), WriteFault>
    ensures ok { OnOk result (Appends (O.written writer.old) (O.written writer.new)
        (spec.ending_line number ending.now ++ 10 ∷ [])) }
    ensures failed { O.has_failed writer.new ≡ (O.has_failed writer.old || is_err result) }
{
    write_pause(writer, number, ending)?;
    writer.put(b" slot ")?;
    write_slot(writer, ending.slot)?;
    writer.put(b" ")?;
    write_verdict(writer, &ending.verdict)?;
    write_values(writer, ending.old, ending.new)?;
    writer.put(b"\n")
}

/// Writes a line of each ending, counted from 0.
#[tactic(auto, unfolding(crate::specs::Texts::endings_text))]
pub fn write_endings<O: Output>(writer: &mut O, endings: &[Ending]) -> Result<(), WriteFault>
    ensures ok { OnOk result (Appends (O.written writer.old) (O.written writer.new) (spec.endings_text endings.now)) }
    ensures failed { O.has_failed writer.new ≡ (O.has_failed writer.old || is_err result) }
{
    for (number, ending) in endings.iter().enumerate() {
        write_ending(writer, number as u64, ending)?;
    }
    Ok(())
}

/// Whether the entry is a turn of a hart: its step, or its pause.
fn is_turn(entry: &Entry) -> bool
    ensures { result ≡ spec.is_turn entry.now }
{
    matches!(entry, Entry::Stepped(_) | Entry::Paused(..))
}

/// Writes the line with the number of turns.
fn write_turns<O: Output>(writer: &mut O, entries: &[Entry]) -> Result<(), WriteFault>
    ensures ok { OnOk result (Appends (O.written writer.old) (O.written writer.new)
        (spec.turns_line entries.now ++ 10 ∷ [])) }
    ensures failed { O.has_failed writer.new ≡ (O.has_failed writer.old || is_err result) }
{
    let turns = entries.iter().filter(|entry| is_turn(entry)).count();
    let turns = Decimal::new(turns as u64);
    put_pieces(writer, &[b"turns ", turns.as_bytes(), b"\n"])
}

/// Writes what a run leaves: a line of each ending, counted from 0, and the number of turns that its harts took.
#[tactic(auto, unfolding(crate::specs::Texts::finished_text))]
pub fn write_finished<O: Output>(writer: &mut O, told: &Finished) -> Result<(), WriteFault>
    ensures ok { OnOk result (Appends (O.written writer.old) (O.written writer.new) (spec.finished_text told.now)) }
    ensures failed { O.has_failed writer.new ≡ (O.has_failed writer.old || is_err result) }
{
    write_endings(writer, &told.endings)?;
    write_turns(writer, &told.entries)
}
