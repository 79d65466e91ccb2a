//! A schedule is written piece by piece, and takes no memory.
ghost use Rattle.std.specs.Prelude.{◌≡◌, ◌∷◌, [], ◌++◌, ◌||◌, is_err, OnOk};
ghost use Rattle.std.specs.Io.KnownBytes.{Appends};
ghost use Rattle.std.specs.List.{flat_map};
ghost use Rattle.rv_collide.specs.Grammar as spec;
ghost use Rattle.rv_collide.specs.Numbers.{numbers};

use crate::entry::Entry;
use crate::plan::Plan;
use crate::schedule::format::Format;
use rv_memory::flagged::WriteFault;
use rv_memory::output::{Output, put_pieces};
use rv_text::decimal::Decimal;
use rv_text::hexadecimal::word_digits;

#[tactic(auto, unfolding(crate::specs::Grammar::numbers_line))]
fn write_plan<O: Output>(writer: &mut O, plan: &Plan) -> Result<(), WriteFault>
    ensures ok { OnOk result (Appends (O.written writer.old) (O.written writer.new)
        (spec.plan_line Format.Second (numbers plan.now) ++ 10 ∷ [])) }
    ensures failed { O.has_failed writer.new ≡ (O.has_failed writer.old || is_err result) }
{
    let harts = Decimal::new(u64::from(plan.harts));
    let steps = Decimal::new(u64::from(plan.steps));
    put_pieces(
        writer,
        &[b"harts ", harts.as_bytes(), b" steps ", steps.as_bytes()],
    )?;
    let arms = Decimal::new(u64::from(plan.arms));
    let pause = Decimal::new(u64::from(plan.pause));
    put_pieces(
        writer,
        &[b" arms ", arms.as_bytes(), b" pause ", pause.as_bytes()],
    )?;
    let slots = Decimal::new(u64::from(plan.slots));
    put_pieces(writer, &[b" slots ", slots.as_bytes(), b"\n"])
}

/// Writes a slot's number, or `-` where there is none.
pub fn write_slot<O: Output>(writer: &mut O, slot: Option<u8>) -> Result<(), WriteFault>
    ensures ok { OnOk result (Appends (O.written writer.old) (O.written writer.new)
        (spec.slot_text slot)) }
    ensures failed { O.has_failed writer.new ≡ (O.has_failed writer.old || is_err result) }
{
    match slot {
        None => writer.put(b"-"),
        Some(slot) => writer.put(Decimal::new(u64::from(slot)).as_bytes()),
    }
}

/// Writes the line of an entry.
#[tactic(auto, unfolding(crate::specs::Grammar::entry_line))]
pub fn write_entry<O: Output>(writer: &mut O, entry: Entry) -> Result<(), WriteFault>
    ensures ok { OnOk result (Appends (O.written writer.old) (O.written writer.new)
        (spec.entry_line entry ++ 10 ∷ [])) }
    ensures failed { O.has_failed writer.new ≡ (O.has_failed writer.old || is_err result) }
{
    match entry {
        Entry::Stepped(hart) => {
            let number = Decimal::new(u64::from(hart));
            put_pieces(writer, &[b"s ", number.as_bytes(), b"\n"])
        }
        Entry::Paused(hart, slot) => {
            let number = Decimal::new(u64::from(hart));
            put_pieces(writer, &[b"p ", number.as_bytes(), b" "])?;
            write_slot(writer, slot)?;
            writer.put(b"\n")
        }
        Entry::Resumed(hart) => {
            let number = Decimal::new(u64::from(hart));
            put_pieces(writer, &[b"r ", number.as_bytes(), b"\n"])
        }
        Entry::Armed(address) => put_pieces(writer, &[b"a ", &word_digits(address), b"\n"]),
        Entry::Disarmed(address) => put_pieces(writer, &[b"d ", &word_digits(address), b"\n"]),
    }
}

fn write_entries<O: Output>(writer: &mut O, entries: &[Entry]) -> Result<(), WriteFault>
    ensures ok { OnOk result (Appends (O.written writer.old) (O.written writer.new)
        (flat_map (λ entry. spec.entry_line entry ++ 10 ∷ []) entries.now)) }
    ensures failed { O.has_failed writer.new ≡ (O.has_failed writer.old || is_err result) }
{
    for entry in entries {
        write_entry(writer, *entry)?;
    }
    Ok(())
}

/// Writes the text of a plan and its entries in format 2 (`specs/Grammar.antt`). The caller sees to it that the
/// entries' harts are at most 15 and their slots at most 7, and that there are at most
/// `plan.most_entries()` of them. It takes no memory.
pub fn write_schedule<O: Output>(
    plan: &Plan,
    entries: &[Entry],
    writer: &mut O,
) -> Result<(), WriteFault>
    requires { spec.IsWritable (numbers plan.now) entries.now }
    ensures ok { OnOk result (Appends (O.written writer.old) (O.written writer.new)
        (spec.schedule_text (numbers plan.now) entries.now)) }
    ensures failed { O.has_failed writer.new ≡ (O.has_failed writer.old || is_err result) }
{
    writer.put(b"rvcollide schedule 2\n")?;
    write_plan(writer, plan)?;
    write_entries(writer, entries)?;
    writer.put(b"end\n")
}
