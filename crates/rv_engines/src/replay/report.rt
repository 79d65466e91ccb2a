//! What is written of a run.
ghost use Rattle.std.specs.Prelude.{◌≡◌, ◌||◌, is_err, OnOk};
ghost use Rattle.std.specs.Io.KnownBytes.{Appends};
ghost use Rattle.rv_collide.specs.Stored.{setting_of};
ghost use Rattle.rv_collide.specs.Texts.{endings_text};
ghost use Rattle.rv_collide.specs.Verdict.{endings};
ghost use Rattle.rv_engines.specs.Replay as spec;

use rv_collide::collider::Collider;
use rv_collide::laws::one_ending_more;
use rv_collide::texts::write_ending;
use rv_hart::texts::write_state;
use rv_memory::flagged::WriteFault;
use rv_memory::flat::Flat;
use rv_memory::output::Output;

/// Writes a line of each ending, counted from 0.
#[tactic(auto, unfolding(rv_collide::specs::Texts::endings_text))]
fn write_endings<O: Output>(writer: &mut O, run: &Collider<Flat>) -> Result<(), WriteFault>
    ensures ok { OnOk result (Appends (O.written writer.old) (O.written writer.new)
        (endings_text (endings (setting_of run.now).start run.now.entries))) }
    ensures failed { O.has_failed writer.new ≡ (O.has_failed writer.old || is_err result) }
{
    one_ending_more();
    for n in 0..run.endings() {
        write_ending(writer, u64::from(n), &run.ending(n))?;
    }
    Ok(())
}

/// Writes the endings, and the harts and the output as they are at the end.
pub fn write_run<O: Output>(writer: &mut O, run: &Collider<Flat>) -> Result<(), WriteFault>
    ensures ok { OnOk result (spec.IsShown run.now (Appends (O.written writer.old) (O.written writer.new))) }
    ensures failed { O.has_failed writer.new ≡ (O.has_failed writer.old || is_err result) }
{
    run.facts();
    write_endings(writer, run)?;
    write_state(writer, run.machine())
}
