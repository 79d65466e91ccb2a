//! The two sides of a report.
ghost use Rattle.std.specs.Prelude.{◌≡◌, ◌≤◌, Some, IfOk, length};
ghost use Rattle.rv_debug.specs.Placed.{moved};
ghost use Rattle.rv_explain.specs.BlockOf as spec;
ghost use Rattle.rv_races.specs.Races.{run_of};

use crate::block::Side;
use crate::caller::caller_in;
use crate::walk::go_to;
use rv_break::claim::Seen;
use rv_debug::session::Session;
use rv_debug::word::word_at;
use rv_hart::machine::Machine;
use rv_memory::paged::Paged;
use rv_memory::store::NoMemory;
use rv_symbols::symbol_table::SymbolTable;

/// A side in the state of a machine.
#[tactic(auto, unfolding(crate::specs::BlockOf::side_in))]
fn side_in(symbols: &SymbolTable, machine: &Machine<Paged>, seen: &Seen) -> Side
    ensures { result ≡ spec.side_in symbols.now.image seen.now.hart seen.now.access (Some machine.now.state) }
{
    Side {
        hart: seen.hart,
        access: seen.access,
        word: word_at(machine, seen.access.pc),
        caller: caller_in(symbols, machine, seen.hart, seen.access.pc),
    }
}

/// The side of a hart at a place, before what happens there.
pub(crate) fn side_at(
    session: &mut Session,
    symbols: &SymbolTable,
    seen: &Seen,
) -> Result<Side, NoMemory>
    requires image { session.old.image ≡ symbols.now.image }
    requires within { seen.now.place ≤ length session.old.entries }
    ensures side { IfOk result (λ side. side
        ≡ spec.side (run_of session.old) seen.now.place seen.now.hart seen.now.access) }
    ensures same { session.new ≡ moved session.old session.new.place }
{
    go_to(session, seen.place)?;
    Ok(side_in(symbols, session.machine(), seen))
}
