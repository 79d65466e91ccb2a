//! What holds of the runs of hunts. The law is the contract of a function that does nothing.
ghost use Rattle.rv_search.specs.HuntedLaws.{OneResult, PiecesAreWhole, RowsAreTold};

use rv_drive::driver_laws::seeded_runs;
use rv_tables::laws::pieces_are_merged;

/// What is asked of a hunt of sampled runs determines what it sees; the tables of a hunt's pieces make the table of the whole; and each
/// row of its table is told by a report of the run that the row names.
pub fn hunts_have_one_result()
    ensures one { OneResult }
    ensures pieces { PiecesAreWhole }
    ensures told { RowsAreTold }
{
    seeded_runs();
    pieces_are_merged();
}
