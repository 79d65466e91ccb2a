//! What holds of hunt tables. Each law is the contract of a function that does nothing.
ghost use Rattle.rv_tables.specs.HuntLaws.{OriginsAreJoined, PiecesAreMerged, RacesAreApart, TableIsKept, TwoAreMerged};
ghost use Rattle.rv_tables.specs.HuntReadLaws.{TablesAreReadBack};
ghost use Rattle.rv_tables.specs.merge.KnownLaws.{TablesAreExpectedAlike};

use rv_text::laws::{
    decimal_is_read_back, decimal_lacks_separators, pieces_are_cut, word_is_read_back,
    word_lacks_separators,
};

/// Tables of the pieces of a list of rows, merged in the order of the pieces, are the table of the whole list.
pub fn pieces_are_merged()
    ensures all { PiecesAreMerged }
    ensures two { TwoAreMerged }
    ensures one { TableIsKept }
{}

/// A table has one row of each race.
pub fn races_are_apart()
    ensures { RacesAreApart }
{}

/// What the rows of two pieces are of, joined, is what those of the whole are of.
pub fn origins_are_joined()
    ensures { OriginsAreJoined }
{}

/// What is expected by a table is the same to `hunt` and to `merge`.
pub fn tables_are_expected_alike()
    ensures { TablesAreExpectedAlike }
{}

/// A table that is written is read back: so tables of pieces that are merged from their files are the table of the whole, too.
pub fn tables_are_read_back()
    ensures { TablesAreReadBack }
{
    decimal_is_read_back();
    decimal_lacks_separators();
    word_is_read_back();
    word_lacks_separators();
    pieces_are_cut();
}
