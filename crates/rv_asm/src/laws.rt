//! What holds of every line, listed or assembled. Each law is the contract of a function that does nothing.
ghost use Rattle.rv_asm.specs.Laws.{EachLineStands, EachSymbolEnds, EachWordIsDecoded, EveryWordIsReadBack};

use rv_isa::laws::{functions_of_the_table, ranges_by_field};
use rv_text::laws::word_is_read_back;

/// Every word's line, at every address, is read as the word.
pub fn every_word_is_read_back()
    ensures { EveryWordIsReadBack }
{
    word_is_read_back();
    functions_of_the_table();
    ranges_by_field();
}

/// In a source without a fault the bytes of each line stand at the line's own address.
pub fn each_line_stands()
    ensures { EachLineStands }
{}

/// In a source without a fault each symbol ends where the least label above it in its section stands, wherever that
/// is defined, or else where the section ends.
pub fn each_symbol_ends()
    ensures { EachSymbolEnds }
{}

/// The word of each instruction is decoded as that instruction.
pub fn each_word_is_decoded()
    ensures { EachWordIsDecoded }
{
    functions_of_the_table();
}
