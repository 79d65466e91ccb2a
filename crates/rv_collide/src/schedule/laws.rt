//! What holds of the schedule's text. Each law is the contract of a function that does nothing else.

ghost use Rattle.rv_collide.specs.GrammarLaws.{ReadsTheGrammar, TextHasOneSchedule, ScheduleHasOneText, ScheduleHasText, LegalIsWritable};

use rv_text::laws::{
    decimal_has_one_spelling, decimal_is_read_back, decimal_lacks_separators, pieces_are_cut,
    word_is_read_back, word_lacks_separators,
};

/// The texts that are read are those of the grammar, as what they were written from.
pub fn reads_the_grammar()
    ensures { ReadsTheGrammar }
{
    decimal_is_read_back();
    decimal_lacks_separators();
    decimal_has_one_spelling();
    word_is_read_back();
    word_lacks_separators();
    pieces_are_cut();
}

/// A schedule has one spelling: a text is of one schedule at most, and a schedule has in each format one text at
/// most, and one where it can be written in it.
pub fn one_spelling()
    ensures text { TextHasOneSchedule }
    ensures schedule { ScheduleHasOneText }
    ensures some { ScheduleHasText }
{
    reads_the_grammar();
}

/// A legal schedule of a plan may be written: its harts and slots are ones that the text has, and its entries
/// are as many as the plan allows.
pub fn legal_is_writable()
    ensures { LegalIsWritable }
{}
