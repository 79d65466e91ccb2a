//! What holds of the input of `words` beyond what one reading says.

ghost use Rattle.rv_words.specs.StepsLaw.{StepsAreTheRun};
ghost use Rattle.rv_words.specs.WordsText.{InputIsReadBack};

use rv_text::laws::{
    decimal_is_read_back, decimal_lacks_separators, lines_are_read_back, pieces_are_cut,
    word_is_read_back, word_lacks_separators,
};

/// An input that is written, line by line, is what that text says.
pub fn input_is_read_back()
    ensures { InputIsReadBack }
{
    decimal_is_read_back();
    decimal_lacks_separators();
    word_is_read_back();
    word_lacks_separators();
    lines_are_read_back();
    pieces_are_cut();
}

/// The steps that `words` makes are the run of their harts, step by step as the machine's relation has it.
pub fn steps_are_the_run()
    ensures { StepsAreTheRun }
{}
