//! What holds of texts: numbers and lines that are written are read back, a number has one
//! spelling, and its digits hold no separator. Each law is the contract of a function that does nothing.

ghost use Rattle.rv_text.specs.Hexadecimal.{WordIsReadBack, WordHasOneSpelling, WordLacksSeparators};
ghost use Rattle.rv_text.specs.Decimal.{DecimalIsReadBack, DecimalHasOneSpelling, DecimalLacksSeparators};
ghost use Rattle.rv_text.specs.Lines.{LinesAreReadBack};
ghost use Rattle.rv_text.specs.Pieces.{PiecesAreCut};

/// A word's eight digits are read as that word.
pub fn word_is_read_back()
    ensures { WordIsReadBack }
{}

/// Eight digits without a capital letter are those of the word that they are read as.
pub fn word_has_one_spelling()
    ensures { WordHasOneSpelling }
{}

/// A number's decimal digits are read as that number.
pub fn decimal_is_read_back()
    ensures { DecimalIsReadBack }
{}

/// A text that is read as a number is the number's decimal digits.
pub fn decimal_has_one_spelling()
    ensures { DecimalHasOneSpelling }
{}

/// Lines without an LF, written with one after each, are the lines of that text.
pub fn lines_are_read_back()
    ensures { LinesAreReadBack }
{}

/// In the eight digits of a word stands no blank and no LF, nor another byte below the digit 0.
pub fn word_lacks_separators()
    ensures { WordLacksSeparators }
{}

/// In the decimal digits of a number stands no blank and no LF, nor another byte below the digit 0.
pub fn decimal_lacks_separators()
    ensures { DecimalLacksSeparators }
{}

/// The first piece of a text ends at the first separator, and a text without one is one piece.
pub fn pieces_are_cut()
    ensures { PiecesAreCut }
{}
