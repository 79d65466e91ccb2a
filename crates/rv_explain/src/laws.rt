//! What holds of reports as they are shown: the contract of a function that does nothing.
ghost use Rattle.rv_explain.specs.SecondLaws.{SecondIsExhibited};

/// The second access of a report is that of its exhibit: of a hit the first that conflicts, of a change the last that
/// writes the bytes.
pub fn second_is_exhibited()
    ensures { SecondIsExhibited }
{}
