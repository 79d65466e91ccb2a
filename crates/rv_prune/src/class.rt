/// What an ending counts as. All but `Kept` are counted apart from the races.
#[derive(Clone, Copy, Debug, PartialEq, Eq)]
pub enum Class {
    /// Its bytes were listed.
    Named,
    /// It read a flag, and the code does not look at the bits that changed.
    Flag,
    /// Two harts counted in memory.
    Counter,
    /// None of these: it is shown.
    Kept,
}
