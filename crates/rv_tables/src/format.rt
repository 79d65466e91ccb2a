/// Whose table a text is.
#[derive(Clone, Copy)]
pub enum TableFormat {
    /// A hunt table: each row ends with the class of its race.
    Hunt,
    /// A table of `run`: its rows have no class and are of kept reports, and a line `pruned ..` is its last.
    Run,
}
