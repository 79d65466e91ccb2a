/// What an object says of the line: the path of the image as it was given, and the version of the program.
#[derive(Clone, Copy)]
pub struct About<'a> {
    pub path: &'a str,
    pub version: &'a str,
}

/// The options of `explain`.
#[derive(Clone, Copy)]
pub struct ExplainOptions<'a> {
    /// Symbols, separated by commas, whose bytes' races are told as named.
    pub named: Option<&'a str>,
    /// How many entries are told before and after each place.
    pub around: u32,
    /// The number of the one race that is told, from 1 on; without it all are.
    pub race: Option<u64>,
}
