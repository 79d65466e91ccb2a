use rv_collide::ending::Ending;

/// What a table keeps of the endings of one key: how many there were, up to 2^64 - 1, and the first of them
/// with the number of its run.
#[derive(Clone, Copy)]
pub struct Row {
    pub count: u64,
    pub run: u32,
    pub ending: Ending,
}
