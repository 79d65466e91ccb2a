/// What an instruction is to the order of accesses.
#[derive(Clone, Copy)]
pub enum Role {
    /// LR, SC or an AMO.
    Atomic,
    /// A plain store with a fence in front of it, as a release is compiled.
    Release,
    /// A plain load with a fence behind it, as an acquire is compiled, or one that a loop waits on until it acquires.
    Acquire,
    /// Another plain load.
    Load,
    /// Another plain store, or no access.
    Plain,
}
