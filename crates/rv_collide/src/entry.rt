//! The entries of the stored schedule.

/// What one accepted call of the core did.
#[derive(Clone, Copy, Debug, PartialEq, Eq)]
pub enum Entry {
    /// The hart made one step.
    Stepped(u8),
    /// The hart was paused at an armed address, in the slot if one was free; it made no step.
    Paused(u8, Option<u8>),
    /// The hart's pause ended.
    Resumed(u8),
    /// The address was armed.
    Armed(u32),
    /// The address was disarmed.
    Disarmed(u32),
}
