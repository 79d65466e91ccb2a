//! Why a call is refused.
use thiserror::Error;

/// Why a call of the core is refused. A turn is refused by NoHart, NotRunning, Paused, StepsSpent, NoMemory,
/// tested in this order; a resumption by NoHart, NotPaused; an arming by ArmsSpent, Misaligned,
/// AlreadyArmed, ArmedFull; a disarming by NotArmed. Each is told by its name.
#[derive(Clone, Copy, Debug, PartialEq, Eq, Error)]
pub enum Refused {
    /// There is no hart of the number.
    #[error("NoHart")]
    NoHart,
    /// The hart exited or stopped.
    #[error("NotRunning")]
    NotRunning,
    /// The hart is paused.
    #[error("Paused")]
    Paused,
    /// The plan's steps have been made.
    #[error("StepsSpent")]
    StepsSpent,
    /// The hart is not paused.
    #[error("NotPaused")]
    NotPaused,
    /// The plan's addresses have been armed.
    #[error("ArmsSpent")]
    ArmsSpent,
    /// The address is no multiple of 4.
    #[error("Misaligned")]
    Misaligned,
    /// The address is armed.
    #[error("AlreadyArmed")]
    AlreadyArmed,
    /// As many addresses are armed as can be at once.
    #[error("ArmedFull")]
    ArmedFull,
    /// The address is not armed.
    #[error("NotArmed")]
    NotArmed,
    /// The store was refused memory.
    #[error("NoMemory")]
    NoMemory,
}
