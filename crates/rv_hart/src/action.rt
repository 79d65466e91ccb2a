use crate::hart::Cause;

/// The operation of an atomic memory operation (RISC-V Unprivileged ISA, "A" extension).
#[derive(Clone, Copy)]
pub enum Combine {
    Swap,
    Add,
    Xor,
    And,
    Or,
    Min,
    Max,
    MinUnsigned,
    MaxUnsigned,
}

/// What an instruction does, in nine kinds. A register is written where it is not x0; after all but a trap
/// and an exit the hart goes on, at the following word where no `next` is named.
#[derive(Clone, Copy)]
pub enum Action {
    /// The hart stops and changes nothing else.
    Trap(Cause),
    /// A register is set, and the hart goes on at `next`. Jumps and branches too.
    Set {
        rd: u8,
        value: u32,
        next: u32,
    },
    /// A register is set to `size` bytes from memory, sign-extended where `signed`.
    Load {
        rd: u8,
        address: u32,
        size: u8,
        signed: bool,
    },
    /// The low `size` bytes of the value go to memory.
    Store {
        address: u32,
        size: u8,
        value: u32,
    },
    /// LR.W: a register is set to the word, which is reserved.
    Reserve {
        rd: u8,
        address: u32,
    },
    /// SC.W: where the hart holds the word's reservation, the word is written.
    Conditional {
        rd: u8,
        address: u32,
        value: u32,
    },
    /// AMO: a register is set to the word, which is combined with the value.
    Replace {
        rd: u8,
        address: u32,
        combine: Combine,
        value: u32,
    },
    /// A byte goes to the output.
    Print(u8),
    /// The hart ends with a code.
    Exit(u32),
}
