//! What is told of a JSON text beside its tokens: members by their names, each with a value that contracts know.

/// An object or an array that begins.
#[derive(Clone, Copy)]
pub enum Begun {
    Object,
    Array,
}

/// A value that is told: that an object or an array begins, a number, a word of 32 bits in eight digits, a word of a fixed set, or that
/// there is nothing.
#[derive(Clone, Copy)]
pub enum Told {
    Begins(Begun),
    Number(u64),
    Digits(u32),
    Word(&'static str),
    Nothing,
}

/// A member that is told: its name and its value.
#[derive(Clone, Copy)]
pub struct Fact {
    pub name: &'static str,
    pub value: Told,
}
