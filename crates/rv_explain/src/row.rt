use rv_collide::entry::Entry;
use rv_hart::access::Access;

/// Whether a hart goes on after an entry.
#[derive(Clone, Copy)]
pub enum After {
    GoesOn,
    Exited,
    Stopped,
}

/// What is told of an entry. Of a step or a pause: the address of the hart's instruction, the word that memory had
/// there where it had all four bytes, and the access that the step made; whether the hart goes on; and the
/// report's bytes after the entry.
#[derive(Clone, Copy)]
pub struct Row {
    pub place: u32,
    pub entry: Entry,
    pub pc: u32,
    pub word: Option<u32>,
    pub access: Option<Access>,
    pub after: After,
    pub bytes: u32,
}

/// A line among the entries: one of them, or how many are left out and how many of those meet the bytes.
#[derive(Clone, Copy)]
pub enum Shown {
    Row(Row),
    Gap { entries: u32, meeting: u32 },
}
