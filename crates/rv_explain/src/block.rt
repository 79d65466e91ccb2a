use crate::row::Shown;
use rv_collide::ending::Ending;
use rv_hart::access::Access;
pub use rv_races::classes::RaceClass;

/// One of the two accesses of a report: its hart, the access, the word that memory had at its instruction's
/// address, and where the function returns to, where that is certain.
#[derive(Clone, Copy)]
pub struct Side {
    pub hart: u8,
    pub access: Access,
    pub word: Option<u32>,
    pub caller: Option<u32>,
}

/// What is told of a race: how many reports it has, and one of them. That is the ending `number` of its run, with
/// what the paused hart was about to do, what the other hart did at the place `second`, and the lines around them.
#[derive(Drop)]
pub struct Block {
    pub reports: u64,
    pub class: RaceClass,
    pub number: u32,
    pub ending: Ending,
    pub paused: Side,
    pub other: Side,
    pub second: u32,
    pub lines: Vec<Shown>,
}
