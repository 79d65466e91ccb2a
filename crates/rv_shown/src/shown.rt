//! What is shown in full, as values: a race, the order of its accesses, a stuck end.
use rv_explain::block::Block;
use rv_explain::order::OrderTrials;
use rv_explain::stuck::StuckBlock;
use rv_report::key::Key;
use rv_search::stuck::StuckRow;
use rv_tables::orders::OrderRow;

/// A race that is shown in full: its block, and how many harts its run has.
#[derive(Drop)]
pub struct ShownRace {
    pub block: Block,
    pub harts: u8,
}

/// A trial that was made again: the block of its report, and what came of it. The block's second access is that of the hart that is first in the
/// first copy.
#[derive(Drop)]
pub struct MadeTrial {
    pub block: Block,
    pub order: OrderTrials,
}

/// What is shown of the order of a race: its trials, where it was tried, and the first by which some hart ended otherwise.
#[derive(Drop)]
pub struct ShownOrder {
    pub key: Key,
    pub row: Option<OrderRow>,
    pub made: Option<MadeTrial>,
}

/// A stuck end that is shown in full: how often and where it was met, whether each walk of the most harts ended so, how many entries
/// its schedule has, and its block.
#[derive(Drop)]
pub struct ShownStuck {
    pub row: StuckRow,
    pub is_every: bool,
    pub entries: usize,
    pub block: StuckBlock,
}

/// The stuck ends of a hunt: how many there are, and those that are shown in full.
#[derive(Drop)]
pub struct StuckEnds {
    pub count: usize,
    pub shown: Vec<ShownStuck>,
}
