//! Speed: where a fetch looks first. One comparison tells whether a word lies there.
ghost use Rattle.std.specs.Prelude.{◌≡◌, ◌+◌, ◌-◌, ◌<◌, ◌≤◌, ◌^◌, IfSome};

use crate::region::Region;

/// An executable region: its place, its start, and how many of the addresses from there on begin a word that lies in it.
/// Where they are 0, it is no region.
#[derive(Clone, Copy)]
pub(crate) struct Code {
    pub place: usize,
    pub start: u32,
    pub words: u32,
    pub ghost fits: { start + words < 2 ^ 32 },
}

impl Code {
    /// No region.
    pub fn none() -> Code
        ensures { result.words ≡ 0 }
    {
        Code {
            place: 0,
            start: 0,
            words: 0,
        }
    }

    /// A region's, whose place is told. No region ends past the last address, so the lesser of both is the first.
    pub fn at(place: usize, region: &Region) -> Code
        ensures place { result.place ≡ place }
        ensures start { result.start ≡ region.now.start }
        ensures words { 0 < result.words → result.words + 3 ≤ region.now.len }
    {
        Code {
            place,
            start: region.start,
            words: region.len.saturating_sub(3).min(u32::MAX - region.start),
        }
    }

    /// How far from the start the word at an address lies, if it lies in the region. An address before the start is too far,
    /// since the subtraction wraps.
    #[inline(always)]
    pub fn offset(&self, address: u32) -> Option<u32>
        ensures { IfSome result (λ offset. (self.now.start + offset ≡ address) × (offset < self.now.words)) }
    {
        let offset = address.wrapping_sub(self.start);
        if offset < self.words {
            Some(offset)
        } else {
            None
        }
    }
}
