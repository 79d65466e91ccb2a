ghost use Rattle.std.specs.Prelude.{◌≡◌, IfOk, length};
ghost use Rattle.rv_sample.specs.Sites.{sites, picked};

use crate::scan::scanned;
use rv_elf::Image;
use rv_memory::store::NoMemory;
use std::alloc::Global;
use std::marker::Model;

/// The sites of an image in ascending order, each once.
#[derive(Drop)]
pub struct Sampler {
    sites: Vec<u32>,
}

impl Model for Sampler {
    ghost use Rattle.std.specs.Prelude.{ℕ, List};

    ghost Value = { List ℕ };

    ghost view = { λ s. s.sites.items };
}

impl Sampler {
    /// The sampler of an image's sites: the addresses, multiples of 4, of whole words within the file bytes
    /// of segments that may be executed, that are plain loads or stores, without the excluded ones.
    pub fn sites(alloc: Global, image: &Image, excluded: &[u32]) -> Result<Sampler, NoMemory>
        ensures { IfOk result (λ s. s ≡ sites image.now excluded.now) }
    {
        Ok(Sampler {
            sites: scanned(alloc, image, excluded)?,
        })
    }

    /// How many sites there are.
    pub fn len(&self) -> usize
        ensures { result ≡ length self.now }
    {
        self.sites.len()
    }

    /// The site that a word picks: the one at index word modulo their count, or None where there is none.
    pub fn pick(&self, word: u32) -> Option<u32>
        ensures { result ≡ picked self.now word }
    {
        let count = self.sites.len();
        if count == 0 {
            return None;
        }
        Some(self.sites[word as usize % count])
    }
}
