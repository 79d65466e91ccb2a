ghost use Rattle.std.specs.Prelude.{◌≡◌, ◌+◌, ◌<◌, ◌^◌};
ghost use Rattle.rv_sample.specs.Generator.{word_at};

use rand_core::utils::NextWord;
use rand_pcg::Lcg64Xsh32;
use std::marker::Model;

/// The generator of a seed and a stream, whose words are each given once, in their order.
#[derive(Drop)]
pub struct Generator {
    state: Lcg64Xsh32,
    seed: u64,
    stream: u64,
    taken: u64,
}

impl Model for Generator {
    ghost use Rattle.std.specs.Prelude.{◌≡◌};
    ghost use Rattle.rand_pcg.specs.Lcg.{advance};
    ghost use Rattle.rand_pcg.specs.Pcg.{multiplier_64};
    ghost use Rattle.rv_sample.specs.Generator.{Given, seeded};

    ghost Value = { Given };

    ghost view = { λ w. record { seed = w.seed; stream = w.stream; taken = w.taken } };

    ghost invariant = { λ w. w.state ≡ advance 64 multiplier_64 w.taken (seeded w.seed w.stream) };
}

impl Generator {
    /// The generator of a seed and a stream, before its first word.
    #[tactic(auto, unfolding(crate::specs::Generator::seeded), using(rand_pcg::proofs::LcgLemmas::advance_zero))]
    pub fn new(seed: u64, stream: u64) -> Generator
        ensures { result ≡ record { seed = seed; stream = stream; taken = 0 } }
    {
        Generator {
            state: Lcg64Xsh32::new(seed, stream),
            seed,
            stream,
            taken: 0,
        }
    }

    /// The next word. The caller sees to it that fewer than 2^64 - 1 were taken.
    pub fn next(&mut self) -> u32
        requires { self.old.taken + 1 < 2 ^ 64 }
        ensures word { result ≡ word_at self.old.seed self.old.stream self.old.taken }
        ensures after { self.new ≡ record self.old { taken = self.old.taken + 1 } }
    {
        self.taken += 1;
        self.state.next_word()
    }

    /// The word that `next` gives next, which is not taken by this. A word is made from the state alone, whatever the stream.
    #[inline(always)]
    #[tactic(auto, unfolding(crate::specs::Generator::word_at))]
    pub fn peek(&self) -> u32
        ensures { result ≡ word_at self.now.seed self.now.stream self.now.taken }
    {
        Lcg64Xsh32::from_state(self.state.state(), 0).next_word()
    }
}
