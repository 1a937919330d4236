// The random words of a seed.
ghost use Rattle.std.specs.Prelude.{◌≡◌, ◌<◌, ◌+◌, ◌-◌, ◌^◌, min};
ghost use Rattle.altq_model.specs.History.{DrawnWords};
ghost use Rattle.leaf_queue.specs.Words.{word, IsDrawn};

use rand_pcg::Lcg64Xsh32;
use rand_pcg::rand_core::utils::NextWord;
use std::marker::Model;

/// The stream of the generator, which is the same for every seed.
const STREAM: u64 = 54;

/// The random words of a seed, each of 32 bits: those of the generator PCG XSH RR 64/32 (O'Neill 2014) that begins at the seed,
/// on stream 54. Contracts see the seed and the count of words drawn. None of the calls takes memory or refuses; each takes
/// constant time.
#[derive(Drop)]
pub struct Words {
    seed: u64,
    drawn: u64,
    generator: Lcg64Xsh32,
}

impl Model for Words {
    ghost Value = { DrawnWords };

    ghost view = { λ w. record { seed = w.seed; drawn = w.drawn } };

    ghost invariant = { λ w. IsDrawn w.seed w.drawn w.generator };
}

impl Words {
    /// The random words of this seed, of which none is drawn yet.
    pub fn new(seed: u64) -> Words
        ensures { result ≡ record { seed = seed; drawn = 0 } }
    {
        Words {
            seed,
            drawn: 0,
            generator: Lcg64Xsh32::new(seed, STREAM),
        }
    }

    /// Draws the next word, the one after the `drawn` before it: this is known as long as the count is below 2^64 - 1, where it
    /// stays.
    pub fn next(&mut self) -> u32
        ensures word { self.old.drawn < 2 ^ 64 - 1 → result ≡ word self.old.seed self.old.drawn }
        ensures seed { self.new.seed ≡ self.old.seed }
        ensures drawn { self.new.drawn ≡ min (self.old.drawn + 1) (2 ^ 64 - 1) }
    {
        self.drawn = self.drawn.saturating_add(1);
        self.generator.next_word()
    }

    /// How many words were drawn. The count stays at 2^64 - 1 once it is there.
    pub fn drawn(&self) -> u64
        ensures { result ≡ self.now.drawn }
    {
        self.drawn
    }
}
