//! The keys that a worker draws.
ghost use Rattle.std.specs.Prelude.{◌≡◌, ◌<◌, ◌≤◌};
ghost use Rattle.nr_load.specs.Drawn.{drawn, drawn_on, stream_of};

use rand_core::utils::NextWord;
use rand_pcg::Lcg64Xsh32;
use std::marker::Model;

/// The keys of one worker, drawn by a generator of its own.
#[derive(Drop)]
pub struct Draws {
    generator: Lcg64Xsh32,
    keys: u32,
}

impl Model for Draws {
    ghost use Rattle.std.specs.Prelude.{◌<◌};
    ghost use Rattle.nr_load.specs.Drawn.{DrawsSeen};

    ghost Value = { DrawsSeen };

    ghost view = { λ draws. record { generator = draws.generator; keys = draws.keys } };

    ghost invariant = { λ draws. 0 < draws.keys };
}

impl Draws {
    /// The draws of a worker: of the generator whose state is the seed and whose stream is the
    /// worker's number.
    #[tactic(auto, unfolding(crate::specs::Drawn::stream_of))]
    pub fn open(seed: u64, worker: u32, keys: u32) -> Draws
        requires { (0 < keys) × (keys ≤ 65536) }
        ensures generator { result.generator ≡ stream_of seed worker }
        ensures keys { result.keys ≡ keys }
    {
        Draws {
            generator: Lcg64Xsh32::new(seed, u64::from(worker)),
            keys,
        }
    }

    /// How many keys there are.
    pub fn keys(&self) -> u32
        ensures { result ≡ self.now.keys }
    {
        self.keys
    }

    /// The next key: the generator's next word, modulo the number of keys.
    #[tactic(auto, unfolding(crate::specs::Drawn::drawn, crate::specs::Drawn::drawn_on))]
    pub fn next(&mut self) -> u32
        ensures key { result ≡ drawn self.old.keys self.old.generator }
        ensures near { result < self.old.keys }
        ensures generator { self.new.generator ≡ drawn_on self.old.generator }
        ensures keys { self.new.keys ≡ self.old.keys }
    {
        self.generator.next_word() % self.keys
    }
}
