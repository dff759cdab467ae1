//! A generator of random numbers.

ghost use Rattle.std.specs.Prelude.{◌≡◌};
ghost use Rattle.srm_timers.specs.Seeds.{words_of};

use crate::words::Words;
use rand_core::SeedableRng;
use rand_core::utils::NextWord;
use rand_pcg::Lcg128Xsl64;
use std::marker::Model;

/// The generator PCG XSL RR 128/64. Contracts see its state and increment.
#[derive(Debug, Drop)]
pub struct Pcg {
    generator: Lcg128Xsl64,
}

impl Model for Pcg {
    ghost use Rattle.rand_pcg.specs.Lcg.{Lcg};

    ghost Value = { Lcg };

    ghost view = { λ p. p.generator };
}

impl Pcg {
    /// Makes the generator that `seed_from_u64` makes of the seed. Takes no memory.
    #[tactic(auto, unfolding(crate::specs::Seeds::words_of))]
    pub fn new(seed: u64) -> Pcg
        ensures { result ≡ words_of seed }
    {
        Pcg {
            generator: Lcg128Xsl64::seed_from_u64(seed),
        }
    }
}

impl Words for Pcg {
    ghost use Rattle.rand_pcg.specs.Pcg.{pcg64};

    ghost next_word = { pcg64 };

    fn word(&mut self) -> u64 {
        self.generator.next_word()
    }
}
