//! Random numbers from a list.

ghost use Rattle.std.specs.Prelude.{◌≡◌};

use crate::words::Words;
use std::marker::Model;

/// The numbers of a list, and then 0 for ever: for scripts and tests. Contracts see the numbers that are left.
#[derive(Debug, Drop)]
pub struct Listed {
    words: Vec<u64>,
    next: usize,
}

impl Model for Listed {
    ghost use Rattle.std.specs.Prelude.{ℕ, List, drop};

    ghost Value = { List ℕ };

    ghost view = { λ l. drop l.next l.words.items };
}

impl Listed {
    /// Makes a generator that returns these numbers in order, and then 0 for ever. Takes no memory.
    pub fn new(words: Vec<u64>) -> Listed
        ensures { result ≡ words.items }
    {
        Listed { words, next: 0 }
    }
}

impl Words for Listed {
    ghost use Rattle.srm_timers.specs.ListedWords.{next_listed};

    ghost next_word = { next_listed };

    fn word(&mut self) -> u64 {
        if self.next < self.words.len() {
            let word = self.words[self.next];
            self.next += 1;
            word
        } else {
            0
        }
    }
}
