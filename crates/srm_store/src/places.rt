//! The drawops of a stream, in places by number.

ghost use Rattle.std.specs.Prelude.{◌≡◌, ◌≤◌, ◌+◌, ℕ, [], true, OnOk, IsOk, IsSome, Some};
ghost use Rattle.std.specs.Option.{option_copied};
ghost use Rattle.srm_store.specs.Places.{place_at, has_place, SamePlaces, StillHas, Writes, FilledTo, gaps_up_to, one_unless_filled};

use crate::block::Block;
use srm_names::{DRAWOPS, Drawop};
use std::alloc::{AllocError, Global};
use std::marker::Model;

/// Places in a block. One high number makes one block, and not all the places below it.
const BLOCK: u32 = 256;

/// Places by number, each empty or with a drawop. Finding one takes a fixed number of steps; making one takes a step for each new
/// block and place.
#[derive(Drop)]
pub struct Places {
    alloc: Global,
    blocks: Vec<Block>,
}

impl Model for Places {
    ghost use Rattle.std.specs.Prelude.{List, Option};
    ghost use Rattle.srm_names.specs.declared.drawop.Drawop.{Drawop};
    ghost use Rattle.srm_store.specs.Places.{EndsInTime};

    ghost Value = { List (List (Option Drawop)) };

    ghost view = { λ p. p.blocks.items };

    ghost invariant = { λ p. EndsInTime p.blocks.items };
}

impl Places {
    /// Makes no places. Takes no memory.
    pub fn new(alloc: Global) -> Self
        ensures { result ≡ [] }
    {
        Places {
            alloc,
            blocks: Vec::new(alloc),
        }
    }

    /// Makes a place.
    pub fn make(&mut self, number: u32) -> Result<(), AllocError>
        ensures same { SamePlaces self.old self.new }
        ensures still { StillHas self.old self.new }
        ensures ok { OnOk result (has_place self.new number ≡ true) }
        ensures again { has_place self.old number ≡ true → IsOk result }
    {
        let block = (number / BLOCK) as usize;
        for _block in self.blocks.len()..block + 1 {
            self.blocks.push(Block::new(self.alloc))?;
        }
        self.blocks[block].make((number % BLOCK) as usize)
    }

    /// Writes a place that there is.
    pub fn put(&mut self, number: u32, drawop: Drawop)
        requires there { has_place self.old number ≡ true }
        requires last { number ≤ DRAWOPS }
        ensures writes { Writes number (Some drawop) self.old self.new }
        ensures still { StillHas self.old self.new }
    {
        self.blocks[(number / BLOCK) as usize].put((number % BLOCK) as usize, drawop);
    }

    /// Returns what is at a place.
    pub fn get(&self, number: u32) -> Option<&Drawop>
        ensures { option_copied result ≡ place_at self.now number }
    {
        let block = self.blocks.get((number / BLOCK) as usize)?;
        block.get((number % BLOCK) as usize)
    }

    /// Returns how many of the numbers after one, up to another, aren't held. Looks at each of them.
    pub fn gaps_after(&self, after: u32, last: u32) -> u32
        requires rising { after ≤ last }
        requires last { last ≤ DRAWOPS }
        ensures { gaps_up_to self.now last ≡ gaps_up_to self.now after + result }
    {
        let mut count = 0;
        for number in after..last {
            count += self.gap_at(number + 1);
        }
        count
    }

    /// 0 for a number that is held, else 1.
    fn gap_at(&self, number: u32) -> u32
        ensures value { result ≡ one_unless_filled self.now number }
        ensures few { result ≤ 1 }
    {
        match self.get(number) {
            Some(_) => 0,
            None => 1,
        }
    }

    /// Returns the number up to which places are filled, which is at least this one.
    pub fn filled_from(&self, last: u32) -> u32
        requires last { last ≤ DRAWOPS }
        requires filled { (n : ℕ) → 1 ≤ n → n ≤ last → IsSome (place_at self.now n) }
        ensures filled { FilledTo self.now result }
        ensures last { result ≤ DRAWOPS }
    {
        let _ = &self.blocks;
        for number in last..DRAWOPS {
            if self.get(number + 1).is_none() {
                return number;
            }
        }
        DRAWOPS
    }
}
