//! Places in a row.

ghost use Rattle.std.specs.Prelude.{◌≡◌, ◌<◌, ◌^◌, length, slice_index_or, slice_set, OnOk, IsOk, Some, None, []};
ghost use Rattle.std.specs.Option.{option_copied};
ghost use Rattle.srm_store.specs.Places.{Grown};

use srm_names::Drawop;
use std::alloc::{AllocError, Global};
use std::marker::Model;

/// Places from 0 up, each empty or with a drawop. There are none at first.
#[derive(Drop)]
pub struct Block {
    places: Vec<Option<Drawop>>,
}

impl Model for Block {
    ghost use Rattle.std.specs.Prelude.{List, Option};
    ghost use Rattle.srm_names.specs.declared.drawop.Drawop.{Drawop};

    ghost Value = { List (Option Drawop) };

    ghost view = { λ b. b.places.items };
}

impl Block {
    /// Makes a block without places. Takes no memory.
    pub fn new(alloc: Global) -> Self
        ensures { result ≡ [] }
    {
        Block {
            places: Vec::new(alloc),
        }
    }

    /// Makes places up to this one.
    pub fn make(&mut self, place: usize) -> Result<(), AllocError>
        requires { place < 2 ^ 32 }
        ensures grown { Grown self.old self.new }
        ensures ok { OnOk result (place < length self.new) }
        ensures again { place < length self.old → IsOk result }
    {
        for _place in self.places.len()..place + 1 {
            self.places.push(None)?;
        }
        Ok(())
    }

    /// Writes a place that there is.
    pub fn put(&mut self, place: usize, drawop: Drawop)
        requires { place < length self.old }
        ensures { self.new ≡ slice_set self.old place (Some drawop) }
    {
        self.places[place] = Some(drawop);
    }

    /// Returns what is at a place; `None` if there is no such place.
    pub fn get(&self, place: usize) -> Option<&Drawop>
        ensures { option_copied result ≡ slice_index_or self.now place None }
    {
        self.places.get(place)?.as_ref()
    }
}
