//! The places of a stream.

ghost use Rattle.std.specs.Prelude.{◌≡◌, ◌≤◌, ◌+◌, ◌++◌, true, cond, is_some, max, OnOk, IfOk, IfSome, OnErr, IsOk, Some, None, if◌then◌else◌, vec_len, vec_capacity};
ghost use Rattle.std.specs.Option.{option_copied};
ghost use Rattle.srm_names.specs.Names.{named};
ghost use Rattle.srm_store.specs.Places.{place_at, has_place, FilledTo, StillHas, gaps_up_to, next_gap};
ghost use Rattle.srm_store.specs.Held.{insert_answer, names_after};
ghost use Rattle.srm_store.specs.StreamPlaces.{blank_stream, unheld_in_stream, SameStreamPlaces, StreamGains};

use crate::insert::{Insert, same_drawop};
use crate::places::Places;
use srm_names::{DRAWOPS, Drawop, Name, Stream};
use std::alloc::{AllocError, Global};
use std::marker::Model;

/// What is held and known of one stream.
#[derive(Drop)]
pub struct StreamPlaces {
    places: Places,
    /// The greatest number that is known to exist, or 0.
    known: u32,
    /// How many of the numbers that are known to exist aren't held.
    missing: u32,
    /// The release cursor: the places from 1 to this number are filled, and the next is not. It passes each place once.
    cursor: u32,
}

impl Model for StreamPlaces {
    ghost use Rattle.srm_store.specs.StreamPlaces.{StreamContent};

    ghost Value = { StreamContent };

    ghost use Rattle.srm_store.specs.Inside.{stream_of, StreamIsRight};

    ghost view = { stream_of };

    ghost invariant = { StreamIsRight };
}

impl StreamPlaces {
    /// Makes a stream with nothing held or known. Takes no memory.
    pub fn new(alloc: Global) -> Self
        ensures { result ≡ blank_stream }
    {
        StreamPlaces {
            places: Places::new(alloc),
            known: 0,
            missing: 0,
            cursor: 0,
        }
    }

    /// Returns the drawop that is held under a number.
    pub fn get(&self, number: u32) -> Option<&Drawop>
        ensures { option_copied result ≡ place_at self.now.places number }
    {
        self.places.get(number)
    }

    /// Returns whether a drawop is held under a number.
    pub fn holds(&self, number: u32) -> bool
        ensures { result ≡ is_some (place_at self.now.places number) }
    {
        self.get(number).is_some()
    }

    /// Returns the greatest number that is known to exist, or 0.
    pub fn known(&self) -> u32
        ensures value { result ≡ self.now.known }
        ensures last { result ≤ DRAWOPS }
    {
        self.known
    }

    /// Returns the greatest number that is held with all below it, or 0.
    pub fn released(&self) -> u32
        ensures value { FilledTo self.now.places result }
        ensures last { result ≤ DRAWOPS }
    {
        self.cursor
    }

    /// Returns how many of the numbers that are known to exist aren't held.
    pub fn missing(&self) -> u32
        ensures value { result ≡ gaps_up_to self.now.places self.now.known }
        ensures last { result ≤ DRAWOPS }
    {
        self.missing
    }

    /// Returns the first number above one that is known to exist and isn't held. Looks at each number in between.
    pub fn next_missing(&self, after: u32) -> Option<u32>
        ensures value { result ≡ next_gap self.now.places after self.now.known }
        ensures low { IfSome result (λ number. 1 ≤ number) }
        ensures last { IfSome result (λ number. number ≤ DRAWOPS) }
    {
        for number in after..self.known {
            if !self.holds(number + 1) {
                return Some(number + 1);
            }
        }
        None
    }

    /// Makes the place of a number, so that a drawop can be put there without memory.
    pub fn make_place(&mut self, number: u32) -> Result<(), AllocError>
        ensures same { SameStreamPlaces self.old self.new }
        ensures still { StillHas self.old.places self.new.places }
        ensures ok { OnOk result (has_place self.new.places number ≡ true) }
        ensures again { has_place self.old.places number ≡ true → IsOk result }
    {
        self.places.make(number)
    }

    /// Holds a drawop of this stream, unless one of its number is held.
    pub fn insert(&mut self, drawop: Drawop) -> Result<Insert, AllocError>
        ensures answer { IfOk result (λ answer. answer ≡ insert_answer drawop (place_at self.old.places drawop.name.number)) }
        ensures ok { OnOk result (StreamGains drawop self.old self.new) }
        ensures err { OnErr result (SameStreamPlaces self.old self.new) }
        ensures still { StillHas self.old.places self.new.places }
        ensures again { has_place self.old.places drawop.name.number ≡ true → IsOk result }
    {
        let number = drawop.name.number();
        if let Some(held) = self.places.get(number) {
            return Ok(compare(&drawop, held));
        }
        self.places.make(number)?;
        self.places.put(number, drawop);
        self.missing = one_less_if(number <= self.known, self.missing);
        if number == self.cursor + 1 {
            self.cursor = self.places.filled_from(number);
        }
        Ok(Insert::Fresh)
    }

    /// Notes that a number is known to exist, and all below it. Looks at each number that is newly known.
    pub fn know(&mut self, number: u32)
        requires { number ≤ DRAWOPS }
        ensures { self.new ≡ record self.old { known = max self.old.known number } }
    {
        let known = self.known.max(number);
        self.missing += self.places.gaps_after(self.known, known);
        self.known = known;
    }

    /// Adds to a list the names of the numbers after this one, so many of them, that aren't held.
    pub fn add_unheld(
        &self,
        mut names: Vec<Name>,
        stream: &Stream,
        after: u32,
        count: u32,
    ) -> Result<Vec<Name>, AllocError>
        requires { after + count ≤ DRAWOPS }
        ensures ok { IfOk result (λ list. list.items ≡ names.items ++ unheld_in_stream self.now (names_after stream.now after count)) }
        ensures again { vec_len names + count ≤ vec_capacity names → IsOk result }
    {
        for done in 0..count {
            let number = after + done + 1;
            if let Some(name) = self.unheld(stream, number) {
                names.push(name)?;
            }
        }
        Ok(names)
    }

    /// The name of a number that isn't held.
    fn unheld(&self, stream: &Stream, number: u32) -> Option<Name>
        requires low { 1 ≤ number }
        requires last { number ≤ DRAWOPS }
        ensures { result ≡ (if is_some (place_at self.now.places number) then None else Some (named stream.now number)) }
    {
        if self.holds(number) {
            None
        } else {
            stream.at(number)
        }
    }
}

/// One less, if one of those that are counted is gone.
fn one_less_if(gone: bool, count: u32) -> u32
    requires { gone ≡ true → 1 ≤ count }
    ensures { count ≡ result + cond gone 1 0 }
{
    if gone { count - 1 } else { count }
}

/// What an insert finds of a drawop whose name is held.
fn compare(drawop: &Drawop, held: &Drawop) -> Insert
    ensures { result ≡ insert_answer drawop.now (Some held.now) }
{
    if same_drawop(drawop, held) {
        Insert::Known
    } else {
        Insert::Conflict
    }
}
