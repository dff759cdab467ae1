//! Moments of many names.

ghost use Rattle.std.specs.Prelude.{◌≡◌, true, IfSome};
ghost use Rattle.srm_deadlines.specs.Places.{has_place};

use srm_deadlines::{Deadlines, Tree};
use srm_names::{Member, Name, Page};
use std::alloc::Global;

/// An odd number, which steps through each power of two of names before one comes again.
const STEP: u32 = 40_503;

/// The moments of the first names of a stream.
#[derive(Drop)]
pub struct Moments {
    deadlines: Tree,
    source: Member,
}

impl Moments {
    /// No name has a moment.
    pub fn new(alloc: Global) -> Option<Moments> {
        Some(Moments {
            deadlines: Tree::new(alloc),
            source: Member::new(0)?,
        })
    }

    /// Sets the moments of the first so many names. `None` where memory ran out, or a stream has fewer.
    pub fn set_first(&mut self, count: u32) -> Option<()> {
        for number in 1..=count {
            let name = self.room(number)?;
            self.deadlines.set(name, scattered(number));
        }
        Some(())
    }

    /// So many times the moment of a name, far from the one before, is cleared and set again, if it `sets` them: else only the name is found.
    /// `None` where memory ran out or there are no names.
    pub fn turn(&mut self, names: u32, turns: u32, sets: bool) -> Option<()> {
        for turn in 0..turns {
            let index = turn.wrapping_mul(STEP).checked_rem(names)?;
            let name = self.room(index.checked_add(1)?)?;
            if sets {
                self.deadlines.clear(name);
                self.deadlines.set(name, scattered(turn));
            }
        }
        Some(())
    }

    /// The first moment.
    pub fn next(&self) -> Option<u64> {
        self.deadlines.next()
    }

    /// The name with this number, with a place.
    fn room(&mut self, number: u32) -> Option<Name>
        ensures { IfSome result (λ name. has_place self.new.deadlines name ≡ true) }
    {
        let page = Page {
            creator: self.source,
            number: 0,
        };
        let name = Name::new(self.source, page, number)?;
        self.deadlines.room(&[name]).ok()?;
        Some(name)
    }
}

/// A moment that lies anywhere among the others.
fn scattered(number: u32) -> u64 {
    u64::from(number.wrapping_mul(2_654_435_761))
}
