//! What a picture shows.

ghost use Rattle.std.specs.Prelude.{IfOk};
ghost use Rattle.srm_picture.specs.Pictures.{Depicts};

use crate::action::{LocalAction, actions};
use crate::arrow::{Arrival, Arrow};
use crate::arrows::{arrows, launches};
use crate::bracket::Bracket;
use crate::brackets::brackets;
use srm_entries::Entry;
use std::alloc::{AllocError, Global};

/// What a picture of a session shows: shapes, each with the entries that it is of.
#[derive(Debug, Drop)]
pub struct Picture {
    /// In order of datagram, and then of arrival.
    pub arrows: Vec<Arrow>,
    /// In the order of setting.
    pub brackets: Vec<Bracket>,
    /// In the order of the entries.
    pub actions: Vec<LocalAction>,
}

impl Picture {
    /// Makes the picture of these entries, oldest first, with these arrivals of datagrams. It has an arrow from each datagram to each of
    /// its arrivals, or to nobody if there is none; a bracket for each timer; and the local actions.
    ///
    /// Fails only if out of memory. May go through all entries for each timer, and goes through all arrivals for each datagram.
    pub fn of(alloc: Global, entries: &[Entry], arrivals: &[Arrival]) -> Result<Picture, AllocError>
        ensures { IfOk result (Depicts entries.now arrivals.now) }
    {
        let launches = launches(alloc, entries)?;
        Ok(Picture {
            arrows: arrows(alloc, launches.as_slice(), arrivals)?,
            brackets: brackets(alloc, entries)?,
            actions: actions(alloc, entries)?,
        })
    }
}
