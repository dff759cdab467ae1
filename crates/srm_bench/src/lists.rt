//! What page workers took.

use srm_audit::Got;
use srm_names::{Items, Member, PageMsg};
use std::alloc::Global;

/// What the worker of slot 0 of each member took.
#[derive(Drop)]
pub struct Lists {
    all: Vec<Vec<PageMsg>>,
}

impl Lists {
    /// Nothing was taken yet. `None` where memory ran out.
    pub fn new(alloc: Global, members: u8) -> Option<Lists> {
        let mut all = Vec::new(alloc);
        for _ in 0..members {
            all.push(Vec::new(alloc)).ok()?;
        }
        Some(Lists { all })
    }

    /// A member took this, if it was anything. `None` where memory ran out.
    pub fn add(&mut self, place: usize, message: Option<PageMsg>) -> Option<()> {
        if let Some(message) = message {
            self.all.get_mut(place)?.push(message).ok()?;
        }
        Some(())
    }

    /// How many messages were taken in all.
    pub fn count(&self) -> usize {
        let mut count = 0_usize;
        for list in &self.all {
            count = count.saturating_add(list.len());
        }
        count
    }

    /// The lists, by member. `None` where memory ran out.
    pub fn into_gots(self, alloc: Global) -> Option<Vec<Got>> {
        let mut gots = Vec::new(alloc);
        let mut rest = self.all.into_iter();
        for me in 0..u8::MAX {
            let Some(list) = rest.next() else {
                return Some(gots);
            };
            let got = Got {
                member: Member::new(me)?,
                slot: 0,
                list: Items::new(list),
            };
            gots.push(got).ok()?;
        }
        None
    }
}
