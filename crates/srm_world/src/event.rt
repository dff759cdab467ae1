//! What may happen in a world.

use bytes::Bytes;
use srm_names::Page;

/// What happens next, at a moment in microseconds, at most 2^48. Members are numbered from 0, page slots from 0 to 7; an event that names
/// another is skipped. A lost datagram is one that no event delivers. A give or a take has no moment.
#[derive(Debug, Drop)]
pub enum Event {
    /// A member draws on a page.
    Draw {
        /// The member, by its number from 0.
        member: u8,
        /// The moment, in microseconds, at most 2^48.
        now: u64,
        /// The page.
        page: Page,
        /// The bytes of the stroke. A member refuses more than 1,024.
        body: Bytes,
    },
    /// A datagram comes to a member. `index` is its number from 0 in the order of sending.
    Deliver {
        /// The member, by its number from 0.
        member: u8,
        /// The moment, in microseconds, at most 2^48.
        now: u64,
        /// The number of the datagram, from 0 in the order of sending.
        index: usize,
    },
    /// A member requests, repairs and sends what is due.
    Tick {
        /// The member, by its number from 0.
        member: u8,
        /// The moment, in microseconds, at most 2^48.
        now: u64,
    },
    /// A member shows a page.
    Show {
        /// The member, by its number from 0.
        member: u8,
        /// The moment, in microseconds, at most 2^48.
        now: u64,
        /// The page.
        page: Page,
    },
    /// A member begins to leave.
    Leave {
        /// The member, by its number from 0.
        member: u8,
        /// The moment, in microseconds, at most 2^48.
        now: u64,
    },
    /// A member gives the next message of a page slot to its worker.
    Give {
        /// The member, by its number from 0.
        member: u8,
        /// The page slot, 0 to 7.
        slot: u8,
    },
    /// The worker of a page slot takes the next message that it was given.
    Take {
        /// The member, by its number from 0.
        member: u8,
        /// The page slot, 0 to 7.
        slot: u8,
    },
}

impl Event {
    ghost use Rattle.std.specs.Prelude.{◌≡◌};
    ghost use Rattle.srm_world.specs.Events.{member_of};

    /// Returns the number of the member that the event names.
    pub fn member(&self) -> u8
        ensures { result ≡ member_of self.now }
    {
        match self {
            Event::Draw { member, .. }
            | Event::Deliver { member, .. }
            | Event::Tick { member, .. }
            | Event::Show { member, .. }
            | Event::Leave { member, .. }
            | Event::Give { member, .. }
            | Event::Take { member, .. } => *member,
        }
    }
}
