//! Who of the others is here, as far as a member has heard.

ghost use Rattle.std.specs.Prelude.{◌≡◌};
ghost use Rattle.srm_live.specs.MemberSets.{Gains, Loses};
ghost use Rattle.srm_live.specs.Standings.{nobody, standing_of};

use crate::member_set::{has, with, without};
use srm_names::Member;

/// What is known of another member.
#[derive(Clone, Copy, Debug, PartialEq, Eq)]
pub enum Standing {
    /// Nothing was heard of it.
    Unheard,
    /// A datagram of it came in the last ten seconds.
    Here,
    /// A datagram of it came, but none in the last ten seconds.
    Silent,
    /// It said that it leaves.
    Left,
}

/// The standing of each member: a bit for each in each of three sets.
#[derive(Clone, Copy, Debug, PartialEq, Eq)]
pub struct Presence {
    /// Those that were heard.
    pub heard: u32,
    /// Those that were silent for ten seconds.
    pub silent: u32,
    /// Those that left.
    pub left: u32,
}

impl Presence {
    /// Returns that nobody was heard yet.
    pub fn none() -> Presence
        ensures { result ≡ nobody }
    {
        Presence {
            heard: 0,
            silent: 0,
            left: 0,
        }
    }

    /// Returns what is known of a member.
    pub fn standing(&self, member: Member) -> Standing
        ensures { result ≡ standing_of self.now member }
    {
        if has(self.left, member) {
            Standing::Left
        } else if has(self.silent, member) {
            Standing::Silent
        } else if has(self.heard, member) {
            Standing::Here
        } else {
            Standing::Unheard
        }
    }

    /// Notes that a datagram of a member came.
    pub fn hear(&mut self, member: Member)
        ensures heard { Gains self.old.heard member self.new.heard }
        ensures silent { Loses self.old.silent member self.new.silent }
        ensures left { self.new.left ≡ self.old.left }
    {
        self.heard = with(self.heard, member);
        self.silent = without(self.silent, member);
    }

    /// Notes that a member said that it leaves.
    pub fn leave(&mut self, member: Member)
        ensures left { Gains self.old.left member self.new.left }
        ensures others { self.new ≡ record self.old { left = self.new.left } }
    {
        self.left = with(self.left, member);
    }

    /// Notes that no datagram of a member came for long.
    pub fn fall_silent(&mut self, member: Member)
        ensures silent { Gains self.old.silent member self.new.silent }
        ensures others { self.new ≡ record self.old { silent = self.new.silent } }
    {
        self.silent = with(self.silent, member);
    }
}
