//! Distances and echoes, by the session messages heard so far.

ghost use Rattle.std.specs.Prelude.{◌≡◌, ◌≢◌, ◌≤◌, ◌<◌, ◌↔◌, ℕ, List, [], IfOk, IfSome, length, slice_index, slice_set};
ghost use Rattle.srm_names.specs.declared.limits.TheConstants.{MEMBERS, LONGEST_DISTANCE};
ghost use Rattle.srm_distance.specs.declared.limits.TheConstants.{SHORTEST_DISTANCE};
ghost use Rattle.srm_distance.specs.Calls.{DistanceCall, Heard, Forgot};
ghost use Rattle.srm_distance.specs.Content.{distance_by};
ghost use Rattle.srm_distance.specs.Distance.{distance};
ghost use Rattle.srm_distance.specs.Echoes.{echo_to, echoes_owed, AreSpellable, CanBeSent, SentWithin};
ghost use Rattle.srm_distance.specs.Fits.{DistancesFit, DistancesAdd, IsTableOf};

use crate::limits::{FIRST_DISTANCE, SHORTEST_DISTANCE};
use crate::peer::Peer;
use srm_names::{Echo, LATEST_MOMENT, LONGEST_DISTANCE, MEMBERS, Member};
use std::alloc::{AllocError, Global};
use std::marker::Model;

/// The distances from one member to the others, measured by their session messages.
///
/// All moments, times and distances are microseconds. Moments are by this member's clock; when another sent is by the other's.
#[derive(Debug, Drop)]
pub struct Distances {
    me: Member,
    /// The floor: no distance to another member is shorter.
    least: u64,
    peers: [Peer; MEMBERS as usize],
    /// The distance to each member, by its number. Kept beside the peers, so that a caller gets all at once without memory.
    table: [u64; MEMBERS as usize],
}

impl Model for Distances {
    ghost use Rattle.srm_distance.specs.Content.{DistancesContent, content_of, DistancesAreRight};

    ghost Value = { DistancesContent };

    ghost view = { content_of };

    ghost invariant = { DistancesAreRight };
}

impl Distances {
    /// Makes the distances of a member that heard nothing yet, with the floor [`SHORTEST_DISTANCE`].
    pub fn new(me: Member) -> Distances
        ensures fits { DistancesFit SHORTEST_DISTANCE me [] result }
    {
        Distances::with_least(me, SHORTEST_DISTANCE)
    }

    /// Makes the distances of a member that heard nothing yet, with a floor under its distances to others: `least` microseconds,
    /// from [`SHORTEST_DISTANCE`] to [`LONGEST_DISTANCE`].
    ///
    /// Timers wait for a multiple of a distance. On a network of a few microseconds, a member that misses much would else ask faster
    /// than its rate lets it.
    pub fn with_least(me: Member, least: u64) -> Distances
        requires shortest { SHORTEST_DISTANCE ≤ least }
        requires longest { least ≤ LONGEST_DISTANCE }
        ensures fits { DistancesFit least me [] result }
    {
        let mut table = [FIRST_DISTANCE.max(least); MEMBERS as usize];
        table[me.index()] = 0;
        Distances {
            me,
            least,
            peers: [Peer::unknown(); MEMBERS as usize],
            table,
        }
    }

    /// Returns a copy. Takes no memory.
    pub fn copy(&self) -> Distances
        ensures { result ≡ self.now }
    {
        Distances {
            me: self.me,
            least: self.least,
            peers: self.peers,
            table: self.table,
        }
    }

    /// Notes a session message of `from`, heard at `now` and sent at `sent` by its sender's clock, at most [`LATEST_MOMENT`]. `echo` is
    /// its echo for this member, if it has one: when the echoed message was sent, and how long `from` had it.
    ///
    /// The echo decides the distance if it is of a newer message than all echoes before that counted, and not of a moment after
    /// `now`. The message is the one to echo if it is newer than all of `from` before. 0 is a moment like any other. Takes no memory.
    pub fn heard_session(&mut self, from: Member, sent: u64, echo: Option<(u64, u64)>, now: u64)
        requires { sent ≤ LATEST_MOMENT }
        ensures { DistancesAdd (Heard from sent echo now) self.old self.new }
    {
        let peer = self.peers[from.index()].after_session(sent, echo, now);
        self.keep(from, peer);
    }

    /// Notes that a member left: it gets no more echoes. The distance to it stays.
    pub fn forget(&mut self, member: Member)
        ensures { DistancesAdd (Forgot member) self.old self.new }
    {
        let peer = self.peers[member.index()].after_forget();
        self.keep(member, peer);
    }

    /// This is kept of a member from now on.
    fn keep(&mut self, member: Member, peer: Peer)
        requires { SentWithin peer.newest_message }
        ensures new { self.new ≡ record self.old { peers = slice_set self.old.peers member peer } }
        ensures below { member < MEMBERS }
    {
        let place = member.index();
        self.peers[place] = peer;
        self.table[place] = distance_by(self.least, self.me, member, peer);
    }

    /// Returns the echoes that are owed at `now`, in order of member, at most 31: to each other member that was heard and not
    /// forgotten, its newest session message with the time since it was heard; 0 if that is after `now`.
    ///
    /// Fails only if out of memory.
    pub fn echoes(&self, alloc: Global, now: u64) -> Result<Vec<Echo>, AllocError>
        ensures value { IfOk result (λ echoes. (least me : ℕ) (calls : List DistanceCall) → DistancesFit least me calls self.now
            → echoes.items ≡ echoes_owed calls me now) }
        ensures range { IfOk result (λ echoes. AreSpellable self.now.me now echoes.items) }
    {
        let me = self.me.number();
        // Room for all of them at once: no push takes memory.
        let mut echoes = Vec::with_capacity(alloc, usize::from(MEMBERS - 1))?;
        for number in 0..MEMBERS {
            if number == me {
                continue;
            }
            if let Some(echo) = self.echo_to(number, now) {
                echoes.push(echo)?;
            }
        }
        Ok(echoes)
    }

    /// The echo that is owed to another member at a moment, by the member's number.
    fn echo_to(&self, number: u8, now: u64) -> Option<Echo>
        requires member { number < MEMBERS }
        requires other { number ≢ self.now.me }
        ensures value { (least me : ℕ) (calls : List DistanceCall) → DistancesFit least me calls self.now
            → result ≡ echo_to calls me now number }
        ensures member { IfSome result (λ echo. echo.member ≡ number) }
        ensures range { IfSome result (CanBeSent self.now.me now) }
    {
        let member = Member::new(number)?;
        self.peers[member.index()].echo(member, now)
    }

    /// Returns the distance to a member in microseconds: 0 to this member, else from the floor to 10,000,000. Before an echo of it
    /// counted it is [`FIRST_DISTANCE`](crate::FIRST_DISTANCE), or the floor if that is more.
    pub fn distance(&self, member: Member) -> u64
        ensures value { (least me : ℕ) (calls : List DistanceCall) → DistancesFit least me calls self.now → result ≡ distance least calls me member }
        ensures to_oneself { (result ≡ 0) ↔ (member ≡ self.now.me) }
        ensures longest { result ≤ LONGEST_DISTANCE }
    {
        self.table[member.index()]
    }

    /// Returns the [`distance`](Distances::distance) to each member, by its number. Takes no memory and one step.
    #[tactic(auto, using(crate::proofs::Table::is_table, crate::proofs::Table::longest))]
    pub fn all(&self) -> &[u64]
        ensures value { IsTableOf self.now result.now }
        ensures size { length result.now ≡ MEMBERS }
        ensures longest { (member : ℕ) → slice_index result.now member ≤ LONGEST_DISTANCE }
    {
        &self.table
    }
}

/// The distance from a member to another, or to itself, if this is kept about the other.
fn distance_by(least: u64, me: Member, member: Member, peer: Peer) -> u64
    requires { least ≤ LONGEST_DISTANCE }
    ensures { result ≡ distance_by least me member peer }
{
    if member == me {
        return 0;
    }
    peer.distance(least)
}
