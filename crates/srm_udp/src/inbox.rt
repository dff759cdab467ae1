//! What came to a socket and waits to be received.

ghost use Rattle.std.specs.Prelude.{◌≡◌, [], None, true, is_some, IfOk, IsTrue, MatchBool};
ghost use Rattle.srm_udp.specs.Inboxes.{BringsOne, GivesNext, IsAdmitted, IsDropped, Keeps, NextFits, TakesIn, TakesOne, new_inbox};

use crate::backlog::Backlog;
use crate::dropped::Dropped;
use crate::first_failure::FirstFailure;
use crate::loss::error_of;
use crate::outlet::{Errors, Outlet, Posts};
use crate::roster::{SENDER_PLACE, is_from_sender, is_of_roster};
use srm_wire::Loss;
use std::alloc::{AllocError, Global};
use std::marker::Model;
use std::net::SocketAddr;
use std::sync::Arc;

/// Datagrams that are taken in at once, at most.
const TAKEN_AT_ONCE: usize = 256;

/// What came to a socket and waits to be received, less what is dropped. Contracts see all that came, and each error that the system returned. It allocates only in `new`.
#[derive(Drop)]
pub(crate) struct Inbox {
    roster: Vec<SocketAddr>,
    only_roster: bool,
    // For contracts alone.
    came: Posts,
    errors: Errors,
    backlog: Backlog,
    dropped: Dropped,
    // The error that the system told on receiving and that no receive answered yet: the kind of a loss, or None where the socket failed.
    pending: Option<Option<Loss>>,
    // Whether the socket was found empty, and the system told of nothing since.
    drained: bool,
    failure: Arc<FirstFailure, Global>,
}

/// What comes next out of an inbox.
pub(crate) enum Next {
    /// A datagram of so many bytes, or none.
    Datagram(Option<usize>),
    /// An error that the system told: a loss of this kind, or a failure.
    Failed(Option<Loss>),
}

// What one call of the system tells.
enum Told {
    // A datagram of so many bytes, which is to be heard.
    Datagram(usize),
    Dropped,
    Nothing,
    Failed(Option<Loss>),
}

impl Model for Inbox {
    ghost use Rattle.srm_udp.specs.Inboxes.{InboxView};

    ghost Value = { InboxView };

    ghost view = { λ b. record { roster = b.roster.items; only_roster = b.only_roster; came = b.came; errors = b.errors; waiting = b.backlog; dropped = b.dropped; pending = b.pending } };
}

impl Inbox {
    /// Makes an empty inbox with room for what [`Backlog`] keeps, which notes a receive that fails. Fails only if out of memory.
    pub(crate) fn new(
        alloc: Global,
        roster: Vec<SocketAddr>,
        failure: Arc<FirstFailure, Global>,
    ) -> Result<Inbox, AllocError>
        ensures { IfOk result (λ b. b ≡ new_inbox roster.items) }
    {
        Ok(Inbox {
            roster,
            only_roster: false,
            came: Posts::new(),
            errors: Errors::new(),
            backlog: Backlog::new(alloc)?,
            dropped: Dropped::none(),
            pending: None,
            drained: false,
            failure,
        })
    }

    /// Drops and counts from now on what doesn't come from an address of the roster.
    pub(crate) fn keep_to_roster(&mut self)
        ensures { self.new ≡ record self.old { only_roster = true } }
    {
        self.only_roster = true;
    }

    /// Returns the members' addresses, by number.
    pub(crate) fn roster(&self) -> &[SocketAddr]
        ensures { result.now ≡ self.now.roster }
    {
        self.roster.as_slice()
    }

    /// Returns how many datagrams were dropped so far.
    pub(crate) fn dropped(&self) -> Dropped
        ensures { result ≡ self.now.dropped }
    {
        self.dropped
    }

    /// Returns whether no datagram waits.
    pub(crate) fn is_empty(&self) -> bool
        ensures { IsTrue result → self.now.waiting ≡ [] }
    {
        self.backlog.is_empty()
    }

    /// Returns whether the socket was found empty, and the system told of nothing since. While an error waits it doesn't count as empty.
    pub(crate) fn is_drained(&self) -> bool {
        self.drained
    }

    /// The system tells of something in the socket.
    pub(crate) fn fill(&mut self)
        ensures { self.new ≡ self.old }
    {
        self.drained = false;
    }

    // Whether an error waits.
    fn has_error(&self) -> bool
        ensures { result ≡ is_some self.now.pending }
    {
        self.pending.is_some()
    }

    /// Takes in what lies in the socket, up to 256 datagrams, each by way of `room`. It stops at an error, and takes nothing while one is pending.
    #[tactic(auto, using(crate::proofs::Arriving::arrived_none, crate::proofs::Arriving::arrived_more, crate::proofs::Arriving::kept_one, crate::proofs::Arriving::dropped_one, crate::proofs::Arriving::takes_nothing, crate::proofs::Arriving::takes_all, crate::proofs::Arriving::takes_error))]
    pub(crate) fn take_in(&mut self, socket: &Outlet, room: &mut [u8])
        ensures { TakesIn 256 self.old self.new }
    {
        if self.has_error() {
            return;
        }
        // Contracts count what it takes in.
        for taken in 0..TAKEN_AT_ONCE {
            match self.take_one(socket, room) {
                Told::Datagram(count) => self.keep(&room[..count]),
                Told::Dropped => {}
                Told::Nothing => return,
                Told::Failed(error) => {
                    self.pending = Some(error);
                    return;
                }
            }
        }
    }

    // Receives by one call of the system. Drops and counts what isn't to be heard.
    fn take_one(&mut self, socket: &Outlet, room: &mut [u8]) -> Told
        ensures { TakesOne room.new result self.old self.new }
    {
        self.drained = false;
        match socket.receive(room, &mut self.came, &mut self.errors) {
            Ok((count, origin)) => {
                if self.admit(origin, &room[..count]) {
                    Told::Datagram(count)
                } else {
                    Told::Dropped
                }
            }
            Err(error) => match error_of(&error) {
                None => {
                    self.drained = true;
                    Told::Nothing
                }
                Some(told) => {
                    self.failure.note_receive(&error);
                    Told::Failed(told)
                }
            },
        }
    }

    // Returns whether a datagram is to be heard. If not, it is counted.
    fn admit(&mut self, origin: SocketAddr, datagram: &[u8]) -> bool
        ensures { MatchBool result (IsAdmitted (record { origin = origin; bytes = datagram.now }) self.old × (self.new ≡ self.old)) (IsDropped (record { origin = origin; bytes = datagram.now }) self.old self.new) }
    {
        if !self.only_roster || is_from_sender(self.roster.as_slice(), origin, datagram) {
            return true;
        }
        if is_of_roster(self.roster.as_slice(), origin) {
            self.dropped.count_misnamed();
        } else {
            self.dropped.count_stranger();
        }
        false
    }

    // Appends a datagram to those that wait, or drops it where there is no room.
    fn keep(&mut self, datagram: &[u8])
        ensures { Keeps datagram.now self.old self.new }
    {
        if !self.backlog.push(datagram) {
            self.dropped.count_overflowed();
        }
    }

    /// Moves the next datagram into a buffer, cut to it. An error comes before all datagrams. Where none waits, the next one that is to be heard is received right into
    /// the buffer, if this has room for its sender: of up to 256.
    #[tactic(auto, using(crate::proofs::Arriving::brings_waiting_one))]
    pub(crate) fn next(&mut self, socket: &Outlet, buffer: &mut [u8]) -> Next
        ensures brings { BringsOne buffer.new result self.old self.new }
        ensures fits { NextFits buffer.new result }
    {
        if self.has_error() || !self.is_empty() || buffer.len() <= SENDER_PLACE {
            return self.next_waiting(buffer);
        }
        self.receive(socket, buffer)
    }

    // Moves the datagram that waits longest into a buffer, or returns the error that is pending.
    fn next_waiting(&mut self, buffer: &mut [u8]) -> Next
        ensures gives { GivesNext buffer.new result self.old self.new }
        ensures fits { NextFits buffer.new result }
    {
        match self.pending.take() {
            Some(error) => Next::Failed(error),
            None => Next::Datagram(self.backlog.pop(buffer)),
        }
    }

    #[tactic(auto, using(crate::proofs::Arriving::heard_none, crate::proofs::Arriving::heard_dropped, crate::proofs::Arriving::brings_datagram, crate::proofs::Arriving::brings_nothing, crate::proofs::Arriving::brings_error))]
    // Receives the next datagram that is to be heard right into a buffer.
    fn receive(&mut self, socket: &Outlet, buffer: &mut [u8]) -> Next
        requires no_error { self.old.pending ≡ None }
        requires empty { self.old.waiting ≡ [] }
        ensures brings { BringsOne buffer.new result self.old self.new }
        ensures fits { NextFits buffer.new result }
    {
        // Contracts count what it takes in.
        for taken in 0..TAKEN_AT_ONCE {
            match self.take_one(socket, buffer) {
                Told::Datagram(count) => return Next::Datagram(Some(count)),
                Told::Dropped => {}
                Told::Nothing => return Next::Datagram(None),
                Told::Failed(error) => return Next::Failed(error),
            }
        }
        Next::Datagram(None)
    }
}
