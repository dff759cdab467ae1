//! A wire over UDP.

ghost use Rattle.std.specs.Prelude.{◌≡◌, ◌<◌, ◌≤◌, [], Some, None, length, true, is_err, is_none, vec_len, IfOk, IfSome, IsErrAnd};
ghost use Rattle.std.specs.IoError.{error_kind};
ghost use Rattle.srm_wire.specs.Wires.{CountsIf, TellsMore, answered, bytes_to, sent_by};
ghost use Rattle.srm_udp.specs.Inboxes.{TakesIn};
ghost use Rattle.srm_udp.specs.Udp.{BringsNext, CountsEach, CountsReceive, ReceivesNext, SendsOne, after_error, after_send, new_wire, one_more_failure, posted, send_fails, with_inbox, with_refused};

use crate::dropped::Dropped;
use crate::first_failure::FirstFailure;
use crate::inbox::{Inbox, Next};
use crate::loss::loss_of;
use crate::outlet::Outlet;
use crate::room::ask_for_room;
use crate::roster::SENDER_PLACE;
use crate::wire_waker::WireWaker;
use mio::net::UdpSocket;
use mio::{Events, Interest, Poll, Token};
use srm_names::Member;
use srm_wire::{Loss, Losses, Wire, WireCounts, WireFault, count_failure};
use std::alloc::{AllocError, Global};
use std::io;
use std::io::ErrorKind;
use std::marker::Model;
use std::net::{Net, SocketAddr};
use std::sync::Arc;
use std::time::Duration;

// What the poll calls the socket, and the waker.
const SOCKET: Token = Token(0);

const WAKER: Token = Token(1);

/// Bytes of the longest datagram, and more.
const LONGEST: usize = 65_536;

/// Sends and receives after which it takes in what lies in the socket.
const CALLS: u8 = 16;

/// A member's wire over UDP: a bound socket that never blocks but in [`pause`](UdpWire::pause), which another thread may end. It counts its failures, and by kind what the
/// system says was lost.
///
/// It asks the system for 4 MiB of receive buffer. Linux grants at most `net.core.rmem_max`. At each sixteenth send or receive it moves what lies in the socket into its own
/// queue, so a burst isn't lost because the system's buffer is small. The queue has room for 32,768 datagrams and 3.75 to 4 MiB; what comes beyond is dropped and
/// counted. While nothing waits there, a datagram is received right into the buffer of [`receive`](UdpWire::receive). All memory is allocated as the wire is made.
#[derive(Drop)]
pub struct UdpWire {
    socket: Outlet,
    inbox: Inbox,
    // Where the system puts a datagram.
    room: Vec<u8>,
    // Sends and receives since it took in what lay in the socket.
    calls: u8,
    poll: Poll,
    events: Events<Global>,
    waker: Arc<WireWaker, Global>,
    failures: u64,
    failure: Arc<FirstFailure, Global>,
    losses: Losses,
}

impl Model for UdpWire {
    ghost use Rattle.srm_udp.specs.Udp.{UdpView};

    ghost Value = { UdpView };

    ghost view = { λ w. record { inbox = w.inbox; failures = w.failures; losses = w.losses; went = w.socket.went; refused = w.socket.refused } };
}

impl UdpWire {
    /// Binds a socket to the address of member `me`, and returns its wire to the members at `addresses`, by number. Fails with `InvalidInput` if `me` has no address there,
    /// with `OutOfMemory` if there are not some 5 MB, and with the system's error if it refuses to bind or to poll.
    pub fn bind(
        rt: &impl Net,
        alloc: Global,
        me: Member,
        addresses: Vec<SocketAddr>,
    ) -> io::Result<UdpWire>
        ensures new { IfOk result (λ w. w ≡ new_wire addresses.items) }
        ensures place { IfOk result (λ w. me < length w.inbox.roster) }
        ensures stranger { vec_len addresses ≤ me → IsErrAnd result (λ error. error_kind error ≡ ErrorKind.InvalidInput) }
    {
        let Some(own) = addresses.get(me.index()).copied() else {
            return Err(io::Error::from(ErrorKind::InvalidInput));
        };
        let socket = UdpSocket::bind(rt, own)?;
        UdpWire::over(rt, alloc, socket, addresses)
    }

    /// Returns a wire over a bound socket to the members at `addresses`, by number. Fails with `OutOfMemory` if there are not some 5 MB, and with the system's error if it refuses to poll
    /// or to tell the socket's address.
    pub fn over(
        rt: &impl Net,
        alloc: Global,
        socket: UdpSocket,
        addresses: Vec<SocketAddr>,
    ) -> io::Result<UdpWire>
        ensures { IfOk result (λ w. w ≡ new_wire addresses.items) }
    {
        let mut socket = socket;
        ask_for_room(&socket);
        let failure = note_failures(alloc, &socket, addresses.as_slice())?;
        let poll = Poll::new(rt)?;
        let events = Events::with_capacity(alloc, 2)?;
        poll.registry()
            .register(&mut socket, SOCKET, Interest::READABLE)?;
        let waker = Arc::new(alloc, WireWaker::new(poll.registry(), WAKER)?)?;
        Ok(UdpWire {
            socket: Outlet::new(socket),
            inbox: Inbox::new(alloc, addresses, Arc::try_clone(&failure)?)?,
            room: vec![in alloc; 0; LONGEST]?,
            calls: 0,
            poll,
            events,
            waker,
            failures: 0,
            failure,
            losses: Losses::none(),
        })
    }

    /// Returns a handle that ends this wire's pauses from any thread. Each call returns the same one. Fails only if out of memory.
    pub fn waker(&self) -> Result<Arc<WireWaker, Global>, AllocError> {
        Arc::try_clone(&self.waker)
    }

    /// Returns where any thread may read which call of this wire failed first, and why. Each call returns the same one. Fails only if out of memory.
    pub fn first_failure(&self) -> Result<Arc<FirstFailure, Global>, AllocError> {
        Arc::try_clone(&self.failure)
    }

    /// Returns how many datagrams were lost so far, as far as the system told, by kind.
    pub fn losses(&self) -> Losses
        ensures { result ≡ self.now.losses }
    {
        self.losses
    }

    /// Drops and counts from now on what doesn't come from the address of a member, and what names another sender than the member of the address that it comes from. The system tells where a datagram comes from, and a sender may forge that. What waits already stays.
    pub fn keep_to_roster(&mut self)
        ensures { self.new ≡ record self.old { inbox = record self.old.inbox { only_roster = true } } }
    {
        self.inbox.keep_to_roster();
    }

    /// Returns the address that the socket is bound to, with the port that the system chose if it was to choose one. Fails with the system's error.
    pub fn local_address(&self) -> io::Result<SocketAddr> {
        self.socket.local_addr()
    }

    /// Returns how many datagrams were dropped so far, by cause.
    pub fn dropped(&self) -> Dropped
        ensures { result ≡ self.now.inbox.dropped }
    {
        self.inbox.dropped()
    }

    // Takes in what lies in the socket, if that is due or wasn't done for long.
    fn look(&mut self, is_due: bool)
        ensures takes { TakesIn 256 self.old.inbox self.new.inbox }
        ensures rest { self.new ≡ with_inbox self.new.inbox self.old }
    {
        self.calls = self.calls.saturating_add(1);
        if is_due || self.calls >= CALLS {
            self.calls = 0;
            self.inbox.take_in(&self.socket, self.room.as_mut_slice());
        }
    }

    // Counts a failure.
    fn fail(&mut self) -> WireFault
        ensures one { self.new ≡ one_more_failure self.old }
        ensures counted { CountsIf true self.old.failures self.new.failures }
    {
        count_failure(&mut self.failures)
    }

    #[tactic(auto, using(crate::proofs::Counting::loss_counted, crate::proofs::Counting::failure_counted))]
    // Counts a loss of this kind, or else a failure.
    fn count(&mut self, loss: Option<Loss>) -> Result<(), WireFault>
        ensures one { self.new ≡ after_error loss self.old }
        ensures failed { is_err result ≡ is_none loss }
        ensures failures { CountsIf (is_err result) self.old.failures self.new.failures }
        ensures each { CountsEach result self.old self.new }
        ensures inbox { self.new.inbox ≡ self.old.inbox }
        ensures refused { self.new.refused ≡ self.old.refused }
    {
        match loss {
            Some(loss) => {
                self.losses.count(loss);
                Ok(())
            }
            None => Err(self.fail()),
        }
    }

    #[tactic(auto, using(crate::proofs::Counting::none_counted, crate::proofs::Counting::failure_counted))]
    // Counts what the system answers to a send of so many bytes to a member.
    fn settle_send(
        &mut self,
        to: Member,
        length: usize,
        answer: io::Result<usize>,
    ) -> Result<(), WireFault>
        ensures one { self.new ≡ after_send length answer self.old }
        ensures failed { is_err result ≡ send_fails length answer }
        ensures failures { CountsIf (is_err result) self.old.failures self.new.failures }
        ensures each { CountsEach result self.old self.new }
        ensures inbox { self.new.inbox ≡ self.old.inbox }
        ensures refused { self.new.refused ≡ self.old.refused }
    {
        match answer {
            Ok(count) if count == length => Ok(()),
            Ok(_) => Err(self.fail()),
            Err(error) => {
                self.failure.note_send(to, &error);
                self.count(loss_of(&error))
            }
        }
    }
}

impl Wire for UdpWire {
    ghost use Rattle.std.specs.Prelude.{◌≡◌, None};
    ghost use Rattle.srm_udp.specs.Udp.{ReceivesNext, SendsOne, counted_by};

    ghost failure_count = { λ w. w.failures };

    ghost told = { λ w. None };

    ghost counted = { counted_by };

    ghost sends = { λ w sent failed h. SendsOne sent failed w h };

    ghost receives = { λ w room answer h. ReceivesNext room answer w h };

    ghost pauses = { λ w micros h. h ≡ w };

    /// Sends a datagram by one call of the system, without copying it: contracts see its bytes, and the address that they were for. What the system says was lost is counted by its kind, and is no error: a datagram of more
    /// than 65,507 bytes counts as [`Loss::TooLong`]. Fails, and counts a failure, if the member has no address, the system sends only a part, or its error is no
    /// loss. Before each sixteenth call it takes in what lies in the socket.
    fn send(&mut self, to: Member, datagram: &[u8]) -> Result<(), WireFault>
        ensures failures { CountsIf (is_err result) self.old.failures self.new.failures }
        ensures each { CountsEach result (with_refused self.new.refused (posted (bytes_to to datagram.now) self.old)) self.new }
        ensures tells { TellsMore [] (sent_by to datagram.now result) None None }
        ensures sends { SendsOne (bytes_to to datagram.now) (is_err result) self.old self.new }
    {
        let found = self.inbox.roster().get(to.index()).copied();
        self.look(false);
        let Some(address) = found else {
            return Err(self.fail());
        };
        let answer = self.socket.send_to(datagram, address);
        self.settle_send(to, datagram.len(), answer)
    }

    #[tactic(auto, using(crate::proofs::Counting::within_next))]
    /// Moves the oldest datagram that waits into the buffer, and returns how many bytes it has there; what doesn't fit is dropped. If none waits, it receives the next one
    /// right into the buffer, by one call of the system, and one more for each that it drops. Returns `None` if none is there, or 256 were dropped. At each sixteenth
    /// send or receive, and for a buffer of up to 8 bytes if none waits, it first takes in up to 256 from the socket, by one call of the system each and one more.
    ///
    /// An error that the system told meanwhile is returned before all datagrams, once: for a loss it counts its kind and returns `None`, though datagrams may wait;
    /// any other error is counted and returned as [`WireFault`]. It answers each error that the system returned on receiving, in order, and no other; at most one waits. It never
    /// waits and allocates nothing.
    fn receive(&mut self, buffer: &mut [u8]) -> Result<Option<usize>, WireFault>
        ensures within { IfOk result (λ some. IfSome some (λ count. count ≤ length buffer.new)) }
        ensures failures { CountsIf (is_err result) self.old.failures self.new.failures }
        ensures each { CountsReceive result self.old self.new }
        ensures tells { TellsMore (answered buffer.new result) [] None None }
        ensures receives { ReceivesNext (length buffer.new) (answered buffer.new result) self.old self.new }
    {
        // What a short buffer has no sender of is judged in the queue.
        let is_due = buffer.len() <= SENDER_PLACE && self.inbox.is_empty();
        self.look(is_due);
        match self.inbox.next(&self.socket, buffer) {
            Next::Datagram(count) => Ok(count),
            Next::Failed(error) => {
                self.count(error)?;
                Ok(None)
            }
        }
    }

    /// Waits until a datagram came, another thread woke it, or `micros` microseconds went by, rounded up to whole milliseconds. Returns at once if a datagram or an error waits,
    /// something was left in the socket, or a wake came since the last pause. A wake that is found at once leaves the system's event behind, which may end the next pause early.
    fn pause(&mut self, micros: u64)
        ensures { self.new ≡ self.old }
    {
        let woken = self.waker.take();
        if micros == 0 || woken || !self.inbox.is_drained() || !self.inbox.is_empty() {
            return;
        }
        // A wait that the system refuses ends at once: the next `receive` tells why.
        let _ = self
            .poll
            .poll(&mut self.events, Some(Duration::from_micros(micros)));
        self.waker.take();
        // The poll reports once what came since the socket was found empty.
        if self.events.iter().any(|event| event.token() == SOCKET) {
            self.inbox.fill();
        }
    }

    fn failures(&self) -> u64 {
        self.failures
    }

    fn counts(&self) -> WireCounts {
        WireCounts {
            failures: self.failures,
            lost: self.losses,
            dropped: self.inbox.dropped().by_cause(),
        }
    }
}

// Makes the note of the calls that fail. Fails if out of memory, and with the system's error if it refuses to tell the socket's address.
fn note_failures(
    alloc: Global,
    socket: &UdpSocket,
    roster: &[SocketAddr],
) -> io::Result<Arc<FirstFailure, Global>> {
    let own = socket.local_addr()?;
    let roster = roster.to_vec(alloc)?;
    Ok(Arc::new(alloc, FirstFailure::new(own, roster))?)
}
