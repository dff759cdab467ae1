//! What is lost on its way out.

ghost use Rattle.std.specs.Prelude.{◌≡◌};
ghost use Rattle.srm_wire.specs.Wires.{one_more};
ghost use Rattle.srm_wire.specs.Counts.{no_losses, with_loss};

/// How a datagram was lost, as the system tells the member that sent it.
#[derive(Clone, Copy, Debug, PartialEq, Eq)]
pub enum Loss {
    /// The network or the host is down, or there is no route to it.
    NoWay,
    /// The system denies it, as a firewall does.
    Denied,
    /// It is too long for the socket or the route.
    TooLong,
    /// The system's buffers are full.
    NoRoom,
    /// An earlier one went to a port that nobody has bound.
    PortClosed,
}

/// How many datagrams were lost on their way out, by kind. Each count stops at the greatest u64.
#[derive(Clone, Copy, Debug, PartialEq, Eq)]
pub struct Losses {
    /// Those without a route, or with the network or the host down.
    pub no_way: u64,
    /// Those that the system denied.
    pub denied: u64,
    /// Those that were too long.
    pub too_long: u64,
    /// Those that found the system's buffers full.
    pub no_room: u64,
    /// Those to a port that nobody has bound.
    pub port_closed: u64,
}

impl Losses {
    /// Returns counts of 0.
    pub fn none() -> Losses
        ensures { result ≡ no_losses }
    {
        Losses {
            no_way: 0,
            denied: 0,
            too_long: 0,
            no_room: 0,
            port_closed: 0,
        }
    }

    /// Counts one more of a kind. The counts of the other kinds stay.
    pub fn count(&mut self, loss: Loss)
        ensures { self.new ≡ with_loss loss self.old }
    {
        match loss {
            Loss::NoWay => self.no_way = one_more(self.no_way),
            Loss::Denied => self.denied = one_more(self.denied),
            Loss::TooLong => self.too_long = one_more(self.too_long),
            Loss::NoRoom => self.no_room = one_more(self.no_room),
            Loss::PortClosed => self.port_closed = one_more(self.port_closed),
        }
    }
}

// Returns one more, up to the greatest u64.
fn one_more(count: u64) -> u64
    ensures { result ≡ one_more count }
{
    count.saturating_add(1)
}
