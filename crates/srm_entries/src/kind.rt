//! The kinds of datagrams.

ghost use Rattle.std.specs.Prelude.{◌≡◌};
ghost use Rattle.srm_entries.specs.Kinds.{kind_of};

use srm_codec::Datagram;

/// The kinds of datagrams.
#[derive(Clone, Copy, Debug, PartialEq, Eq)]
pub enum DatagramKind {
    /// A new drawop.
    Data,
    /// A request for missing drawops.
    Request,
    /// A drawop that a member sends again.
    Repair,
    /// A session message; a farewell is one too.
    Session,
}

impl DatagramKind {
    /// Returns the kind of a datagram.
    pub fn of(datagram: &Datagram) -> DatagramKind
        ensures { result ≡ kind_of datagram.now }
    {
        match datagram {
            Datagram::Data(_) => DatagramKind::Data,
            Datagram::Request { .. } => DatagramKind::Request,
            Datagram::Repair { .. } => DatagramKind::Repair,
            Datagram::Session { .. } => DatagramKind::Session,
        }
    }

    /// Returns its word in what `srm world` prints.
    pub fn printed(self) -> &'static str {
        match self {
            DatagramKind::Data => "data",
            DatagramKind::Request => "request",
            DatagramKind::Repair => "repair",
            DatagramKind::Session => "session",
        }
    }
}
