//! What stands in a room's file.

ghost use Rattle.std.specs.Prelude.{◌≡◌};
ghost use Rattle.srm_room.specs.Documents.{key_of};

use std::fmt;

/// A key of a room's file.
#[derive(Clone, Copy, Debug, PartialEq, Eq)]
pub enum Field {
    /// `ringyew`, the version of the format.
    Ringyew,
    /// `session`, the number of the session.
    Session,
    /// `key`, the key in hexadecimal digits.
    Key,
    /// `member`, the members in the order of their places.
    Member,
    /// `settings`, what holds for all members.
    Settings,
    /// `name`, a member's name.
    Name,
    /// `address`, a member's address.
    Address,
    /// `waits`, how long a request and a repair wait.
    Waits,
    /// `least-distance`, the least distance that counts.
    LeastDistance,
    /// `rate`, the bytes a second.
    Rate,
    /// `depth`, the depth of the bucket.
    Depth,
    /// `linger`, for how long a live member lingers.
    Linger,
    /// `most-missing`, how many drawops may be missing.
    MostMissing,
}

/// The table of a room's file that a key stands in.
#[derive(Clone, Copy, Debug, PartialEq, Eq)]
pub enum Place {
    /// The file itself.
    Top,
    /// The member of this place, from 0.
    Member(usize),
    /// `[settings]`.
    Settings,
}

impl Field {
    /// Returns the key as it is written.
    pub fn key(self) -> &'static str
        ensures { result.now ≡ key_of self }
    {
        match self {
            Field::Ringyew => "ringyew",
            Field::Session => "session",
            Field::Key => "key",
            Field::Member => "member",
            Field::Settings => "settings",
            Field::Name => "name",
            Field::Address => "address",
            Field::Waits => "waits",
            Field::LeastDistance => "least-distance",
            Field::Rate => "rate",
            Field::Depth => "depth",
            Field::Linger => "linger",
            Field::MostMissing => "most-missing",
        }
    }

    /// Returns what is to be written at the key, with an example.
    pub fn wanted(self) -> &'static str {
        match self {
            Field::Ringyew => "the format, ringyew = 1",
            Field::Session => "a whole number below 2^32, as session = 7",
            Field::Key => "hexadecimal digits in quotes, or let srm room new choose it",
            Field::Member => "[[member]] with a name and an address for each",
            Field::Settings =>
                "[settings] with waits, least-distance, rate, depth, linger and most-missing",
            Field::Name => "a text, as name = \"ada\"",
            Field::Address => "a text, as address = \"192.0.2.7:47100\"",
            Field::Waits => "four numbers from 0 to 16, as waits = [2, 2, 1, 1]",
            Field::LeastDistance => "microseconds from 1 to 10000000, as least-distance = 5000",
            Field::Rate => "bytes a second from 1 to 100000000, as rate = 64000",
            Field::Depth => "bytes from 1051 to 1000000, as depth = 4204",
            Field::Linger => "microseconds from 0 to 30000000, as linger = 6000000",
            Field::MostMissing => "drawops from 1 to 16777216, as most-missing = 16777216",
        }
    }
}

impl fmt::Display for Field {
    fn fmt<W: fmt::Write>(&self, f: &mut fmt::Formatter<W>) -> fmt::Result {
        f.write_str(self.key())
    }
}

impl fmt::Display for Place {
    fn fmt<W: fmt::Write>(&self, f: &mut fmt::Formatter<W>) -> fmt::Result {
        match self {
            Place::Top => Ok(()),
            Place::Member(place) => write!(f, "member {place}: "),
            Place::Settings => f.write_str("settings: "),
        }
    }
}
