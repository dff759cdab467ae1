//! What a room says of its members' settings.

ghost use Rattle.std.specs.Prelude.{◌≡◌};

/// A request waits `c1` to `c1 + c2` distances, and a repair `d1` to `d1 + d2`.
pub const GREATEST_WAIT: u32 = 16;

/// What a room says of its members' settings. Each has the name of an option of `srm node`. The waits and the least distance are the same for all members.
#[derive(Clone, Copy, Debug, PartialEq, Eq)]
pub struct RoomSettings {
    /// Distances that a request waits at least, 0 to 16.
    pub c1: u32,
    /// Distances that a request may wait beyond these, 0 to 16.
    pub c2: u32,
    /// Distances that a repair waits at least, 0 to 16.
    pub d1: u32,
    /// Distances that a repair may wait beyond these, 0 to 16.
    pub d2: u32,
    /// A distance counts as at least so many microseconds, 1 to 10,000,000.
    pub least_distance: u32,
    /// Bytes a second, 1 to 100,000,000.
    pub rate: u32,
    /// Depth of the bucket in bytes, 1,051 to 1,000,000.
    pub depth: u32,
    /// A live member leaves once nobody asked for what it holds for so many microseconds, 0 to 30,000,000.
    pub linger: u32,
    /// How many drawops may be missing, 1 to 16,777,216, which is all.
    pub most_missing: u32,
}

impl RoomSettings {
    /// Returns the settings that a live member has where nothing else is said.
    pub fn usual() -> RoomSettings {
        RoomSettings {
            c1: 2,
            c2: 2,
            d1: 1,
            d2: 1,
            least_distance: 5_000,
            rate: 64_000,
            depth: 4_204,
            linger: 6_000_000,
            most_missing: 16_777_216,
        }
    }
}
