//! Names with moments.

use srm_names::Name;

/// A name with a moment, in microseconds. `<` and `cmp` go by the moment and then by the name.
#[derive(Clone, Copy, Debug, PartialEq, Eq, PartialOrd, Ord)]
pub struct Timed {
    /// The moment, in microseconds.
    pub moment: u64,
    /// The name.
    pub name: Name,
}
