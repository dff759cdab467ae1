//! Which lines a script may have.

/// Which lines a script may have.
#[derive(Clone, Copy, Debug, PartialEq, Eq)]
pub enum Dialect {
    /// The lines that every script may have.
    Plain,
    /// Also `distance L`, after `timers`: a distance to another member counts as at least `L` microseconds, 1 to 10,000,000.
    Extended,
}
