//! The limits of a control.

/// The most commands whose answers the control hasn't taken: 8.
pub const COMMANDS: u8 = 8;
