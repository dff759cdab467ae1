//! The statuses that the program ends with, if not with 0. A live member may also end with 5, which is `WAS_BEFORE` of `srm_live`.

/// The status if the input is bad, input or output fails, or a key file can't be used: 1.
pub const FAILED: u8 = 1;

/// The status of a wrong command line: 2.
pub const WRONG_USAGE: u8 = 2;

/// The status if a wire can't be opened or fails, or a host isn't found: 3.
pub const WIRE_FAILED: u8 = 3;

/// The status if memory runs out, or the turns are spent: 4.
pub const RAN_OUT: u8 = 4;
