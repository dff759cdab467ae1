//! A clock that takes no time to read.

use srm_node::Clock;

/// A clock that stands.
#[derive(Clone, Copy)]
pub struct Still;

impl Clock for Still {
    ghost use Rattle.std.specs.Prelude.{◌≡◌};

    ghost reads = { λ old told new. told ≡ 5 };

    fn now(&mut self) -> u64 {
        5
    }
}
