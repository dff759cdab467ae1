//! Deadlines that expire.

ghost use Rattle.std.specs.Prelude.{◌≡◌};
ghost use Rattle.srm_names.specs.Moments.{has_come};

/// Returns whether a deadline has expired at `now`: whether it isn't after it. Both are microseconds of one clock. `None` never expires.
pub fn has_come(moment: Option<u64>, now: u64) -> bool
    ensures { result ≡ has_come now moment }
{
    match moment {
        Some(moment) => moment <= now,
        None => false,
    }
}
