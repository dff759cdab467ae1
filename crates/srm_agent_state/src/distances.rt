//! The distances to all members at once.

ghost use Rattle.srm_distance.specs.Fits.{IsTableOf};
ghost use Rattle.srm_timers.specs.Distances.{AreDistances};

use srm_distance::Distances;

/// Returns the distance to each member in microseconds, at most 10,000,000, by the member's number. Takes no memory.
pub fn distance_table(distances: &Distances) -> &[u64]
    ensures range { AreDistances result.now }
    ensures value { IsTableOf distances.now result.now }
{
    distances.all()
}
