//! What holds of each room.

ghost use Rattle.srm_join.specs.Joining.{TakesSettings};

/// Whatever room it is, an agent takes the settings that it has for each of its members.
#[tactic(auto, using(crate::proofs::Taking::takes))]
pub fn settings_of_a_room_are_taken()
    ensures { TakesSettings }
{}
