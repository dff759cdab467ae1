//! What holds of every run whose members did what records tell.

ghost use Rattle.srm_gaps.specs.Retelling.{OrderLaw, RefusalLaw, RetellingLaw};

/// States that a run goes on from what is told of its members, and does nothing. Let an honest run be one whose members did what is told, by the calls that act. Leave out of its
/// order the calls of those members that don't act, and put in those that are told. Then the order is as honest, what acts in it is the same, and each member's part begins with
/// what is told of it, and is no more unless more may be missing.
pub fn runs_go_on()
    ensures { RetellingLaw }
{}

/// States that a refusal holds of the runs themselves, and does nothing. Where [`first_stuck`](crate::first_stuck) names a call, no honest run is one whose members did what is told,
/// by the calls that act, whatever they did behind it.
pub fn refusals_hold()
    ensures { RefusalLaw }
{}

/// States that nothing need be supposed where all that was sent is told, and does nothing. If each member of an honest run is told of, and sent no more than what is told, then the
/// calls that are told have an honest order by themselves.
pub fn orders_are_told()
    ensures { OrderLaw }
{}
