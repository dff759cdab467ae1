//! What holds of all that a live member prints.

ghost use Rattle.srm_live.specs.LiveLines.{PrintsAllLaw, PrintsFrontLaw};

/// States that a page worker's sink printed exactly the lines of the first of the messages that it saw, each once and in order, and of all of them unless one couldn't be printed. Does nothing.
#[tactic(auto, using(crate::proofs::LiveLines::prints_all, crate::proofs::LiveLines::prints_front))]
pub fn a_sink_prints_what_it_sees()
    ensures all { PrintsAllLaw }
    ensures front { PrintsFrontLaw }
{}
