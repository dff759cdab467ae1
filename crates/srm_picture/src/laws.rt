//! What holds of all pictures.

ghost use Rattle.srm_picture.specs.Laws.{OneActionsLaw, OneBracketsLaw, OneEndLaw, OneKindLaw};

/// States that the entries decide which brackets and local actions a picture has, and does nothing. Each timer has exactly one end, or none. Each entry shows
/// exactly one kind of local action, or none. So for given entries exactly one list of brackets and one list of local actions are right.
#[tactic(auto, using(crate::proofs::Determining::one_end_law, crate::proofs::Determining::one_kind_law, crate::proofs::Determining::one_brackets_law, crate::proofs::Determining::one_actions_law))]
pub fn entries_decide()
    ensures ends { OneEndLaw }
    ensures kinds { OneKindLaw }
    ensures brackets { OneBracketsLaw }
    ensures actions { OneActionsLaw }
{}
