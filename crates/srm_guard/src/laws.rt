//! What holds of all that comes to a guard with a seal.

ghost use Rattle.srm_guard.specs.Receives.{ReceivesOpen, SendsKeep};
ghost use Rattle.srm_guard.specs.Runs.{PassesNew};

use srm_wire::Wire;

/// Whatever comes, in whatever order: of what was sealed for this member by the key, a datagram is passed on exactly if its counter is new behind those of its sender that
/// came before. By the laws of `srm_window` no counter of a sender is passed on twice, and none that is new and not behind the window is dropped.
pub fn nothing_is_passed_on_twice()
    ensures { PassesNew }
{}

/// So it is over all receives and sends of a guard with a seal, over any wire: each receive opens what comes one after another, and brings of it the last at most; a send opens
/// nothing.
pub fn each_receive_opens<X: Wire + Drop>()
    ensures receives { ReceivesOpen X.receives }
    ensures sends { SendsKeep X.sends }
{}
