//! What holds of what a node hears.

ghost use Rattle.srm_node.specs.Limits.{AllIsHeard};

/// Without a limit to what may be missing a node hears each datagram that its receives answered, in order, and counts none as dropped.
pub fn without_a_limit_all_is_heard()
    ensures { AllIsHeard }
{}
