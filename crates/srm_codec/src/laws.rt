//! What spelling and judging are to each other.

ghost use Rattle.srm_codec.specs.Laws.{JudgingUndoesSpelling, SpellingsAreUnique};

/// States the law that judging bytes in a session finds a datagram exactly if they spell it there, and does nothing. So each list of bytes spells one datagram or
/// has one first fault.
pub fn judging_undoes_spelling()
    ensures { JudgingUndoesSpelling }
{}

/// States the law that no two datagrams share a spelling, whatever their sessions, and that no datagram has the same spelling in two sessions. It does nothing.
pub fn spellings_are_unique()
    ensures { SpellingsAreUnique }
{}
