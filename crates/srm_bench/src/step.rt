//! What members do with a drawop.

/// What a member did with a drawop; each number stands for it where it is told.
#[derive(Clone, Copy)]
#[repr(u8)]
pub enum Step {
    /// It found the drawop missing, or heard another's request for it.
    SetRequestTimer = 0,
    /// It holds the drawop and heard a request for it.
    SetRepairTimer = 1,
    Requested = 2,
    Repaired = 3,
    /// Its page worker was given the drawop.
    Gave = 4,
    /// It didn't hold the drawop as the network delivered again.
    Lacked = 5,
    /// From then on its bucket was empty after a tick each so long.
    Emptied = 6,
}
