//! Which of several things comes first.

/// The earlier of what came first so far and what comes at this moment at this place. Of two at one moment it is the first.
pub fn earlier(earliest: Option<(u64, usize)>, at: u64, place: usize) -> Option<(u64, usize)> {
    match earliest {
        Some((before, _)) if before <= at => earliest,
        _ => Some((at, place)),
    }
}
