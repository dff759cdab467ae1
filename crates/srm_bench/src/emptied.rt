//! How long a bucket goes without being empty.

/// When a tick last left a bucket empty, and the longest time until the next such tick so far, in microseconds.
#[derive(Clone, Copy)]
pub struct Emptied {
    last: u64,
    longest: u64,
}

impl Emptied {
    /// Counts from a moment on.
    pub fn from(moment: u64) -> Emptied {
        Emptied {
            last: moment,
            longest: 0,
        }
    }

    /// A tick left the bucket empty, or it isn't looked at any more.
    pub fn note(&mut self, moment: u64) {
        let passed = moment.saturating_sub(self.last);
        self.longest = self.longest.max(passed);
        self.last = moment;
    }

    pub fn longest(self) -> u64 {
        self.longest
    }
}
