//! The random numbers that choose waits.

ghost use Rattle.std.specs.Prelude.{◌≡◌, ℕ, ◌+◌, ◌-◌, ◌%◌, ◌≤◌, ◌<◌, ◌^◌};

/// A source of random numbers of 64 bits that never ends.
pub trait Words {
    // the number that comes next, and the generator after it
    ghost next_word: { Self → ℕ × Self };

    /// Returns the next random number.
    fn word(&mut self) -> u64
        ensures { (result, self.new) ≡ next_word self.old };
}

/// Returns a wait from `low` to `high` microseconds, both included: `low`, plus the next random number modulo the length of the range. The caller shows that `low`
/// isn't above `high`, and `high` below 2^63.
pub fn wait_between<W: Words>(low: u64, high: u64, words: &mut W) -> u64
    requires rises { low ≤ high }
    requires small { high < 2 ^ 63 }
    ensures value { result ≡ low + (W.next_word words.old).0 % (high - low + 1) }
    ensures words { words.new ≡ (W.next_word words.old).1 }
    ensures least { low ≤ result }
    ensures greatest { result ≤ high }
{
    low + words.word() % (high - low + 1)
}
