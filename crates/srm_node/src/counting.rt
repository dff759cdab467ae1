//! What came to nothing, counted.

ghost use Rattle.std.specs.Prelude.{◌≡◌, if◌then◌else◌};
ghost use Rattle.srm_wire.specs.Wires.{one_more};
ghost use Rattle.srm_node.specs.Counting.{came_as_noise, was_dropped, was_ignored, count_up_to, counts_of};

use srm_agent::{CAUSES, Entry, Input, Verdict};

/// How much of what a member was given came to nothing. Each count stops at 2^64 - 1.
#[derive(Clone, Copy, Debug, PartialEq, Eq)]
pub struct Counts {
    /// The datagrams that are none of the session, or came to a member that was gone.
    pub noise: u64,
    /// The datagrams that were ignored, by cause, in this order: Own, Gone, Conflict, PageLimit, BeyondFinal, Decode, Stranger.
    pub ignored: [u64; CAUSES],
    /// The strokes that the agent refused.
    pub dropped: u64,
}

/// Counts over all entries. Takes no memory.
pub fn counts_in(entries: &[Entry]) -> Counts
    ensures { result ≡ counts_of entries.now }
{
    Counts {
        noise: all_noise(entries),
        ignored: [
            all_ignored(entries, 1),
            all_ignored(entries, 2),
            all_ignored(entries, 3),
            all_ignored(entries, 4),
            all_ignored(entries, 5),
            all_ignored(entries, 6),
            all_ignored(entries, 7),
        ],
        dropped: all_dropped(entries),
    }
}

#[tactic(auto, using(crate::proofs::Tallies::counts_more))]
fn all_noise(entries: &[Entry]) -> u64
    ensures { result ≡ count_up_to came_as_noise entries.now }
{
    let mut count = 0;
    for entry in entries {
        count = counted(count, is_noise(entry));
    }
    count
}

#[tactic(auto, using(crate::proofs::Tallies::counts_more))]
fn all_dropped(entries: &[Entry]) -> u64
    ensures { result ≡ count_up_to was_dropped entries.now }
{
    let mut count = 0;
    for entry in entries {
        count = counted(count, is_dropped(entry));
    }
    count
}

#[tactic(auto, using(crate::proofs::Tallies::counts_more))]
fn all_ignored(entries: &[Entry], number: u8) -> u64
    ensures { result ≡ count_up_to (was_ignored number) entries.now }
{
    let mut count = 0;
    for entry in entries {
        count = counted(count, is_ignored(entry, number));
    }
    count
}

fn counted(count: u64, more: bool) -> u64
    ensures { result ≡ (if more then one_more count else count) }
{
    if more { count.saturating_add(1) } else { count }
}

fn is_noise(entry: &Entry) -> bool
    ensures { result ≡ came_as_noise entry.now }
{
    matches!(entry.input, Input::Noise)
}

fn is_dropped(entry: &Entry) -> bool
    ensures { result ≡ was_dropped entry.now }
{
    match entry.input {
        Input::Drew(_, _) => matches!(entry.verdict, Verdict::Refused(_)),
        _ => false,
    }
}

fn is_ignored(entry: &Entry, number: u8) -> bool
    ensures { result ≡ was_ignored number entry.now }
{
    match entry.verdict {
        Verdict::Ignored(cause) => cause.number() == number,
        _ => false,
    }
}
