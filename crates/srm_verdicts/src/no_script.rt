//! Why a session can't be written as a script.

ghost use Rattle.std.specs.Prelude.{◌≡◌};
ghost use Rattle.std.specs.List.{list_all};
ghost use Rattle.srm_verdicts.specs.Unsaid as spec;

use srm_entries::{Config, Entry, Input};
use srm_frames::Record;
use thiserror::Error;

/// The most bytes that a script has.
pub const LONGEST_SCRIPT: usize = 1_000_000;

/// Why a session can't be written as a script, or drawn. Members have their numbers.
#[derive(Clone, Copy, Debug, PartialEq, Eq, Error)]
pub enum NoScript {
    /// In a script each member is made at moment 0, and this one was made later.
    #[error("srm: no script: member {0} was made later than at moment 0 of its clock")]
    MadeLater(u8),
    /// In a script each member waits 2,2,1,1 distances, and this one doesn't.
    #[error("srm: no script: member {0} has other --waits than 2,2,1,1")]
    Waits(u8),
    /// In a script all members have one rate and one depth, and this one has others than the first.
    #[error("srm: no script: member {0} has another --rate or --depth than the first")]
    Buckets(u8),
    /// In a script all members have one floor under distances, and this one has another than the first.
    #[error("srm: no script: member {0} has another --least-distance than the first")]
    Distances(u8),
    /// In a script strokes are printable ASCII, bytes 20 to 7E, and one of this member isn't.
    #[error("srm: no script: member {0} drew a stroke that isn't printable ASCII")]
    Stroke(u8),
    /// It would have more than [`LONGEST_SCRIPT`] bytes.
    #[error("srm: no script: it would have more than {LONGEST_SCRIPT} bytes")]
    TooLong,
    /// A picture has at most 2,000 events.
    #[error("srm: no picture: more than 2000 events")]
    TooManyEvents,
    /// Its script can't be read again. That is a mistake of this program.
    #[error("srm: no picture: its script can't be read")]
    Unread,
}

/// Returns why the run of these records can't be written as a script, whatever its length; `None` if it can. The first member that is at fault is named.
pub fn find_unsaid(records: &[Record], entries: &[Entry]) -> Option<NoScript>
    ensures { result ≡ spec.unsaid records.now entries.now }
{
    let [first, ..] = records else {
        return None;
    };
    if let Some(why) = unsaid_of_records(first.beginning.config, records) {
        return Some(why);
    }
    unsaid_of_entries(entries)
}

// Why no script says these members: the cause of the first that has one.
fn unsaid_of_records(usual: Config, records: &[Record]) -> Option<NoScript>
    ensures { result ≡ spec.unsaid_of_records usual records.now }
{
    for read in records {
        if let Some(why) = unsaid_of(usual, read.beginning.config, read.beginning.made) {
            return Some(why);
        }
    }
    None
}

// What no script says of a member with these settings that was made then.
fn unsaid_of(usual: Config, config: Config, made: u64) -> Option<NoScript>
    ensures { result ≡ spec.unsaid_of usual config made }
{
    let member = config.me().number();
    if made != 0 {
        return Some(NoScript::MadeLater(member));
    }
    if !has_usual_waits(config) {
        return Some(NoScript::Waits(member));
    }
    if !has_bucket_of(usual, config) {
        return Some(NoScript::Buckets(member));
    }
    if config.least_distance() != usual.least_distance() {
        return Some(NoScript::Distances(member));
    }
    None
}

fn has_usual_waits(config: Config) -> bool
    ensures { result ≡ spec.has_usual_waits config }
{
    config.c1() == 2 && config.c2() == 2 && config.d1() == 1 && config.d2() == 1
}

fn has_bucket_of(usual: Config, config: Config) -> bool
    ensures { result ≡ spec.has_bucket_of usual config }
{
    config.rate() == usual.rate() && config.depth() == usual.depth()
}

// The first stroke that no script says.
fn unsaid_of_entries(entries: &[Entry]) -> Option<NoScript>
    ensures { result ≡ spec.unsaid_of_entries entries.now }
{
    for entry in entries {
        if !is_printable(&entry.input) {
            return Some(NoScript::Stroke(entry.member.number()));
        }
    }
    None
}

fn is_printable(input: &Input) -> bool
    ensures { result ≡ spec.is_printable input.now }
{
    match input {
        Input::Drew(_, body) => are_printable(body),
        _ => true,
    }
}

fn are_printable(body: &[u8]) -> bool
    ensures { result ≡ list_all spec.is_printable_byte body.now }
{
    body.iter().all(is_printable_byte)
}

fn is_printable_byte(byte: &u8) -> bool
    ensures { result ≡ spec.is_printable_byte byte.now }
{
    (b' '..=b'~').contains(byte)
}
