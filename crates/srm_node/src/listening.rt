//! Hearing what came.

ghost use Rattle.std.specs.Prelude.{◌≡◌, ◌≤◌, true, false, length, MatchResult};
ghost use Rattle.srm_names.specs.declared.limits.TheConstants.{LATEST_MOMENT};
ghost use Rattle.srm_world.specs.Claims.{IsLawfulJournal};
ghost use Rattle.srm_wire.specs.Wires.{CountsIf};
ghost use Rattle.srm_node.specs.declared.limits.TheConstants.{BUFFER_BYTES};
ghost use Rattle.srm_node.specs.Limits.{HearsOne, TakesOne};
ghost use Rattle.srm_node.specs.Parts.{Listened, ListenedCut};
ghost use Rattle.srm_node.specs.Waits.{WaitsByWords};

use crate::fault::OutOfMemory;
use crate::limits::DATAGRAMS_A_TURN;
use crate::missing_limit::{Judged, MissingLimit};
use srm_agent::Entry;
use srm_timers::Words;
use srm_wire::Wire;
use srm_world::{Past, Recorder};

/// What came to a turn: how many datagrams, and whether a receive failed.
#[derive(Clone, Copy)]
pub struct Listening {
    /// How many datagrams came, those that were dropped too.
    pub count: u8,
    /// Whether a receive failed.
    pub failed: bool,
}

/// Hears what came: up to 64 datagrams, until none is there or a receive fails. A datagram that the limit doesn't let through is dropped and counted, and has no
/// entry. Fails only if out of memory, and then the datagram that was being heard is lost.
pub fn listen<W: Words + Drop, P: Past<Entry> + Drop, X: Wire>(
    recorder: &mut Recorder<W, P>,
    wire: &mut X,
    buffer: &mut [u8],
    limit: &mut MissingLimit,
    now: u64,
) -> Result<Listening, OutOfMemory>
    requires moment { now ≤ LATEST_MOMENT }
    requires lawful { IsLawfulJournal recorder.old.journal }
    requires room { length buffer.old ≡ BUFFER_BYTES }
    ensures lawful { IsLawfulJournal recorder.new.journal }
    ensures words { WaitsByWords W.next_word recorder.old recorder.new }
    ensures failures { MatchResult result (λ heard. CountsIf heard.failed (X.failure_count wire.old) (X.failure_count wire.new)) (λ _. CountsIf false (X.failure_count wire.old) (X.failure_count wire.new)) }
    ensures hears { MatchResult result (λ heard. Listened X.receives now heard.count heard.failed limit.old limit.new recorder.old.journal recorder.new.journal (X.told wire.old) (X.told wire.new) wire.old wire.new)
        (λ _. ListenedCut X.receives now limit.old limit.new recorder.old.journal recorder.new.journal (X.told wire.old) (X.told wire.new) wire.old wire.new) }
{
    for count in 0..DATAGRAMS_A_TURN {
        match wire.receive(buffer) {
            Err(_) => return Ok(Listening {
                count,
                failed: true,
            }),
            Ok(None) => return Ok(Listening {
                count,
                failed: false,
            }),
            Ok(Some(length)) => {
                let Ok(_) = take_in(recorder, &buffer[..length], limit, now) else {
                    return Err(OutOfMemory);
                };
            }
        }
    }
    Ok(Listening {
        count: DATAGRAMS_A_TURN,
        failed: false,
    })
}

// Hears a datagram, or drops and counts it, as the limit says. Fails only if out of memory, and then the datagram is neither heard nor counted.
fn take_in<W: Words + Drop, P: Past<Entry> + Drop>(
    recorder: &mut Recorder<W, P>,
    bytes: &[u8],
    limit: &mut MissingLimit,
    now: u64,
) -> Result<(), OutOfMemory>
    requires moment { now ≤ LATEST_MOMENT }
    requires lawful { IsLawfulJournal recorder.old.journal }
    ensures lawful { IsLawfulJournal recorder.new.journal }
    ensures words { WaitsByWords W.next_word recorder.old recorder.new }
    ensures takes { MatchResult result (λ _. TakesOne now bytes.now limit.old limit.new recorder.old.journal recorder.new.journal) (λ _. (recorder.new.journal ≡ recorder.old.journal) × (limit.new ≡ limit.old)) }
{
    match limit.judge(recorder, bytes) {
        Judged::Within => hear_one(recorder, bytes, now),
        Judged::Excess => {
            limit.count_excess();
            Ok(())
        }
        Judged::Unjudged => {
            limit.count_unjudged();
            Ok(())
        }
    }
}

// Hears a datagram. Fails only if out of memory, and then nothing is heard.
fn hear_one<W: Words + Drop, P: Past<Entry> + Drop>(
    recorder: &mut Recorder<W, P>,
    bytes: &[u8],
    now: u64,
) -> Result<(), OutOfMemory>
    requires { now ≤ LATEST_MOMENT }
    ensures lawful { IsLawfulJournal recorder.new.journal }
    ensures words { WaitsByWords W.next_word recorder.old recorder.new }
    ensures hears { MatchResult result (λ _. HearsOne now bytes.now recorder.old.journal recorder.new.journal) (λ _. recorder.new.journal ≡ recorder.old.journal) }
{
    let Ok(_) = recorder.hear(bytes, now) else {
        return Err(OutOfMemory);
    };
    Ok(())
}
