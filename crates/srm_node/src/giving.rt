//! Giving to the page workers.

ghost use Rattle.std.specs.Prelude.{◌≡◌, ◌<◌, ◌||◌, not, true, false, map, length, MatchResult};
ghost use Rattle.srm_names.specs.declared.limits.TheConstants.{PAGES};
ghost use Rattle.srm_pages.specs.Ends.{credit_of};
ghost use Rattle.srm_entries.specs.Giving.{given};
ghost use Rattle.srm_world.specs.Claims.{IsLawfulJournal};
ghost use Rattle.srm_node.specs.Carrying.{Carries, CarriesEach};
ghost use Rattle.srm_node.specs.Parts.{Gives, GivesUpTo, GaveSome};
ghost use Rattle.srm_node.specs.Nodes.{has_closed};
ghost use Rattle.srm_node.specs.Waits.{WaitsByWords};

use crate::fault::OutOfMemory;
use srm_agent::Entry;
use srm_names::PAGES;
use srm_pages::{Feed, is_close};
use srm_timers::Words;
use srm_world::{Past, Recorder};
use std::sync::Wait;

/// Gives each page slot messages while there is credit and something to give, unless its feed is disconnected. `closed` keeps for each feed whether it put its close;
/// `gave` becomes true with the first message that a lane takes, and else stays.
///
/// Fails only if out of memory. The slots before are served then.
pub fn give_all<R: Wait, W: Words + Drop, P: Past<Entry> + Drop>(
    rt: &R,
    recorder: &mut Recorder<W, P>,
    feeds: &mut Vec<Feed>,
    closed: &mut Vec<bool>,
    gave: &mut bool,
) -> Result<(), OutOfMemory>
    requires lawful { IsLawfulJournal recorder.old.journal }
    requires slots { length feeds.old.items ≡ PAGES }
    requires carries { CarriesEach recorder.old.journal feeds.old.items }
    requires closed { closed.old.items ≡ map has_closed feeds.old.items }
    ensures closed { closed.new.items ≡ map has_closed feeds.new.items }
    ensures words { WaitsByWords W.next_word recorder.old recorder.new }
    ensures gives { MatchResult result (λ _. GivesUpTo PAGES recorder.old.journal recorder.new.journal feeds.old.items feeds.new.items)
        (λ _. GaveSome recorder.old.journal recorder.new.journal feeds.old.items feeds.new.items) }
{
    for slot in 0..PAGES {
        let place = usize::from(slot);
        let feed = &mut feeds[place];
        let last = &mut closed[place];
        give_slot(rt, recorder, feed, slot, last, gave)?;
    }
    Ok(())
}

// Gives a slot while there is credit and something to give, unless its feed is disconnected.
fn give_slot<R: Wait, W: Words + Drop, P: Past<Entry> + Drop>(
    rt: &R,
    recorder: &mut Recorder<W, P>,
    feed: &mut Feed,
    slot: u8,
    closed: &mut bool,
    gave: &mut bool,
) -> Result<(), OutOfMemory>
    requires lawful { IsLawfulJournal recorder.old.journal }
    requires slot { slot < PAGES }
    requires carries { Carries (given recorder.old.journal.entries slot) feed.old }
    requires closed { closed.old ≡ has_closed feed.old }
    ensures closed { closed.new ≡ has_closed feed.new }
    ensures words { WaitsByWords W.next_word recorder.old recorder.new }
    ensures gives { MatchResult result (λ _. Gives slot true recorder.old.journal recorder.new.journal feed.old feed.new)
        (λ _. Gives slot false recorder.old.journal recorder.new.journal feed.old feed.new) }
{
    for _ in rt.forever() {
        if feed.is_disconnected() {
            return Ok(());
        }
        if feed.credit() == 0 {
            return Ok(());
        }
        let ended = give_next(rt, recorder, feed, slot, closed, gave)?;
        if ended {
            return Ok(());
        }
    }
    unreachable!()
}

// Gives the next message of a slot. Whether there was none, or the feed is disconnected.
fn give_next<R: Wait, W: Words + Drop, P: Past<Entry> + Drop>(
    rt: &R,
    recorder: &mut Recorder<W, P>,
    feed: &mut Feed,
    slot: u8,
    closed: &mut bool,
    gave: &mut bool,
) -> Result<bool, OutOfMemory>
    requires lawful { IsLawfulJournal recorder.old.journal }
    requires slot { slot < PAGES }
    requires stands { feed.old.disconnected ≡ false }
    requires credit { 0 < credit_of feed.old }
    requires carries { Carries (given recorder.old.journal.entries slot) feed.old }
    requires closed { closed.old ≡ has_closed feed.old }
    ensures closed { closed.new ≡ has_closed feed.new }
    ensures gave { MatchResult result (λ ended. gave.new ≡ (gave.old || not ended)) (λ _. gave.new ≡ gave.old) }
    ensures words { WaitsByWords W.next_word recorder.old recorder.new }
    ensures gives { MatchResult result (λ ended. Gives slot ended recorder.old.journal recorder.new.journal feed.old feed.new)
        (λ _. Gives slot false recorder.old.journal recorder.new.journal feed.old feed.new) }
{
    let Ok(given) = recorder.give(slot) else {
        return Err(OutOfMemory);
    };
    let Some(message) = given else {
        return Ok(true);
    };
    let closing = is_close(&message);
    let Ok(()) = feed.put(rt, message) else {
        return Ok(true);
    };
    *closed |= closing;
    *gave = true;
    Ok(false)
}
