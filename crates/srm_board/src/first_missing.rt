//! The first names that a member misses, asked of it.

use srm_agent::Agent;
use srm_names::{Member, Name, Stream};
use srm_slate::{Hole, NAMED};
use srm_timers::Words;
use std::alloc::Global;

/// So many numbers are looked at, from the last one known on down, for the greatest that the member holds of a stream: whoever came late may miss tens of thousands there.
const LOOKED: u32 = 64;

/// Returns the first 64 names that a member misses, by page slot, source and number, each with how far its stream came: the greatest number that the member holds of the last 64
/// that it knows of there, or else how many it has in front of the first gap. `members` is how many members its session has, and `missing` how many names it misses: if none, no
/// stream is looked at. If out of memory, there are fewer names.
pub fn first_missing<W: Words + Drop>(
    alloc: Global,
    agent: &Agent<W>,
    members: u8,
    missing: u32,
) -> Vec<Hole> {
    let mut holes = Vec::new(alloc);
    if missing == 0 {
        return holes;
    }
    for page in agent.pages() {
        for number in 0..members {
            if let Some(source) = Member::new(number) {
                let stream = Stream {
                    source,
                    page: *page,
                };
                add_missing(&mut holes, agent, &stream);
            }
        }
    }
    holes
}

// Adds what is missing of a stream, as far as there is room for it.
fn add_missing<W: Words + Drop>(holes: &mut Vec<Hole>, agent: &Agent<W>, stream: &Stream) {
    if agent.missing_of(*stream) == 0 {
        return;
    }
    let reach = reach_of(agent, stream);
    // What stands in front of the first gap isn't missing, so nothing there is looked at.
    let mut after = agent.released(*stream);
    for _ in holes.len()..NAMED {
        let Some(name) = agent.next_missing(*stream, after) else {
            return;
        };
        if holes.push(Hole { name, reach }).is_err() {
            return;
        }
        after = name.number();
    }
}

// How far a stream came.
fn reach_of<W: Words + Drop>(agent: &Agent<W>, stream: &Stream) -> u32 {
    let known = agent.known(*stream);
    for behind in 0..LOOKED {
        let number = known.saturating_sub(behind);
        if is_held(agent, stream, number) {
            return number;
        }
    }
    agent.released(*stream)
}

fn is_held<W: Words + Drop>(agent: &Agent<W>, stream: &Stream, number: u32) -> bool {
    match Name::new(stream.source, stream.page, number) {
        Some(name) => agent.holds(name),
        None => false,
    }
}
