//! Who is here, and what is missing of whom.

use crate::desk::Desk;
use crate::presence::Standing;
use crate::tally::Tally;
use crate::teller::Teller;
use srm_names::Member;
use std::fmt;
use std::io::Write;
use std::sync::Wait;

/// Tells of each other member whether it is here and how many of its drawops are missing, and then what goes on. If out of memory, a line is left out.
pub fn tell_who<R: Wait, O: Write, E: Write>(rt: &R, desk: &Desk<O, E>) {
    let Some(tally) = desk.tally() else {
        return;
    };
    let config = desk.config();
    for number in 0..config.members() {
        if let Some(member) = Member::new(number) {
            if number != config.me().number() {
                tell_member(rt, member, tally, desk);
            }
        }
    }
    let activity = tally.activity(desk.others());
    if let Ok(line) = format!(in desk.alloc(); "{activity}\n") {
        desk.tell(rt, line.as_str());
    }
}

fn tell_member<R: Wait, O: Write, E: Write>(
    rt: &R,
    member: Member,
    tally: &Tally,
    desk: &Desk<O, E>,
) {
    let titled = desk.names().titled(member);
    let standing = ShownStanding(tally.presence().standing(member));
    let missing = tally.holes().of_member(member);
    if let Ok(line) = format!(in desk.alloc(); "srm: {titled} {standing}, missing {missing}\n") {
        desk.tell(rt, line.as_str());
    }
}

// What is known of a member, in words.
#[derive(Clone, Copy)]
struct ShownStanding(Standing);

impl fmt::Display for ShownStanding {
    fn fmt<W: fmt::Write>(&self, f: &mut fmt::Formatter<W>) -> fmt::Result {
        f.write_str(match self.0 {
            Standing::Unheard => "was not heard",
            Standing::Here => "is here",
            Standing::Silent => "was silent for 10 s",
            Standing::Left => "left",
        })
    }
}
