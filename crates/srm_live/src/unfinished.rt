//! What a member that ends didn't hear to its end.

use crate::desk::Desk;
use crate::holes::PageHoles;
use crate::presence::{Presence, Standing};
use crate::shown_page::ShownPage;
use crate::tally::Tally;
use crate::teller::Teller;
use srm_agent::Config;
use srm_names::{MEMBERS, Member};
use std::alloc::AllocError;
use std::io::Write;
use std::sync::Wait;

/// Tells which of the others weren't heard leaving, and which streams have drawops missing. If out of memory, a line is left out.
pub fn tell_unfinished<R: Wait, O: Write, E: Write>(rt: &R, tally: &Tally, desk: &Desk<O, E>) {
    let staying = Staying {
        presence: tally.presence(),
        config: desk.config(),
    };
    if staying.has_any() {
        if let Ok(line) = staying.line(desk) {
            desk.tell(rt, line.as_str());
        }
    }
    for holes in tally.holes().pages() {
        tell_holes(rt, holes, desk);
    }
}

// Tells which streams of a page have drawops missing.
fn tell_holes<R: Wait, O: Write, E: Write>(rt: &R, holes: &PageHoles, desk: &Desk<O, E>) {
    let Some(page) = holes.page() else {
        return;
    };
    let shown = ShownPage(page);
    for number in 0..MEMBERS {
        if let Some(member) = Member::new(number) {
            let count = holes.of_member(member);
            if count > 0 {
                tell_hole(rt, member, &shown, count, desk);
            }
        }
    }
}

fn tell_hole<R: Wait, O: Write, E: Write>(
    rt: &R,
    member: Member,
    page: &ShownPage,
    count: usize,
    desk: &Desk<O, E>,
) {
    let titled = desk.names().titled(member);
    if let Ok(line) = format!(in desk.alloc();
        "srm: missing {count} of {titled} on page {page}\n"
    ) {
        desk.tell(rt, line.as_str());
    }
}

// The others that weren't heard leaving.
#[derive(Clone, Copy)]
struct Staying {
    presence: Presence,
    config: Config,
}

impl Staying {
    fn has(&self, member: Member) -> bool {
        member.number() < self.config.members()
            && member.number() != self.config.me().number()
            && self.presence.standing(member) != Standing::Left
    }

    fn has_any(&self) -> bool {
        for number in 0..MEMBERS {
            if let Some(member) = Member::new(number) {
                if self.has(member) {
                    return true;
                }
            }
        }
        false
    }

    // Returns the line that names them, with commas between.
    fn line<O: Write, E: Write>(&self, desk: &Desk<O, E>) -> Result<String, AllocError> {
        let mut line = String::from_str(desk.alloc(), "srm: not heard leaving: ")?;
        let mut before = "";
        for number in 0..MEMBERS {
            if let Some(member) = Member::new(number) {
                if self.has(member) {
                    let one = format!(in desk.alloc(); "{before}{}", desk.called(member))?;
                    line.push_str(one.as_str())?;
                    before = ", ";
                }
            }
        }
        line.push_str("\n")?;
        Ok(line)
    }
}
