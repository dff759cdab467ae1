//! What the page workers of a live member hand their messages to.

ghost use Rattle.std.specs.Prelude.{◌≡◌, All, string_bytes, vec_len, IfOk};
ghost use Rattle.srm_names.specs.declared.limits.TheConstants.{PAGES};
ghost use Rattle.srm_live.specs.LiveLines.{new_printing, failed_printing, PrintsOrFails, PutsOrFails};

use crate::desk::Desk;
use crate::live_line::live_line;
use crate::printed::Printed;
use srm_names::{Member, PAGES, PageMsg};
use srm_node::PageSink;
use srm_options::Names;
use srm_pages::is_close;
use srm_script::ScriptFault;
use srm_world::{Forgotten, Past};
use std::alloc::{AllocError, Global};
use std::io::Write;
use std::marker::Model;
use std::sync::{Arc, Wait};

/// Prints each message as it is taken. Behind one that can't be printed it prints nothing more, and stops its worker at the close, which is the last message anyway: so who joins the worker
/// knows. Until then it stops no worker, since the others of the session go on.
///
/// Contracts see what members are called, the member, the lines that were printed, in order, and whether one couldn't be.
#[derive(Drop)]
pub struct Printing<R: Wait + Drop, O: Drop, E: Drop> {
    rt: R,
    alloc: Global,
    desk: Arc<Desk<O, E>, Global>,
    names: Names,
    me: Member,
    // For contracts alone.
    printed: Forgotten<Printed>,
    // Whether a line couldn't be printed.
    failed: bool,
}

impl<R: Wait + Drop, O: Drop, E: Drop> Model for Printing<R, O, E> {
    ghost use Rattle.srm_live.specs.LiveLines.{PrintingView};

    ghost Value = { PrintingView };

    ghost view = { λ p. record { names = p.names; me = p.me; lines = p.printed; failed = p.failed } };
}

impl<R: Wait + Drop, O: Write + Drop, E: Write + Drop> PageSink for Printing<R, O, E> {
    ghost use Rattle.srm_live.specs.LiveLines.{PrintsLine};

    ghost sees = { PrintsLine };

    fn message(&mut self, slot: u8, message: &PageMsg) -> bool {
        self.show(slot, message);
        !(is_close(message) && self.failed)
    }
}

impl<R: Wait + Drop, O: Write + Drop, E: Write + Drop> Printing<R, O, E> {
    // Prints the line of a message, unless an earlier one couldn't be printed.
    #[tactic(auto, using(crate::proofs::LiveLines::fails_on, crate::proofs::LiveLines::fails_now, crate::proofs::LiveLines::prints_now))]
    fn show(&mut self, slot: u8, message: &PageMsg)
        ensures { PrintsOrFails self.old slot message.now self.new }
    {
        if self.failed {
            return;
        }
        match live_line(self.alloc, &self.names, self.me, slot, message) {
            Ok(line) => self.print(line),
            Err(_) => {
                self.desk.note(&ScriptFault::Memory);
                self.fail();
            }
        }
    }

    // Prints a line, or notes that it can't be printed.
    #[tactic(auto, using(crate::proofs::LiveLines::puts_now, crate::proofs::LiveLines::puts_none))]
    fn print(&mut self, line: String)
        ensures { PutsOrFails self.old (string_bytes line) self.new }
    {
        match self.desk.print_line(&self.rt, line) {
            Some(printed) => self.printed.append(printed),
            None => self.fail(),
        }
    }

    // Notes that a line couldn't be printed.
    fn fail(&mut self)
        ensures { self.new ≡ failed_printing self.old }
    {
        self.failed = true;
    }
}

/// Makes a sink for each slot, which printed nothing yet. Fails only if out of memory.
pub fn printing_sinks<R: Wait + Copy + Drop, O: Write + Drop, E: Write + Drop>(
    rt: &R,
    alloc: Global,
    names: &Names,
    me: Member,
    desk: &Arc<Desk<O, E>, Global>,
) -> Result<Vec<Printing<R, O, E>>, AllocError>
    ensures count { IfOk result (λ sinks. vec_len sinks ≡ PAGES) }
    ensures new { IfOk result (λ sinks. All (λ s. s ≡ new_printing names.now me) sinks.items) }
{
    let mut sinks = Vec::new(alloc);
    for _ in 0..PAGES {
        sinks.push(Printing {
            rt: *rt,
            alloc,
            desk: Arc::try_clone(desk)?,
            names: names.copy(alloc)?,
            me,
            printed: Forgotten::new(),
            failed: false,
        })?;
    }
    Ok(sinks)
}
