//! What the threads of a live member share: where it prints, what it counts, and what befell it.

ghost use Rattle.std.specs.Prelude.{◌≡◌, ◌≤◌, string_bytes, IfSome};
ghost use Rattle.srm_live.specs.declared.live_fault.TheConstants.{WAS_BEFORE};
ghost use Rattle.srm_live.specs.LiveStatuses.{status_of_live};

use crate::error_stream::ErrorStream;
use crate::live_fault::LiveFault;
use crate::printed::Printed;
use crate::tally::Tally;
use crate::teller::Teller;
use crate::title::Title;
use srm_agent::Config;
use srm_member::MemberFault;
use srm_names::Member;
use srm_options::{Called, Names};
use srm_script::{PrintedGone, ScriptFault};
use std::alloc::{AllocError, Global};
use std::io::{IsTerminal, Write};
use std::sync::atomic::{AtomicBool, Ordering};
use std::sync::{Arc, Mutex, Wait};

/// The streams that a live member prints to, what it counts, and what befell it so far.
#[derive(Drop)]
pub struct Desk<O, E> {
    alloc: Global,
    names: Names,
    config: Config,
    tally: Option<Arc<Tally, Global>>,
    out: Mutex<O>,
    err: Mutex<ErrorStream<E>>,
    // Whether standard error is a terminal.
    has_terminal: bool,
    ended: AtomicBool,
    // Whether nothing more is printed.
    closed: AtomicBool,
    lacks_memory: AtomicBool,
    output_failed: AtomicBool,
    input_failed: AtomicBool,
}

impl<O: Write, E: Write> Desk<O, E> {
    /// Makes the desk of a member with these settings that did nothing yet. If out of memory for the counts, nothing is counted, and if out of memory for the names, members are told by
    /// number.
    pub fn new(alloc: Global, names: &Names, config: Config, out: O, err: E) -> Desk<O, E>
    where
        E: IsTerminal,
    {
        let has_terminal = err.is_terminal();
        Desk {
            alloc,
            names: names.copy_or_none(alloc),
            config,
            tally: make_tally(alloc),
            out: Mutex::new(out),
            err: Mutex::new(ErrorStream::new(err)),
            has_terminal,
            ended: AtomicBool::new(false),
            closed: AtomicBool::new(false),
            lacks_memory: AtomicBool::new(false),
            output_failed: AtomicBool::new(false),
            input_failed: AtomicBool::new(false),
        }
    }

    /// Prints that the member is gone, unless an earlier line couldn't be printed.
    pub fn print_gone<R: Wait>(&self, rt: &R) {
        match format!(in self.alloc; "gone {}\n", self.called(self.config.me())) {
            Ok(line) => {
                let _ = self.print_line(rt, line);
            }
            Err(_) => self.note(&ScriptFault::Memory),
        }
    }

    /// Prints a line, which has its line end, at once and whole. Returns `None` if an earlier one couldn't be printed, or this one can't be, which is noted.
    pub fn print_line<R: Wait>(&self, rt: &R, line: String) -> Option<Printed>
        ensures { IfSome result (λ printed. printed ≡ string_bytes line) }
    {
        let mut out = self.out.lock(rt);
        // Looked at while no other thread prints, so that nothing stands behind a part of a line.
        if self.closed.load(Ordering::SeqCst) {
            return None;
        }
        let printed = Printed::on(&mut *out, line);
        if printed.is_none() {
            self.note(&ScriptFault::Output);
        }
        printed
    }

    /// Tells that a line isn't drawn. The member goes on.
    pub fn refuse<R: Wait>(&self, rt: &R, number: u64) {
        let _ = self.print_fault(
            rt,
            &LiveFault::Member(MemberFault::Script(ScriptFault::BadLine(number))),
        );
    }

    /// Prints a fault, and returns its status.
    pub fn print_fault<R: Wait>(&self, rt: &R, fault: &LiveFault) -> u8
        ensures status { result ≡ status_of_live fault.now }
        ensures greatest { result ≤ WAS_BEFORE }
    {
        let mut err = self.err.lock(rt);
        err.print(fault)
    }

    /// Notes what befell the member's streams, or that memory ran out.
    pub fn note(&self, fault: &ScriptFault) {
        match fault {
            ScriptFault::Memory => self.lacks_memory.store(true, Ordering::SeqCst),
            ScriptFault::Output => self.output_failed.store(true, Ordering::SeqCst),
            ScriptFault::StandardInput | ScriptFault::TooLong | ScriptFault::BadLine(_) => {
                self.input_failed.store(true, Ordering::SeqCst);
                return;
            }
        }
        self.closed.store(true, Ordering::SeqCst);
    }

    /// Returns the first of these that was noted: out of memory, an output that failed, an input that failed.
    pub fn noted(&self) -> Option<ScriptFault> {
        if self.lacks_memory.load(Ordering::SeqCst) {
            Some(ScriptFault::Memory)
        } else if self.output_failed.load(Ordering::SeqCst) {
            Some(ScriptFault::Output)
        } else if self.input_failed.load(Ordering::SeqCst) {
            Some(ScriptFault::StandardInput)
        } else {
            None
        }
    }

    /// Returns the member's settings.
    pub fn config(&self) -> Config {
        self.config
    }

    /// Returns what displays a member: as its name, or its number.
    pub fn called(&self, member: Member) -> Called<'_> {
        self.names.called(member)
    }

    /// Returns how many other members the session has.
    pub fn others(&self) -> u8 {
        self.config.members().saturating_sub(1)
    }

    /// Returns what the member counts, if there was memory for it.
    pub fn tally(&self) -> Option<&Tally> {
        self.tally.as_deref()
    }

    /// Returns the same for another thread; `None` if out of memory.
    pub fn share_tally(&self) -> Option<Arc<Tally, Global>> {
        match &self.tally {
            Some(tally) => Arc::try_clone(tally).ok(),
            None => None,
        }
    }

    /// Returns whether nothing more is drawn: nothing more is printed, or the node has ended.
    pub fn is_over(&self) -> bool {
        self.closed.load(Ordering::SeqCst) || self.ended.load(Ordering::SeqCst)
    }

    /// Says that the node has ended.
    pub fn end(&self) {
        self.ended.store(true, Ordering::SeqCst);
    }
}

impl<O: Write, E: Write> Teller for Desk<O, E> {
    fn tell<R: Wait>(&self, rt: &R, line: &str) {
        self.err.lock(rt).tell(line);
    }

    // What is typed stands in the same window as lines, so no line of it would do. If out of memory, a title is left out.
    fn show<R: Wait>(&self, rt: &R, tally: &Tally) {
        if !self.has_terminal {
            return;
        }
        let title = Title(tally.activity(self.others()));
        if let Ok(text) = format!(in self.alloc; "{title}") {
            self.err.lock(rt).show_title(text.as_str());
        }
    }

    // The window gets the title back that it had.
    fn close<R: Wait>(&self, rt: &R) {
        self.err.lock(rt).restore_title();
    }

    fn me(&self) -> Member {
        self.config.me()
    }

    fn names(&self) -> &Names {
        &self.names
    }

    fn alloc(&self) -> Global {
        self.alloc
    }

    fn ended(&self) -> &AtomicBool {
        &self.ended
    }
}

fn make_tally(alloc: Global) -> Option<Arc<Tally, Global>> {
    Arc::new(alloc, Tally::new(alloc).ok()?).ok()
}
