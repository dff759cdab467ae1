//! Printing what happened.

ghost use Rattle.std.specs.List.{AllByRecursion};
ghost use Rattle.srm_codec.specs.Spelling.{IsSpellable};

mod printed;

use printed::{PrintedAnswer, PrintedArm, PrintedName, PrintedPage};
pub use printed::{PrintedGone, PrintedTake};
use srm_agent::{Arm, Effects, Entry, Input, Verdict};
use srm_codec::{Datagram, length};
use srm_entries::DatagramKind;
use srm_names::{Member, Name};
use std::io;
use std::io::Write;

/// Prints entries as lines, and counts the datagrams that they sent.
#[derive(Drop)]
pub struct EntryPrinter {
    /// Whether timers are printed.
    timers: bool,
    /// How many datagrams were sent so far.
    sent: u64,
}

impl EntryPrinter {
    /// Makes a printer that has counted no datagram. `timers` says whether it prints timers.
    pub fn new(timers: bool) -> EntryPrinter {
        EntryPrinter { timers, sent: 0 }
    }

    /// Prints the lines of an entry. It numbers the datagrams that the entry sent in order, on from those printed before. The caller shows that each has a spelling,
    /// as those of every run have. Fails only if the output does.
    pub fn print_entry<W: Write>(&mut self, out: &mut W, entry: &Entry) -> io::Result<()>
        requires { AllByRecursion IsSpellable entry.now.effects.outs }
    {
        let member = entry.member.number();
        match entry.verdict {
            Verdict::Done => self.print_done(out, entry.member, &entry.input, &entry.effects),
            Verdict::Ignored(cause) => writeln!(out, "heard {member} ignored {}", cause.number()),
            Verdict::Refused(fault) => writeln!(out, "refused {member} {}", fault as u8),
        }
    }

    fn print_done<W: Write>(
        &mut self,
        out: &mut W,
        by: Member,
        input: &Input,
        effects: &Effects,
    ) -> io::Result<()>
        requires { AllByRecursion IsSpellable effects.now.outs }
    {
        let member = by.number();
        match input {
            Input::Drew(page, _) => print_drew(out, member, &PrintedPage(*page), effects),
            Input::Heard(_) | Input::Noise => {
                writeln!(out, "heard {member} taken")?;
                self.print_arms(out, member, effects.arms.as_slice())
            }
            Input::Ticked => self.print_tick(out, by, effects),
            Input::Showed(page) => writeln!(out, "shown {member} {}", PrintedPage(*page)),
            Input::AskedLeave => writeln!(out, "leaving {member}"),
            Input::Gave(slot) => {
                writeln!(
                    out,
                    "gave {member} {slot} {}",
                    PrintedAnswer(effects.message.as_ref())
                )
            }
            Input::Took(slot) => {
                let take = PrintedTake {
                    member: by,
                    slot: usize::from(*slot),
                    message: effects.message.as_ref(),
                };
                writeln!(out, "{take}")
            }
        }
    }

    /// Prints what a tick requested, repaired and sent, and whether the member is gone.
    fn print_tick<W: Write>(&mut self, out: &mut W, by: Member, effects: &Effects) -> io::Result<()>
        requires { AllByRecursion IsSpellable effects.now.outs }
    {
        let member = by.number();
        print_names(out, "ask", member, effects.asks.as_slice())?;
        print_names(out, "fix", member, effects.fixes.as_slice())?;
        self.print_arms(out, member, effects.arms.as_slice())?;
        self.print_outs(out, member, effects.outs.as_slice())?;
        if effects.becomes_gone() {
            writeln!(out, "{}", PrintedGone(by))?;
        }
        Ok(())
    }

    /// Prints a line for each timer, if timers are printed.
    fn print_arms<W: Write>(&self, out: &mut W, member: u8, arms: &[Arm]) -> io::Result<()> {
        if self.timers {
            for arm in arms {
                writeln!(out, "arm {member} {}", PrintedArm(arm))?;
            }
        }
        Ok(())
    }

    /// Prints a line for each datagram that was sent, with its number in the order of sending.
    fn print_outs<W: Write>(&mut self, out: &mut W, member: u8, outs: &[Datagram]) -> io::Result<()>
        requires { AllByRecursion IsSpellable outs.now }
    {
        for datagram in outs {
            let kind = DatagramKind::of(datagram).printed();
            writeln!(
                out,
                "out {} {member} {kind} {}",
                self.sent,
                length(datagram)
            )?;
            // No world lives long enough to send so many.
            self.sent = self.sent.saturating_add(1);
        }
        Ok(())
    }
}

fn print_drew<W: Write>(
    out: &mut W,
    member: u8,
    page: &PrintedPage,
    effects: &Effects,
) -> io::Result<()> {
    match &effects.drawn {
        None => Ok(()),
        Some(drawop) => writeln!(out, "drew {member} {page} {}", drawop.name.number()),
    }
}

fn print_names<W: Write>(out: &mut W, what: &str, member: u8, names: &[Name]) -> io::Result<()> {
    for name in names {
        writeln!(out, "{what} {member} {}", PrintedName(*name))?;
    }
    Ok(())
}
