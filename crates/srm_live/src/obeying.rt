//! Doing what who types tells a live member.

ghost use Rattle.std.specs.Prelude.{IfOk, OnErr};
ghost use Rattle.srm_live.specs.Typing.{Turns, DoesOrLeaves, Ends};
ghost use Rattle.srm_live.specs.declared.typed.Typed.TheVariants.{Order};

use crate::command::Command;
use crate::cut::ReadingEnd;
use crate::desk::Desk;
use crate::pages_told::tell_pages;
use crate::teller::Teller;
use crate::typist::Typist;
use crate::who::tell_who;
use srm_control::{PageCommand, PageRefusal};
use srm_member::Waking;
use srm_names::Page;
use std::io::Write;
use std::sync::Wait;
use std::time::Clock;

/// The lines that `/help` prints.
const HELP: &str = "\
srm: each line is a stroke; a line that begins with // is one with one / less
srm: /page C.P  shows page P of member C, and draws there
srm: /new       begins a page, and draws there
srm: /pages     which pages have strokes
srm: /who       who is here, and what is missing of whom
srm: /leave     leaves, as the end of input does
srm: /help      these lines
";

/// The line for a command that there isn't, and for a page that there can't be.
const UNKNOWN: &str =
    "srm: no such command or page: /help names them, /page 0.1 names a page, and //x draws /x\n";

/// Does what a command says, typed by one who draws on this page, or tells that there is no such command or page. Returns the page where they draw from now on, `None` if the
/// member is to leave, and `Closed` if the node has ended and didn't answer.
#[tactic(auto, using(crate::proofs::TypedLines::does_show, crate::proofs::TypedLines::does_begin, crate::proofs::TypedLines::does_no_command, crate::proofs::TypedLines::does_pages, crate::proofs::TypedLines::does_who, crate::proofs::TypedLines::does_help, crate::proofs::TypedLines::leaves, crate::proofs::TypedLines::ends_none))]
pub fn obey<R: Clock + Wait, O: Write, E: Write>(
    rt: &R,
    typist: &mut Typist,
    command: Option<Command>,
    page: &Page,
    desk: &Desk<O, E>,
    waker: &Waking,
) -> Result<Option<Page>, ReadingEnd>
    ensures does { IfOk result (λ turned. DoesOrLeaves (Order command) page.now typist.old turned typist.new) }
    ensures ends { OnErr result (Ends typist.old typist.new) }
{
    match command {
        Some(Command::Show(named)) => {
            let shown = PageCommand::Show(named);
            Ok(Some(turn_by(rt, typist, &shown, page, desk, waker)?))
        }
        Some(Command::Begin) => {
            let begun = PageCommand::Begin;
            Ok(Some(turn_by(rt, typist, &begun, page, desk, waker)?))
        }
        Some(Command::Leave) => Ok(None),
        Some(Command::Pages) => {
            tell_pages(rt, page, desk);
            Ok(Some(*page))
        }
        Some(Command::Who) => {
            tell_who(rt, desk);
            Ok(Some(*page))
        }
        Some(Command::Help) => {
            desk.tell(rt, HELP);
            Ok(Some(*page))
        }
        None => {
            desk.tell(rt, UNKNOWN);
            Ok(Some(*page))
        }
    }
}

// Asks the node for a page, or tells why none is shown. The page where strokes are drawn from now on.
#[tactic(auto, using(crate::proofs::TypedLines::turns_shown, crate::proofs::TypedLines::turns_refused, crate::proofs::TypedLines::ends_heard))]
fn turn_by<R: Clock + Wait, O: Write, E: Write>(
    rt: &R,
    typist: &mut Typist,
    command: &PageCommand,
    page: &Page,
    desk: &Desk<O, E>,
    waker: &Waking,
) -> Result<Page, ReadingEnd>
    ensures turns { IfOk result (λ turned. Turns command.now page.now typist.old turned typist.new) }
    ensures ends { OnErr result (Ends typist.old typist.new) }
{
    match typist.ask(rt, command, desk.ended(), waker) {
        Some(Ok(shown)) => Ok(shown),
        Some(Err(refusal)) => {
            tell_refusal(rt, refusal, desk);
            Ok(*page)
        }
        None => Err(ReadingEnd::Closed),
    }
}

// Tells why a page isn't shown. If out of memory, it tells nothing.
fn tell_refusal<R: Wait, O: Write, E: Write>(rt: &R, refusal: PageRefusal, desk: &Desk<O, E>) {
    if let Ok(line) = format!(in desk.alloc(); "srm: the page isn't shown: {refusal}\n") {
        desk.tell(rt, line.as_str());
    }
}
