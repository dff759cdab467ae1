//! Strokes that are drawn as they are typed.

ghost use Rattle.std.specs.Prelude.{◌≡◌, ◌<◌, ◌≤◌, ◌∷◌, [], length, take, IfOk, IfSome, OnOk, OnErr, MatchResult, MatchOption};
ghost use Rattle.std.specs.Bool.{OnTrue};
ghost use Rattle.std.specs.Io.KnownBytes.{Consumes, Keeps, IsAtEnd};
ghost use Rattle.srm_names.specs.Names.{first_page};
ghost use Rattle.srm_live.specs.LiveRuns.{typist as typist_of};
ghost use Rattle.srm_live.specs.Typing.{SameTypist, Stays, Ends, DoesOrLeaves, DrawsOrLeaves, DrawsSome, DrawsLast, SentAllOf, SentPrefixOf};

use crate::cut::ReadingEnd;
use crate::desk::Desk;
use crate::lingering::Staying;
use crate::obeying::obey;
use crate::teller::Teller;
use crate::typed::{Line, Typed};
use crate::typist::{Finished, Typist};
use srm_member::{Waking, wake};
use srm_names::Page;
use srm_script::ScriptFault;
use std::alloc::Global;
use std::io::{ErrorKind, Read, Write};
use std::sync::Wait;
use std::thread;
use std::time::{Clock, Duration, Instant};

/// Bytes that are read at once, at most.
const READ: usize = 1_024;

/// How long to wait before a reader that has nothing yet is asked again, in microseconds. It is asked at once if its read took as long, as that of a polled input does.
const WAIT: u64 = 1_000;

/// Draws each line of a reader, or does what its command says, up to the reader's end or a command to leave. Then it stays, and returns the typist, who is done, with whether all was drawn.
/// Meanwhile the pages with strokes are shown in turn.
///
/// It stops drawing earlier if the output is closed, the input fails, memory runs out or the node has ended, and stays as long, but not past the node's end.
pub fn draw_typed<R: Clock + Wait, I: Read + Drop, O: Write, E: Write>(
    rt: &R,
    alloc: Global,
    reader: I,
    typist: Typist,
    staying: &Staying,
    desk: &Desk<O, E>,
    waker: &Waking,
) -> Finished
    ensures all { OnTrue result.all (SentAllOf (I.remaining reader) typist (typist_of result.inked result.control)) }
    ensures prefix { SentPrefixOf (I.remaining reader) typist (typist_of result.inked result.control) }
    ensures same { SameTypist typist (typist_of result.inked result.control) }
{
    let mut reader = reader;
    let mut typist = typist;
    let all = draw_and_stay(rt, alloc, &mut reader, &mut typist, staying, desk, waker);
    let finished = typist.done(all);
    wake(waker);
    finished
}

// Draws each line of a reader, and then stays. Whether all was drawn.
#[tactic(auto, using(crate::proofs::TypedLines::all_stays, crate::proofs::TypedLines::prefix_stays, crate::proofs::TypedLines::same_stays))]
fn draw_and_stay<R: Clock + Wait, I: Read, O: Write, E: Write>(
    rt: &R,
    alloc: Global,
    reader: &mut I,
    typist: &mut Typist,
    staying: &Staying,
    desk: &Desk<O, E>,
    waker: &Waking,
) -> bool
    ensures all { OnTrue result (SentAllOf (I.remaining reader.old) typist.old typist.new) }
    ensures prefix { SentPrefixOf (I.remaining reader.old) typist.old typist.new }
    ensures same { SameTypist typist.old typist.new }
{
    let all = draw_all(rt, alloc, reader, typist, desk, waker);
    stay(rt, typist, staying, desk, waker);
    all
}

// Draws each line of a reader, and notes the fault that ended it before. Whether all was drawn.
fn draw_all<R: Clock + Wait, I: Read, O: Write, E: Write>(
    rt: &R,
    alloc: Global,
    reader: &mut I,
    typist: &mut Typist,
    desk: &Desk<O, E>,
    waker: &Waking,
) -> bool
    ensures all { OnTrue result (SentAllOf (I.remaining reader.old) typist.old typist.new) }
    ensures prefix { SentPrefixOf (I.remaining reader.old) typist.old typist.new }
    ensures same { SameTypist typist.old typist.new }
{
    match draw_lines(rt, alloc, reader, typist, desk, waker) {
        Ok(()) => true,
        Err(ReadingEnd::Closed) => false,
        Err(ReadingEnd::Fault(fault)) => {
            desk.note(&fault);
            false
        }
    }
}

// Stays, and shows pages in turn meanwhile.
#[tactic(auto, using(crate::proofs::TypedLines::stays_none, crate::proofs::TypedLines::stays_on))]
fn stay<R: Clock + Wait, O: Write, E: Write>(
    rt: &R,
    typist: &mut Typist,
    staying: &Staying,
    desk: &Desk<O, E>,
    waker: &Waking,
)
    ensures { Stays typist.old typist.new }
{
    let mut stay = staying.begin(rt);
    for _ in rt.forever() {
        if !staying.nap(rt, &mut stay, desk.ended()) {
            return;
        }
        typist.turn_page(rt, desk.tally(), waker);
    }
    unreachable!()
}

// Draws each line of a reader, until it ends or one tells the member to leave.
#[tactic(auto, using(crate::proofs::TypedLines::prefix_none, crate::proofs::TypedLines::same_none))]
fn draw_lines<R: Clock + Wait, I: Read, O: Write, E: Write>(
    rt: &R,
    alloc: Global,
    reader: &mut I,
    typist: &mut Typist,
    desk: &Desk<O, E>,
    waker: &Waking,
) -> Result<(), ReadingEnd>
    ensures all { OnOk result (SentAllOf (I.remaining reader.old) typist.old typist.new) }
    ensures prefix { SentPrefixOf (I.remaining reader.old) typist.old typist.new }
    ensures same { SameTypist typist.old typist.new }
{
    let mut line = Line::new(alloc);
    let mut buffer = vec![in alloc; 0; READ]?;
    draw_read(
        rt,
        reader,
        buffer.as_mut_slice(),
        &mut line,
        typist,
        desk,
        waker,
    )
}

// Draws each line of a reader that is read by this buffer. While nothing is there yet, pages are shown in turn.
#[tactic(auto, using(crate::proofs::TypedLines::reads_none, crate::proofs::TypedLines::reads_end, crate::proofs::TypedLines::same_none, crate::proofs::TypedLines::same_stays))]
fn draw_read<R: Clock + Wait, I: Read, O: Write, E: Write>(
    rt: &R,
    reader: &mut I,
    buffer: &mut [u8],
    line: &mut Line,
    typist: &mut Typist,
    desk: &Desk<O, E>,
    waker: &Waking,
) -> Result<(), ReadingEnd>
    requires room { 0 < length buffer.old }
    requires none { line.old.kept ≡ [] }
    requires first { line.old.page ≡ first_page }
    ensures all { OnOk result (SentAllOf (I.remaining reader.old) typist.old typist.new) }
    ensures prefix { SentPrefixOf (I.remaining reader.old) typist.old typist.new }
    ensures same { SameTypist typist.old typist.new }
{
    for _ in rt.forever() {
        if desk.is_over() {
            return Err(ReadingEnd::Closed);
        }
        match read_next(rt, reader, buffer)? {
            None => typist.turn_page(rt, desk.tally(), waker),
            Some(0) => return draw_last(rt, typist, line, desk, waker),
            Some(count) => {
                if !draw_bytes(rt, typist, line, &buffer[..count], desk, waker)? {
                    return Ok(());
                }
            }
        }
    }
    unreachable!()
}

// Reads what is there. None where nothing is yet, and 0 bytes at the end of the input.
fn read_next<R: Clock, I: Read>(
    rt: &R,
    reader: &mut I,
    buffer: &mut [u8],
) -> Result<Option<usize>, ReadingEnd>
    requires { 0 < length buffer.old }
    ensures within { IfOk result (λ some. IfSome some (λ count. count ≤ length buffer.new)) }
    ensures reads { MatchResult result
        (λ some. MatchOption some (Keeps (I.remaining reader.old) (I.remaining reader.new)) (λ count. Consumes (I.remaining reader.old) (I.remaining reader.new) (take count buffer.new)))
        (λ _. Keeps (I.remaining reader.old) (I.remaining reader.new)) }
    ensures end { IfOk result (λ some. IfSome some (λ count. count ≡ 0 → IsAtEnd (I.remaining reader.new))) }
{
    let asked = Instant::now(rt).ok();
    match reader.read(buffer) {
        Ok(count) => Ok(Some(count)),
        Err(error) => match error.kind() {
            ErrorKind::Interrupted => Ok(None),
            ErrorKind::WouldBlock => {
                wait_since(rt, asked);
                Ok(None)
            }
            _ => Err(ReadingEnd::Fault(ScriptFault::of_input(error))),
        },
    }
}

// Waits before a reader is asked again, unless its read, which began at this moment, took as long.
fn wait_since<R: Clock>(rt: &R, asked: Option<Instant>) {
    if !has_waited(rt, asked) {
        thread::sleep(rt, Duration::from_micros(WAIT));
    }
}

// Whether as much time has passed since this moment. Not if the clock can't be read.
fn has_waited<R: Clock>(rt: &R, asked: Option<Instant>) -> bool {
    let Some(start) = asked else {
        return false;
    };
    let Ok(passed) = start.elapsed(rt) else {
        return false;
    };
    passed >= Duration::from_micros(WAIT)
}

// Draws these bytes, line by line. False if a line tells the member to leave, and then nothing behind it is drawn.
#[tactic(auto, using(crate::proofs::TypedLines::draws_none, crate::proofs::TypedLines::draws_more, crate::proofs::TypedLines::draws_some, crate::proofs::TypedLines::draws_all))]
fn draw_bytes<R: Clock + Wait, O: Write, E: Write>(
    rt: &R,
    typist: &mut Typist,
    line: &mut Line,
    bytes: &[u8],
    desk: &Desk<O, E>,
    waker: &Waking,
) -> Result<bool, ReadingEnd>
    ensures all { IfOk result (λ goes_on. DrawsOrLeaves goes_on bytes.now line.old.page line.old.kept typist.old line.new.page line.new.kept typist.new) }
    ensures some { OnErr result (DrawsSome bytes.now line.old.page line.old.kept typist.old typist.new) }
{
    for byte in bytes {
        if !draw_byte(rt, typist, line, *byte, desk, waker)? {
            return Ok(false);
        }
    }
    Ok(true)
}

// Takes the next byte of a line, which is drawn where it ends. False if that line tells the member to leave.
#[tactic(auto, using(crate::proofs::TypedLines::draws_byte, crate::proofs::TypedLines::draws_line_end, crate::proofs::TypedLines::draws_leave, crate::proofs::TypedLines::ends_none))]
fn draw_byte<R: Clock + Wait, O: Write, E: Write>(
    rt: &R,
    typist: &mut Typist,
    line: &mut Line,
    byte: u8,
    desk: &Desk<O, E>,
    waker: &Waking,
) -> Result<bool, ReadingEnd>
    ensures drawn { IfOk result (λ goes_on. DrawsOrLeaves goes_on (byte ∷ []) line.old.page line.old.kept typist.old line.new.page line.new.kept typist.new) }
    ensures ends { OnErr result (Ends typist.old typist.new) }
{
    if byte != b'\n' {
        line.push(byte)?;
        return Ok(true);
    }
    let typed = line.end()?;
    let page = line.page();
    let Some(turned) = draw_line(rt, typist, &page, typed, desk, waker)? else {
        return Ok(false);
    };
    line.turn_to(turned);
    Ok(true)
}

// Draws the last line, which lacks its end, unless it is empty.
#[tactic(auto, using(crate::proofs::TypedLines::draws_last_line, crate::proofs::TypedLines::draws_no_last, crate::proofs::TypedLines::ends_none))]
fn draw_last<R: Clock + Wait, O: Write, E: Write>(
    rt: &R,
    typist: &mut Typist,
    line: &mut Line,
    desk: &Desk<O, E>,
    waker: &Waking,
) -> Result<(), ReadingEnd>
    ensures drawn { OnOk result (DrawsLast line.old.page line.old.kept typist.old typist.new) }
    ensures ends { OnErr result (Ends typist.old typist.new) }
{
    if line.is_empty() {
        return Ok(());
    }
    let typed = line.end()?;
    let page = line.page();
    draw_line(rt, typist, &page, typed, desk, waker)?;
    Ok(())
}

// Draws a line that ended on this page, does what it says, or tells that it is too long. The page where who types stands then, or None if it tells the member to leave.
#[tactic(auto, using(crate::proofs::TypedLines::ends_none, crate::proofs::TypedLines::ends_behind))]
fn draw_line<R: Clock + Wait, O: Write, E: Write>(
    rt: &R,
    typist: &mut Typist,
    page: &Page,
    typed: Typed,
    desk: &Desk<O, E>,
    waker: &Waking,
) -> Result<Option<Page>, ReadingEnd>
    ensures does { IfOk result (λ turned. DoesOrLeaves typed page.now typist.old turned typist.new) }
    ensures ends { OnErr result (Ends typist.old typist.new) }
{
    if desk.is_over() {
        return Err(ReadingEnd::Closed);
    }
    // Where lines come without a pause, pages are still shown in turn.
    typist.turn_page(rt, desk.tally(), waker);
    do_line(rt, typist, page, typed, desk, waker)
}

// Does what a line says.
#[tactic(auto, using(crate::proofs::TypedLines::does_stroke, crate::proofs::TypedLines::does_nothing, crate::proofs::TypedLines::ends_still))]
fn do_line<R: Clock + Wait, O: Write, E: Write>(
    rt: &R,
    typist: &mut Typist,
    page: &Page,
    typed: Typed,
    desk: &Desk<O, E>,
    waker: &Waking,
) -> Result<Option<Page>, ReadingEnd>
    ensures does { IfOk result (λ turned. DoesOrLeaves typed page.now typist.old turned typist.new) }
    ensures ends { OnErr result (Ends typist.old typist.new) }
{
    match typed {
        Typed::Stroke(body) => {
            if !typist.draw(rt, page, body, desk.ended(), waker) {
                return Err(ReadingEnd::Closed);
            }
            Ok(Some(*page))
        }
        Typed::TooLong(number) => {
            desk.refuse(rt, number);
            Ok(Some(*page))
        }
        Typed::Order(command) => obey(rt, typist, command, page, desk, waker),
    }
}
