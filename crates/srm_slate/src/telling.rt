//! What is new, as the text that a page reads.

use crate::door::Face;
use crate::happening::Happening;
use crate::hole::Hole;
use crate::look::{Counts, Look};
use crate::taken::Taken;
use srm_names::{Name, Page, PageMsg};
use std::alloc::{AllocError, Global};
use std::fmt;

/// Writes what is new as JSON: what the workers took, what befell the member, and how it stands. Fails only if out of memory.
pub fn text_of(alloc: Global, face: &Face, run: u64, look: &Look) -> Result<String, AllocError> {
    format!(in alloc; "{}", Told { face, run, look })
}

#[derive(Drop)]
struct Told<'a> {
    face: &'a Face,
    run: u64,
    look: &'a Look,
}

impl fmt::Display for Told<'_> {
    fn fmt<W: fmt::Write>(&self, f: &mut fmt::Formatter<W>) -> fmt::Result {
        write!(f, "{{\"me\":{},", self.face.me)?;
        write!(f, "\"members\":{},", self.face.members)?;
        write!(f, "\"session\":{},", self.face.session)?;
        write_names(f, self.face.names.as_slice())?;
        write!(f, "\"run\":\"{:x}\",", self.run)?;
        write_standing(f, self.look)?;
        write_counts(f, self.look.counts)?;
        write_heard(f, self.face.members, &self.look.heard)?;
        write_holes(f, self.look.holes.as_slice())?;
        write_reaches(f, self.look.holes.as_slice())?;
        write_happenings(f, self.look.happenings.as_slice())?;
        write_taken(f, self.look.taken.as_slice())?;
        f.write_char('}')
    }
}

fn write_standing<W: fmt::Write>(f: &mut fmt::Formatter<W>, look: &Look) -> fmt::Result {
    write!(f, "\"happened\":{},", look.happened)?;
    write!(f, "\"missing\":{},", look.missing)?;
    write!(f, "\"lossy\":{},", look.is_lossy)?;
    write!(f, "\"stale\":{},", look.is_stale)?;
    write!(f, "\"ended\":{},", look.has_ended)
}

// A comma before all but the first.
fn write_gap<W: fmt::Write>(f: &mut fmt::Formatter<W>, place: usize) -> fmt::Result {
    if place > 0 { f.write_char(',') } else { Ok(()) }
}

// What members are called, in JSON. A name has no control character.
fn write_names<W: fmt::Write>(f: &mut fmt::Formatter<W>, names: &[String]) -> fmt::Result {
    f.write_str("\"names\":[")?;
    for (place, name) in names.iter().enumerate() {
        write_gap(f, place)?;
        write_text(f, name.as_str())?;
    }
    f.write_str("],")
}

fn write_text<W: fmt::Write>(f: &mut fmt::Formatter<W>, text: &str) -> fmt::Result {
    f.write_char('"')?;
    for character in text.chars() {
        if character == '"' || character == '\\' {
            f.write_char('\\')?;
        }
        f.write_char(character)?;
    }
    f.write_char('"')
}

fn write_counts<W: fmt::Write>(f: &mut fmt::Formatter<W>, counts: Counts) -> fmt::Result {
    write!(f, "\"counts\":{{\"sent\":{},", counts.sent)?;
    write!(f, "\"came\":{},", counts.came)?;
    write!(f, "\"requests\":{},", counts.requests)?;
    write!(f, "\"repairs\":{},", counts.repairs)?;
    write!(f, "\"ignored\":{},", counts.ignored)?;
    write!(f, "\"noise\":{},", counts.noise)?;
    write!(f, "\"dropped\":{}}},", counts.dropped)
}

fn write_heard<W: fmt::Write>(
    f: &mut fmt::Formatter<W>,
    members: u8,
    heard: &[u64],
) -> fmt::Result {
    f.write_str("\"heard\":[")?;
    for (place, count) in heard.iter().take(usize::from(members)).enumerate() {
        write_gap(f, place)?;
        write!(f, "{count}")?;
    }
    f.write_str("],")
}

fn write_holes<W: fmt::Write>(f: &mut fmt::Formatter<W>, holes: &[Hole]) -> fmt::Result {
    f.write_str("\"holes\":[")?;
    for (place, hole) in holes.iter().enumerate() {
        write_gap(f, place)?;
        f.write_char('[')?;
        write_name(f, hole.name)?;
        f.write_char(']')?;
    }
    f.write_str("],")
}

// How far each stream came that has a hole.
fn write_reaches<W: fmt::Write>(f: &mut fmt::Formatter<W>, holes: &[Hole]) -> fmt::Result {
    f.write_str("\"reaches\":[")?;
    for (place, hole) in holes.iter().enumerate() {
        write_gap(f, place)?;
        let stream = hole.name.stream();
        write!(f, "[{},", stream.source.number())?;
        write_page(f, stream.page)?;
        write!(f, ",{}]", hole.reach)?;
    }
    f.write_str("],")
}

fn write_happenings<W: fmt::Write>(
    f: &mut fmt::Formatter<W>,
    happenings: &[Happening],
) -> fmt::Result {
    f.write_str("\"happenings\":[")?;
    for (place, happening) in happenings.iter().enumerate() {
        write_gap(f, place)?;
        write_happening(f, happening)?;
    }
    f.write_str("],")
}

fn write_happening<W: fmt::Write>(f: &mut fmt::Formatter<W>, happening: &Happening) -> fmt::Result {
    match happening {
        Happening::Missed(name) => write_named(f, "miss", *name)?,
        Happening::Asked(name) => write_named(f, "ask", *name)?,
        Happening::Repaired(name) => write_named(f, "fix", *name)?,
        Happening::Gained(name, by) => {
            write_named(f, "gain", *name)?;
            write!(f, ",{}", by.number())?;
        }
        Happening::Refused(page, cause, body) => {
            f.write_str("[\"refused\",")?;
            write_page(f, *page)?;
            write!(f, ",{cause},")?;
            write_bytes(f, body.as_slice())?;
        }
    }
    f.write_char(']')
}

fn write_named<W: fmt::Write>(f: &mut fmt::Formatter<W>, word: &str, name: Name) -> fmt::Result {
    write!(f, "[\"{word}\",")?;
    write_name(f, name)
}

fn write_taken<W: fmt::Write>(f: &mut fmt::Formatter<W>, taken: &[Taken]) -> fmt::Result {
    f.write_str("\"taken\":[")?;
    for (place, one) in taken.iter().enumerate() {
        write_gap(f, place)?;
        write_one(f, one.slot, &one.message)?;
    }
    f.write_char(']')
}

fn write_one<W: fmt::Write>(f: &mut fmt::Formatter<W>, slot: u8, message: &PageMsg) -> fmt::Result {
    match message {
        PageMsg::Open(page) => {
            write!(f, "[\"open\",{slot},")?;
            write_page(f, *page)?;
        }
        PageMsg::Draw(drawop) => {
            write!(f, "[\"draw\",{slot},{},", drawop.name.source().number())?;
            write!(f, "{},", drawop.name.number())?;
            write_bytes(f, drawop.body.as_slice())?;
        }
        PageMsg::Left(member) => write!(f, "[\"left\",{slot},{}", member.number())?,
        PageMsg::Close => write!(f, "[\"close\",{slot}")?,
    }
    f.write_char(']')
}

fn write_name<W: fmt::Write>(f: &mut fmt::Formatter<W>, name: Name) -> fmt::Result {
    write!(f, "{},", name.source().number())?;
    write_page(f, name.stream().page)?;
    write!(f, ",{}", name.number())
}

fn write_page<W: fmt::Write>(f: &mut fmt::Formatter<W>, page: Page) -> fmt::Result {
    write!(f, "\"{}.{}\"", page.creator.number(), page.number)
}

// Bytes as a text, a character each.
fn write_bytes<W: fmt::Write>(f: &mut fmt::Formatter<W>, bytes: &[u8]) -> fmt::Result {
    f.write_char('"')?;
    for run in bytes.chunk_by(|left, right| is_plain(*left) && is_plain(*right)) {
        write_run(f, run)?;
    }
    f.write_char('"')
}

// Bytes that all stand for themselves, or others.
fn write_run<W: fmt::Write>(f: &mut fmt::Formatter<W>, run: &[u8]) -> fmt::Result {
    match (run.first(), str::from_utf8(run)) {
        (Some(first), Ok(text)) if is_plain(*first) => f.write_str(text),
        _ => write_codes(f, run),
    }
}

fn write_codes<W: fmt::Write>(f: &mut fmt::Formatter<W>, bytes: &[u8]) -> fmt::Result {
    for byte in bytes {
        write!(f, "\\u00{byte:02x}")?;
    }
    Ok(())
}

// Whether a byte stands for itself in a text of JSON.
fn is_plain(byte: u8) -> bool {
    matches!(byte, b' ' | b'!' | b'#'..=b'[' | b']'..=b'~')
}
