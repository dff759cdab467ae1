//! Text beside the lifelines.

use crate::action::{LocalAction, LocalActionKind};
use crate::escaping::escaped;
use crate::layout::Layout;
use crate::picture::Picture;
use crate::subject::Subject;
use srm_codec::Datagram;
use std::alloc::Global;
use std::io::Write;
use std::{fmt, io};

/// A label has so many characters at most; its title has all.
const LABEL: usize = 34;

/// Writes text into XML.
pub(super) fn write_text<W: Write>(alloc: Global, out: &mut W, text: &[u8]) -> io::Result<()> {
    out.write_all(escaped(alloc, text)?.as_slice())
}

/// The nth line, from 0, that begins with a word, without its line feed; empty if there is none.
pub(super) fn line_of<'a>(lines: &'a [u8], word: &[u8], nth: usize) -> &'a [u8] {
    lines
        .split(|byte| *byte == b'\n')
        .filter(|line| line.starts_with(word))
        .nth(nth)
        .unwrap_or(b"")
}

/// Displays a datagram in short.
#[derive(Drop)]
struct ShownDatagram<'a>(&'a Datagram);

impl fmt::Display for ShownDatagram<'_> {
    fn fmt<W: fmt::Write>(&self, f: &mut fmt::Formatter<W>) -> fmt::Result {
        match self.0 {
            Datagram::Data(drawop) => write!(f, "data {}", drawop.name.number()),
            Datagram::Request { name, mask, .. } => {
                let more = if *mask == 0 { "" } else { " .." };
                write!(f, "request {}{more}", name.number())
            }
            Datagram::Repair { drawop, .. } => write!(f, "repair {}", drawop.name.number()),
            Datagram::Session { farewell, .. } => {
                write!(f, "{}", if *farewell { "farewell" } else { "session" })
            }
        }
    }
}

/// Writes a label for each datagram at its sending.
pub(super) fn write_datagrams<W: Write>(
    out: &mut W,
    subject: &Subject<'_>,
    picture: &Picture,
    layout: &Layout,
) -> io::Result<()> {
    let mut last = None;
    for arrow in &picture.arrows {
        if last == Some(arrow.number) {
            continue;
        }
        last = Some(arrow.number);
        let from = arrow.launch.from;
        let entry = subject.entries.get(from.entry);
        let datagram = entry.and_then(|entry| entry.effects.outs.as_slice().get(arrow.launch.nth));
        if let Some(datagram) = datagram {
            let x = layout.x(from.member).saturating_add(9);
            let y = layout.y(from.entry, arrow.launch.nth).saturating_sub(5);
            let class = arrow.launch.kind.printed();
            let shown = ShownDatagram(datagram);
            writeln!(
                out,
                "<text class=\"label {class}\" x=\"{x}\" y=\"{y}\">{shown}</text>"
            )?;
        }
    }
    Ok(())
}

/// Writes a notch and its line for each local action.
pub(super) fn write_notches<W: Write>(
    alloc: Global,
    out: &mut W,
    subject: &Subject<'_>,
    picture: &Picture,
    layout: &Layout,
) -> io::Result<()> {
    for action in &picture.actions {
        let line = line_of_action(subject, action);
        write!(out, "<g class=\"notch\"><title>")?;
        write_text(alloc, out, line)?;
        writeln!(out, "</title>")?;
        write_notch(out, layout, action)?;
        write_label(alloc, out, layout, action, line)?;
        writeln!(out, "</g>")?;
    }
    Ok(())
}

fn line_of_action<'a>(subject: &'a Subject<'_>, action: &LocalAction) -> &'a [u8] {
    let word: &[u8] = match action.kind {
        LocalActionKind::Gone => b"gone ",
        LocalActionKind::Drew
        | LocalActionKind::Gave
        | LocalActionKind::Took
        | LocalActionKind::Other => b"",
    };
    line_of(subject.lines_of(action.at.entry), word, 0)
}

fn write_notch<W: Write>(out: &mut W, layout: &Layout, action: &LocalAction) -> io::Result<()> {
    let x = layout.x(action.at.member);
    let y = layout.y(action.at.entry, action.nth);
    match action.kind {
        LocalActionKind::Drew => writeln!(
            out,
            "<rect class=\"drew\" x=\"{}\" y=\"{}\" width=\"9\" height=\"9\"/>",
            x.saturating_sub(4),
            y.saturating_sub(4)
        ),
        LocalActionKind::Gave => writeln!(out, "<path class=\"gave\" d=\"M{x} {y}h11\"/>"),
        LocalActionKind::Took => writeln!(
            out,
            "<path class=\"gave\" d=\"M{x} {y}h11\"/><circle class=\"took\" cx=\"{}\" cy=\"{y}\" r=\"3.5\"/>",
            x.saturating_add(9)
        ),
        LocalActionKind::Other => writeln!(out, "<path class=\"noted\" d=\"M{x} {y}h7\"/>"),
        LocalActionKind::Gone => writeln!(
            out,
            "<path class=\"gone\" d=\"M{} {y}h16\"/>",
            x.saturating_sub(8)
        ),
    }
}

fn write_label<W: Write>(
    alloc: Global,
    out: &mut W,
    layout: &Layout,
    action: &LocalAction,
    line: &[u8],
) -> io::Result<()> {
    let class = match action.kind {
        LocalActionKind::Other => "label dim",
        LocalActionKind::Drew
        | LocalActionKind::Gave
        | LocalActionKind::Took
        | LocalActionKind::Gone => "label",
    };
    let x = layout.x(action.at.member).saturating_add(17);
    let y = layout.y(action.at.entry, action.nth).saturating_add(4);
    write!(out, "<text class=\"{class}\" x=\"{x}\" y=\"{y}\">")?;
    let shown = line.get(..LABEL).unwrap_or(line);
    write_text(alloc, out, shown)?;
    if shown.len() < line.len() {
        write!(out, "&#8230;")?;
    }
    writeln!(out, "</text>")
}
