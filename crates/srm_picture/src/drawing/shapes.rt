//! Brackets and arrows.

use crate::arrow::{Arrow, ArrowEnd, Launch};
use crate::bracket::{Bracket, TimerEnd};
use crate::drawing::labels::{line_of, write_text};
use crate::layout::{LINE, Layout};
use crate::picture::Picture;
use crate::point::Point;
use crate::subject::Subject;
use srm_names::Member;
use std::alloc::Global;
use std::io;
use std::io::Write;

/// How many pixels the arrow of a lost datagram goes to the side.
const STUB: u64 = 60;

/// How many pixels it goes down.
const FALL: u64 = 14;

pub(super) fn write_brackets<W: Write>(
    alloc: Global,
    out: &mut W,
    subject: &Subject<'_>,
    picture: &Picture,
    layout: &Layout,
) -> io::Result<()> {
    for (index, bracket) in picture.brackets.iter().enumerate() {
        let x = layout.bracket_x(index, bracket.from.member);
        let class = bracket.kind.printed();
        write!(out, "<g class=\"bracket {class}\"><title>")?;
        let line = line_of(subject.lines_of(bracket.from.entry), b"arm ", bracket.nth);
        write_text(alloc, out, line)?;
        writeln!(out, ", {}</title>", ending_of(bracket))?;
        write_bracket(out, layout, bracket, x)?;
        writeln!(out, "</g>")?;
    }
    Ok(())
}

/// How a timer ends, in words.
fn ending_of(bracket: &Bracket) -> &'static str {
    match bracket.end {
        None => "still running",
        Some(end) => match end.ending {
            TimerEnd::RanOut => "ran out",
            TimerEnd::BackedOff => "backed off",
            TimerEnd::Cancelled => "cancelled",
        },
    }
}

fn write_bracket<W: Write>(
    out: &mut W,
    layout: &Layout,
    bracket: &Bracket,
    x: u64,
) -> io::Result<()> {
    let from = layout.y(bracket.from.entry, 0).saturating_add(3);
    let Some(end) = bracket.end else {
        return writeln!(
            out,
            "<path d=\"M{} {from}H{x}V{}\"/>",
            x.saturating_add(6),
            layout.bottom()
        );
    };
    let until = layout
        .y(end.entry, 0)
        .saturating_sub(3)
        .max(from.saturating_add(6));
    writeln!(
        out,
        "<path d=\"M{} {from}H{x}V{until}h6\"/>",
        x.saturating_add(6)
    )?;
    match end.ending {
        TimerEnd::RanOut => Ok(()),
        TimerEnd::BackedOff => write_strike(out, x, from, until, "l10 -8"),
        TimerEnd::Cancelled => write_strike(out, x, from, until, "l10 -8m0 8l-10 -8"),
    }
}

/// Strikes a bracket in its middle.
fn write_strike<W: Write>(
    out: &mut W,
    x: u64,
    from: u64,
    until: u64,
    strokes: &str,
) -> io::Result<()> {
    let middle = from.saturating_add(until) / 2;
    writeln!(
        out,
        "<path class=\"strike\" d=\"M{} {}{strokes}\"/>",
        x.saturating_sub(5),
        middle.saturating_add(4)
    )
}

pub(super) fn write_arrows<W: Write>(
    alloc: Global,
    out: &mut W,
    subject: &Subject<'_>,
    picture: &Picture,
    layout: &Layout,
) -> io::Result<()> {
    for arrow in &picture.arrows {
        write!(
            out,
            "<g class=\"arrow {}\"><title>",
            arrow.launch.kind.printed()
        )?;
        write_title(alloc, out, subject, arrow)?;
        writeln!(out, "</title>")?;
        write_arrow(out, layout, arrow)?;
        writeln!(out, "</g>")?;
    }
    Ok(())
}

/// Writes the lines of an arrow's sending and of its arrival.
fn write_title<W: Write>(
    alloc: Global,
    out: &mut W,
    subject: &Subject<'_>,
    arrow: &Arrow,
) -> io::Result<()> {
    let launch = arrow.launch;
    write_text(
        alloc,
        out,
        line_of(subject.lines_of(launch.from.entry), b"out ", launch.nth),
    )?;
    match arrow.end {
        ArrowEnd::Accepted(at) | ArrowEnd::Ignored(at) => {
            write!(out, ", ")?;
            write_text(
                alloc,
                out,
                line_of(subject.lines_of(at.entry), b"heard ", 0),
            )
        }
        ArrowEnd::Lost => write!(out, ", never delivered"),
    }
}

fn write_arrow<W: Write>(out: &mut W, layout: &Layout, arrow: &Arrow) -> io::Result<()> {
    match &arrow.end {
        ArrowEnd::Accepted(at) => {
            write!(out, "<path class=\"way taken\" d=\"")?;
            write_way(out, layout, arrow, at)?;
            writeln!(out, "\"/>")
        }
        ArrowEnd::Ignored(at) => {
            write!(out, "<path class=\"way\" d=\"")?;
            write_way(out, layout, arrow, at)?;
            writeln!(out, "\"/>")?;
            write_cross(out, layout.x(at.member), layout.y(at.entry, 0))
        }
        ArrowEnd::Lost => write_lost(out, layout, &arrow.launch),
    }
}

/// Writes an arrow that ends between the lifelines.
fn write_lost<W: Write>(out: &mut W, layout: &Layout, launch: &Launch) -> io::Result<()> {
    let x = layout.x(launch.from.member);
    let y = layout.y(launch.from.entry, launch.nth);
    let end = lost_x(layout, launch.from.member, x);
    let bottom = y.saturating_add(FALL);
    writeln!(out, "<path class=\"way\" d=\"M{x} {y}L{end} {bottom}\"/>")?;
    write_cross(out, end, bottom)
}

/// Writes the way from the sending to the arrival: a straight line, or a bow if both are at one member.
fn write_way<W: Write>(out: &mut W, layout: &Layout, arrow: &Arrow, at: &Point) -> io::Result<()> {
    let from = &arrow.launch.from;
    let x = layout.x(from.member);
    let y = layout.y(from.entry, arrow.launch.nth);
    let end = layout.y(at.entry, 0);
    if at.member == from.member {
        let bow = x.saturating_add(LINE).saturating_add(LINE);
        write!(out, "M{x} {y}C{bow} {y} {bow} {end} {x} {end}")
    } else {
        write!(out, "M{x} {y}L{} {end}", layout.x(at.member))
    }
}

fn write_cross<W: Write>(out: &mut W, x: u64, y: u64) -> io::Result<()> {
    writeln!(
        out,
        "<path class=\"cross\" d=\"M{} {}l10 10m0 -10l-10 10\"/>",
        x.saturating_sub(5),
        y.saturating_sub(5)
    )
}

/// Where the arrow of a lost datagram ends: right of its sender, or left of the last member.
fn lost_x(layout: &Layout, member: Member, x: u64) -> u64 {
    if layout.is_last(member) {
        x.saturating_sub(STUB)
    } else {
        x.saturating_add(STUB)
    }
}
