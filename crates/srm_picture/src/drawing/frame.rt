//! The frame of a drawing: the title, the moments and the lifelines.

use crate::action::LocalActionKind;
use crate::drawing::legend::STYLE;
use crate::layout::{Layout, MOMENTS};
use crate::picture::Picture;
use crate::subject::Subject;
use srm_entries::SECOND;
use srm_names::Member;
use std::io;
use std::io::Write;

/// Writes the beginning of the file, and its title.
pub(super) fn write_head<W: Write>(
    out: &mut W,
    subject: &Subject<'_>,
    layout: &Layout,
) -> io::Result<()> {
    let width = layout.width();
    let height = layout.height();
    let members = subject.members;
    let events = subject.entries.len();
    writeln!(
        out,
        "<svg xmlns=\"http://www.w3.org/2000/svg\" width=\"{width}\" height=\"{height}\" viewBox=\"0 0 {width} {height}\" role=\"img\">"
    )?;
    writeln!(
        out,
        "<title>A session of {members} members in {events} events</title>"
    )?;
    out.write_all(STYLE)?;
    writeln!(
        out,
        "<rect class=\"paper\" width=\"{width}\" height=\"{height}\"/>"
    )?;
    writeln!(
        out,
        "<text class=\"head\" x=\"20\" y=\"28\">A session of {members} members in {events} events</text>"
    )
}

/// Writes a line for each entry, and its moment if it differs from the one before.
pub(super) fn write_moments<W: Write>(
    out: &mut W,
    subject: &Subject<'_>,
    layout: &Layout,
) -> io::Result<()> {
    let right = layout.width().saturating_sub(16);
    writeln!(
        out,
        "<text class=\"moment\" x=\"{}\" y=\"62\">seconds</text>",
        MOMENTS - 12
    )?;
    let mut last = None;
    for (index, entry) in subject.entries.iter().enumerate() {
        let y = layout.y(index, 0);
        writeln!(
            out,
            "<path class=\"guide\" d=\"M{} {y}H{right}\"/>",
            MOMENTS - 6
        )?;
        if last != Some(entry.moment) {
            write_moment(out, entry.moment, y)?;
        }
        last = Some(entry.moment);
    }
    Ok(())
}

/// Writes a moment in microseconds as seconds.
fn write_moment<W: Write>(out: &mut W, moment: u64, y: u64) -> io::Result<()> {
    writeln!(
        out,
        "<text class=\"moment\" x=\"{}\" y=\"{}\">{}.{:06}</text>",
        MOMENTS - 12,
        y.saturating_add(4),
        moment / SECOND,
        moment % SECOND
    )
}

/// Writes a line for each member, dashed once it is gone.
pub(super) fn write_lifelines<W: Write>(
    out: &mut W,
    subject: &Subject<'_>,
    picture: &Picture,
    layout: &Layout,
) -> io::Result<()> {
    for member in (0..subject.members).filter_map(Member::new) {
        write_lifeline(out, picture, layout, member)?;
    }
    Ok(())
}

fn write_lifeline<W: Write>(
    out: &mut W,
    picture: &Picture,
    layout: &Layout,
    member: Member,
) -> io::Result<()> {
    let x = layout.x(member);
    let bottom = layout.bottom();
    let end = gone_at(picture, layout, member).unwrap_or(bottom);
    let number = member.number();
    writeln!(out, "<path class=\"life\" d=\"M{x} 70V{end}\"/>")?;
    writeln!(out, "<path class=\"after\" d=\"M{x} {end}V{bottom}\"/>")?;
    writeln!(
        out,
        "<rect class=\"name\" x=\"{}\" y=\"46\" width=\"84\" height=\"24\" rx=\"5\"/>",
        x.saturating_sub(42)
    )?;
    writeln!(
        out,
        "<text class=\"name\" x=\"{x}\" y=\"62\">member {number}</text>"
    )
}

/// Pixels from the top to where a member is gone, if it is.
fn gone_at(picture: &Picture, layout: &Layout, member: Member) -> Option<u64> {
    let gone = picture.actions.iter().find(|action| action.kind == LocalActionKind::Gone
        && action.at.member == member)?;
    Some(layout.y(gone.at.entry, gone.nth))
}
