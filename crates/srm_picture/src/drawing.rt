//! Drawing pictures as SVG.

mod frame;
mod labels;
mod legend;
mod shapes;

use crate::layout::Layout;
use crate::picture::Picture;
use crate::subject::Subject;
use std::alloc::Global;
use std::io;
use std::io::Write;

/// Writes the picture of a session as one SVG file. `subject` is the session that the picture was made of.
///
/// Fails if the output does, or if out of memory; what was written before stays in the output.
pub fn write_svg<W: Write>(
    alloc: Global,
    out: &mut W,
    subject: &Subject<'_>,
    picture: &Picture,
) -> io::Result<()> {
    let layout = Layout::of(alloc, subject, picture)?;
    frame::write_head(out, subject, &layout)?;
    frame::write_moments(out, subject, &layout)?;
    frame::write_lifelines(out, subject, picture, &layout)?;
    shapes::write_brackets(alloc, out, subject, picture, &layout)?;
    shapes::write_arrows(alloc, out, subject, picture, &layout)?;
    labels::write_datagrams(out, subject, picture, &layout)?;
    labels::write_notches(alloc, out, subject, picture, &layout)?;
    legend::write_legend(out, &layout)
}
