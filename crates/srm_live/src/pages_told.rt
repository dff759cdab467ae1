//! Which pages have strokes.

use crate::desk::Desk;
use crate::shown_page::ShownPage;
use crate::tally::Tally;
use crate::teller::Teller;
use srm_names::Page;
use std::io::Write;
use std::sync::Wait;

/// Tells which pages have strokes, and which page typed lines are drawn on. If out of memory, a line is left out.
pub fn tell_pages<R: Wait, O: Write, E: Write>(rt: &R, drawn_on: &Page, desk: &Desk<O, E>) {
    if let Some(tally) = desk.tally() {
        tell_drawn_on(rt, tally, desk);
    }
    let shown = ShownPage(*drawn_on);
    if let Ok(line) = format!(in desk.alloc(); "srm: what is typed is drawn on page {shown}\n") {
        desk.tell(rt, line.as_str());
    }
}

// Tells which pages have strokes, each once. The page of the member's last stroke is told too if the turn that drew it hasn't ended yet: a command's answer comes before.
fn tell_drawn_on<R: Wait, O: Write, E: Write>(rt: &R, tally: &Tally, desk: &Desk<O, E>) {
    let last = tally.drawn_page();
    let mut is_last_told = false;
    for holes in tally.holes().pages() {
        if let Some(page) = holes.page() {
            tell_page(rt, &page, desk);
            is_last_told = is_last_told || last == Some(page);
        }
    }
    if let (Some(page), false) = (last, is_last_told) {
        tell_page(rt, &page, desk);
    }
}

fn tell_page<R: Wait, O: Write, E: Write>(rt: &R, page: &Page, desk: &Desk<O, E>) {
    let shown = ShownPage(*page);
    if let Ok(line) = format!(in desk.alloc(); "srm: page {shown} has strokes\n") {
        desk.tell(rt, line.as_str());
    }
}
