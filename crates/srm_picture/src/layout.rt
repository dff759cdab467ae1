//! Where shapes stand in a drawing, in pixels.

ghost use Rattle.std.specs.Prelude.{◌*◌, ◌<◌, ◌≤◌};

use crate::bracket::Bracket;
use crate::picture::Picture;
use crate::subject::Subject;
use srm_entries::Entry;
use srm_names::{MEMBERS, Member};
use std::alloc::{AllocError, Global};

/// The height of a line.
pub(crate) const LINE: u64 = 24;

/// The height above the first line, for the title and the members' names.
const HEAD: u64 = 92;

/// The height below the last line, for the legend.
const FOOT: u64 = 136;

/// The width left of all lifelines, for the moments.
pub(crate) const MOMENTS: u64 = 112;

/// The width right of the last lifeline, for its labels.
const LABELS: u64 = 220;

/// The width that the legend needs.
const LEAST_WIDTH: u64 = 700;

/// The width from one bracket to the next beside it.
const COLUMN: u64 = 9;

/// How many brackets stand side by side at a lifeline at most; any more are drawn over the last.
const COLUMNS: usize = 8;

/// Where the lines of each entry stand, and which column each bracket has.
#[derive(Drop)]
pub(crate) struct Layout {
    members: u64,
    /// The first line of each entry, and then the line after the last.
    lines: Vec<u64>,
    /// The column of each bracket.
    columns: Vec<u64>,
    /// How many columns are used, at most [`COLUMNS`].
    used: u64,
}

impl Layout {
    /// Makes the layout of a picture. Fails only if out of memory.
    pub fn of(
        alloc: Global,
        subject: &Subject<'_>,
        picture: &Picture,
    ) -> Result<Layout, AllocError> {
        let columns = columns_of(alloc, picture.brackets.as_slice())?;
        let used = columns.iter().map(|column| column.saturating_add(1)).max();
        Ok(Layout {
            members: u64::from(subject.members),
            lines: lines_of(alloc, subject.entries)?,
            columns,
            used: used.unwrap_or(0),
        })
    }

    /// Pixels from the left to a member's lifeline.
    pub fn x(&self, member: Member) -> u64 {
        self.x_at(u64::from(member.number()))
    }

    fn x_at(&self, member: u64) -> u64 {
        MOMENTS
            .saturating_add(self.gutter())
            .saturating_add(member.saturating_mul(self.pitch()))
    }

    /// Returns whether a member's lifeline is the last one, and not the only one.
    pub fn is_last(&self, member: Member) -> bool {
        let place = u64::from(member.number());
        place > 0 && place.saturating_add(1) >= self.members
    }

    /// Pixels from the top to the nth line of an entry.
    pub fn y(&self, index: usize, nth: usize) -> u64 {
        let line = self.lines.get(index).copied().unwrap_or(0);
        y_of(line.saturating_add(nth as u64))
    }

    /// Pixels from the top to where the lifelines end.
    pub fn bottom(&self) -> u64 {
        y_of(self.lines.last().copied().unwrap_or(0))
    }

    /// Pixels from the left to a bracket.
    pub fn bracket_x(&self, index: usize, member: Member) -> u64 {
        let column = self.columns.get(index).copied().unwrap_or(0);
        self.x(member)
            .saturating_sub(10)
            .saturating_sub(column.saturating_mul(COLUMN))
    }

    /// Returns the width of the drawing.
    pub fn width(&self) -> u64 {
        self.x_at(self.members.saturating_sub(1))
            .saturating_add(LABELS)
            .max(LEAST_WIDTH)
    }

    /// Returns the height of the drawing.
    pub fn height(&self) -> u64 {
        self.bottom().saturating_add(FOOT)
    }

    /// The width from one lifeline to the next.
    fn pitch(&self) -> u64 {
        let column = match self.members {
            0..=4 => 190,
            5..=8 => 150,
            _ => 110,
        };
        self.gutter().saturating_add(column)
    }

    /// The width left of each lifeline, for its brackets and half of the member's name above them.
    fn gutter(&self) -> u64 {
        self.used.saturating_mul(COLUMN).saturating_add(36)
    }
}

fn y_of(line: u64) -> u64 {
    line.saturating_mul(LINE).saturating_add(HEAD)
}

/// The first line of each entry, and the line after the last.
fn lines_of(alloc: Global, entries: &[Entry]) -> Result<Vec<u64>, AllocError> {
    let mut lines = Vec::new(alloc);
    let mut next = 0;
    lines.push(next)?;
    for entry in entries {
        next = lines_after(next, entry);
        lines.push(next)?;
    }
    Ok(lines)
}

/// The line after those of an entry: an entry has one for each datagram that it sent, one if the member is gone by it, and at least one.
fn lines_after(line: u64, entry: &Entry) -> u64 {
    let sent = entry.effects.outs.as_slice().len() as u64;
    let gone = u64::from(entry.effects.becomes_gone());
    line.saturating_add(sent.saturating_add(gone).max(1))
}

/// The column of each bracket: the first that is free at its member when it begins.
fn columns_of(alloc: Global, brackets: &[Bracket]) -> Result<Vec<u64>, AllocError> {
    let mut columns = Vec::new(alloc);
    let mut busy = vec![in alloc; 0; COLUMNS * usize::from(MEMBERS)]?;
    for bracket in brackets {
        let from = bracket.from.entry;
        let until = match bracket.end {
            Some(end) => end.entry,
            None => usize::MAX,
        };
        columns.push(column_of(busy.as_mut_slice(), bracket.from.member, from, until))?;
    }
    Ok(columns)
}

/// Takes the first column of a member that is free from an entry on, or the last, up to another entry.
fn column_of(busy: &mut [usize], member: Member, from: usize, until: usize) -> u64 {
    let first = member.index() * COLUMNS;
    let column = free_column(busy, first, from);
    if let Some(busy_until) = busy.get_mut(first + column) {
        *busy_until = until;
    }
    column as u64
}

/// The first column that is free from an entry on, or the last.
fn free_column(busy: &[usize], first: usize, from: usize) -> usize
    requires { first ≤ MEMBERS * COLUMNS }
    ensures { result < COLUMNS }
{
    for column in 0..COLUMNS {
        if is_free(busy, first + column, from) {
            return column;
        }
    }
    COLUMNS - 1
}

fn is_free(busy: &[usize], place: usize, from: usize) -> bool {
    match busy.get(place) {
        Some(until) => *until <= from,
        None => false,
    }
}
