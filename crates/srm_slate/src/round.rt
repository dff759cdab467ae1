//! One round in which tabs are told what is new.

use crate::cursor::Cursor;
use crate::easel::Easel;
use crate::serving::Desk;
use crate::sheet::{Draft, Sheet};
use std::alloc::{AllocError, Global};
use std::sync::Wait;
use std::time::{Clock, Instant};

/// Texts that a round keeps, at most: for tabs that were told more and less.
const SHEETS: usize = 8;

/// One round in which tabs are told what is new. Tabs that were told as much get the same text.
#[derive(Drop)]
pub struct Round {
    /// The key of the tab that is next.
    pub next: usize,
    /// When it began.
    pub began: Instant,
    /// Whether those too are told to whom nothing is new.
    is_for_all: bool,
    sheets: Vec<Sheet>,
    // To whoever was told so much nothing is new.
    idle: Option<Cursor>,
}

impl Round {
    /// Begins with the first tab.
    pub fn new(alloc: Global, is_for_all: bool, began: Instant) -> Round {
        Round {
            next: 0,
            began,
            is_for_all,
            sheets: Vec::new(alloc),
            idle: None,
        }
    }

    /// Returns what is new to a tab that was told so much. Returns `None` if nothing is, or if out of memory; then the tab is told later.
    pub fn sheet<R: Wait + Clock + Drop, K: Easel + Drop>(
        &mut self,
        desk: &Desk<R, K>,
        at: Cursor,
    ) -> Option<&Sheet> {
        if self.idle == Some(at) {
            return None;
        }
        if !self.sheets.iter().any(|sheet| sheet.before() == at) {
            match write(desk, at, self.is_for_all) {
                Ok(Some(sheet)) => self.keep(sheet)?,
                Ok(None) => {
                    self.idle = Some(at);
                    return None;
                }
                Err(AllocError) => return None,
            }
        }
        self.sheets.iter().find(|sheet| sheet.before() == at)
    }

    fn keep(&mut self, sheet: Sheet) -> Option<()> {
        if self.sheets.len() >= SHEETS {
            let _ = self.sheets.remove(0);
        }
        self.sheets.push(sheet).ok()
    }
}

// Writes what is new to a tab that was told so much; `None` if nothing is, unless it is to be told anyway.
fn write<R: Wait + Clock + Drop, K: Easel + Drop>(
    desk: &Desk<R, K>,
    at: Cursor,
    is_anyway: bool,
) -> Result<Option<Sheet>, AllocError> {
    let shown = &desk.shown;
    let record = shown.slate.lock(&desk.rt);
    if !is_anyway && record.is_old(at.from, at.seen) {
        return Ok(None);
    }
    let draft = Draft::new(&record, at)?;
    drop(record);
    Ok(Some(draft.write(desk.alloc, &shown.face, shown.run)?))
}
