//! What is new to all tabs that are as far.

ghost use Rattle.std.specs.Prelude.{◌≡◌, ◌+◌, length, IfOk};
ghost use Rattle.srm_slate.specs.Tabs.{IsSheetOf, told};

use crate::cursor::Cursor;
use crate::door::Face;
use crate::look::Look;
use crate::record::{Record, TOLD};
use crate::telling::text_of;
use bytes::ByteStr;
use std::alloc::{AllocError, Global};
use std::marker::Model;
use std::snapshot::Snapshot;

/// What is new to all tabs that were told as much, before it is written.
#[derive(Drop)]
pub struct Draft {
    before: Cursor,
    after: Cursor,
    has_more: bool,
    look: Look,
    // For contracts alone.
    shown: Snapshot<Record>,
}

impl Model for Draft {
    ghost use Rattle.std.specs.Prelude.{◌≡◌, ◌+◌, length};
    ghost use Rattle.srm_slate.specs.Slates.{told_from};
    ghost use Rattle.srm_slate.specs.Tabs.{SheetView};

    ghost Value = { SheetView };

    ghost view = { λ d. record { before = d.before; after = d.after; shown = d.shown.value.taken; has_more = d.has_more } };

    ghost invariant = { λ d. (d.look.taken.items ≡ told_from d.before.from d.shown.value.taken) × (d.after.from ≡ d.before.from + length (told_from d.before.from d.shown.value.taken)) };
}

impl Draft {
    /// Looks what is new to a tab that was told so much. Fails only if out of memory.
    pub fn new(shown: &Record, before: Cursor) -> Result<Draft, AllocError>
        ensures { IfOk result (IsSheetOf before shown.now) }
    {
        let look = shown.look(before.from, before.seen)?;
        // Nobody was told so many that this sum is too great.
        let from = before.from.checked_add(look.taken.len()).ok_or(AllocError)?;
        let has_more = look.taken.len() >= TOLD;
        let after = Cursor {
            from,
            seen: look.happened,
        };
        Ok(Draft {
            before,
            after,
            has_more,
            look,
            shown: Snapshot::of(shown),
        })
    }

    /// Writes it as the text that a page reads. Fails only if out of memory.
    pub fn write(self, alloc: Global, face: &Face, run: u64) -> Result<Sheet, AllocError>
        ensures { IfOk result (λ sheet. sheet ≡ self) }
    {
        let text = text_of(alloc, face, run, &self.look)?;
        let text = ByteStr::from_string(text)?;
        let Draft {
            before,
            after,
            has_more,
            shown,
            ..
        } = self;
        Ok(Sheet {
            before,
            after,
            has_more,
            shown,
            text,
        })
    }
}

/// A text for all tabs that were told as much: what is new to them. Nobody but a [`Draft`] makes one.
#[derive(Drop)]
pub struct Sheet {
    before: Cursor,
    after: Cursor,
    has_more: bool,
    // For contracts alone.
    shown: Snapshot<Record>,
    text: ByteStr,
}

impl Model for Sheet {
    ghost use Rattle.std.specs.Prelude.{◌≡◌, ◌+◌, length};
    ghost use Rattle.srm_slate.specs.Slates.{told_from};
    ghost use Rattle.srm_slate.specs.Tabs.{SheetView};

    ghost Value = { SheetView };

    ghost view = { λ s. record { before = s.before; after = s.after; shown = s.shown.value.taken; has_more = s.has_more } };

    ghost invariant = { λ s. s.after.from ≡ s.before.from + length (told_from s.before.from s.shown.value.taken) };
}

impl Sheet {
    /// Returns how much those were told whom it is for.
    pub fn before(&self) -> Cursor
        ensures { result ≡ self.now.before }
    {
        self.before
    }

    /// Returns how much they were told then.
    pub fn after(&self) -> Cursor
        ensures after { result ≡ self.now.after }
        ensures counts { result.from ≡ self.now.before.from + length (told self.now) }
    {
        self.after
    }

    /// Returns whether that may not be all.
    pub fn has_more(&self) -> bool
        ensures { result ≡ self.now.has_more }
    {
        self.has_more
    }

    /// Returns the text. Fails only if out of memory.
    pub fn text(&self) -> Result<ByteStr, AllocError> {
        self.text.clone()
    }
}
