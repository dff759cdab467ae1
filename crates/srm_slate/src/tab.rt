//! What one tab was told.

ghost use Rattle.std.specs.Prelude.{◌≡◌, [], true};
ghost use Rattle.srm_slate.specs.Tabs.{Follow, is_for, told_if, told_sheet};

use crate::cursor::Cursor;
use crate::noted::Noted;
use crate::sheet::Sheet;
use std::marker::Model;
use std::snapshot::Snapshot;

/// What one tab was told by a connection: behind the messages that it had, what each of its frames told.
#[derive(Drop)]
pub struct Tab {
    at: Cursor,
    // For contracts alone.
    first: Snapshot<usize>,
    frames: Noted<Sheet>,
}

impl Model for Tab {
    ghost use Rattle.std.specs.Prelude.{◌≡◌, ◌+◌, length};
    ghost use Rattle.srm_slate.specs.Tabs.{TabView, all_told, Follow};

    ghost Value = { TabView };

    ghost view = { λ t. record { first = t.first.value; at = t.at; frames = t.frames } };

    ghost invariant = { λ t. (t.at.from ≡ t.first.value + length (all_told t.frames)) × Follow t.first.value t.frames };
}

impl Tab {
    /// Begins with a tab that says that it was told so much.
    pub fn new(at: Cursor) -> Tab
        ensures { result ≡ record { first = at.from; at = at; frames = [] } }
    {
        Tab {
            at,
            first: Snapshot::of(&at.from),
            frames: Noted::new(),
        }
    }

    /// Returns how much it was told. Each of its frames began where the one before ended.
    pub fn at(&self) -> Cursor
        ensures at { result ≡ self.now.at }
        ensures follow { Follow self.now.first self.now.frames }
    {
        self.at
    }

    /// Counts a frame as told, if it is for a tab that was told so much; else nothing changes. Returns whether it is.
    pub fn tell(&mut self, sheet: &Sheet) -> bool
        ensures told { self.new ≡ told_if sheet.now self.old }
        ensures same { result ≡ is_for sheet.now self.old }
    {
        if !self.is_for(sheet) {
            return false;
        }
        self.note(sheet);
        true
    }

    // Whether a frame is for where the tab is.
    fn is_for(&self, sheet: &Sheet) -> bool
        ensures same { result ≡ is_for sheet.now self.now }
        ensures here { result ≡ true → self.now.at.from ≡ sheet.now.before.from }
    {
        self.at.from == sheet.before().from && self.at.seen == sheet.before().seen
    }

    // Counts a frame that is for where the tab is.
    fn note(&mut self, sheet: &Sheet)
        requires { self.old.at.from ≡ sheet.now.before.from }
        ensures { self.new ≡ told_sheet sheet.now self.old }
    {
        self.frames.note(sheet);
        self.at = sheet.after();
    }
}
