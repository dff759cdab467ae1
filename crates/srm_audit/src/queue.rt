//! What is left of a journal.

ghost use Rattle.std.specs.Prelude.{◌≡◌, ◌<◌, ◌∷◌, ◌==◌, Some, length, IfOk, OnOk, OnErr};
ghost use Rattle.srm_codec.specs.Spelling.{IsSpellable};
ghost use Rattle.srm_audit.specs.Spellings.{spelling_of};
ghost use Rattle.srm_audit.specs.Queues.{AreReadable, IsReadable, MayGo, PopsReady};

use crate::spellings::{Spellings, spelling_of};
use srm_codec::Datagram;
use srm_entries::Entry;
use std::alloc::{AllocError, Global};
use std::collections::VecDeque;
use std::marker::Model;

/// The entries of a journal that aren't merged yet, oldest first. Contracts see the list.
#[derive(Drop)]
pub struct Queue {
    pub(crate) entries: VecDeque<Entry>,
    /// The bytes of what the first entry hears, once they were written; else empty.
    pub(crate) text: Vec<u8>,
}

impl Model for Queue {
    ghost use Rattle.std.specs.Prelude.{List};
    ghost use Rattle.srm_entries.specs.declared.entry.Entry.{Entry};
    ghost use Rattle.srm_audit.specs.Queues.{IsQueue};

    ghost Value = { List Entry };

    ghost view = { λ q. q.entries.items };

    ghost invariant = { λ q. IsQueue q.entries.items q.text.items };
}

impl Queue {
    /// Makes a queue of these entries. Takes no memory.
    pub fn new(alloc: Global, entries: Vec<Entry>) -> Queue
        requires { AreReadable entries.items }
        ensures { result ≡ entries.items }
    {
        Queue {
            entries: VecDeque::from_vec(entries),
            text: Vec::new(alloc),
        }
    }

    /// Returns whether no entry is left.
    pub fn is_empty(&self) -> bool
        ensures { result ≡ (length self.now == 0) }
    {
        self.entries.is_empty()
    }

    /// Takes the next entry out, if it hears nothing or a datagram that was sent; otherwise returns `None`. Fails only if out of memory.
    pub fn pop_ready(
        &mut self,
        alloc: Global,
        spellings: &Spellings,
    ) -> Result<Option<Entry>, AllocError>
        ensures { IfOk result (PopsReady spellings.now self.old self.new) }
    {
        if !self.may_go(alloc, spellings)? {
            return Ok(None);
        }
        Ok(Some(self.pop()))
    }

    /// Whether there is a next entry, and it hears nothing or a datagram that was sent. However often it is called, it writes the bytes
    /// that the entry hears once.
    fn may_go(&mut self, alloc: Global, spellings: &Spellings) -> Result<bool, AllocError>
        ensures same { self.new ≡ self.old }
        ensures goes { IfOk result (MayGo spellings.now self.old) }
    {
        let Some(entry) = self.entries.front() else {
            return Ok(false);
        };
        let Some(datagram) = entry.accepted() else {
            return Ok(true);
        };
        write(alloc, &mut self.text, datagram)?;
        Ok(spellings.has(self.text.as_slice()))
    }

    /// Takes the next entry out.
    fn pop(&mut self) -> Entry
        requires { 0 < length self.old }
        ensures split { self.old ≡ result ∷ self.new }
        ensures readable { IsReadable result }
    {
        self.text.clear();
        self.entries.pop_front().unwrap()
    }
}

/// Writes the bytes of a datagram, unless they are there already.
fn write(alloc: Global, text: &mut Vec<u8>, datagram: &Datagram) -> Result<(), AllocError>
    requires fits { IsSpellable datagram.now }
    requires kept { 0 < length text.old.items → text.old.items ≡ spelling_of datagram.now }
    ensures ok { OnOk result (text.new.items ≡ spelling_of datagram.now) }
    ensures err { OnErr result (text.new.items ≡ text.old.items) }
{
    if text.is_empty() {
        *text = spelling_of(alloc, datagram)?;
    }
    Ok(())
}
