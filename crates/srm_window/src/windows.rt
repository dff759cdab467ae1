//! The counters of all members.

ghost use Rattle.std.specs.Prelude.{◌≡◌, List, [], ◌∷◌, ◌++◌, IfOk};
ghost use Rattle.srm_window.specs.Senders.{Numbered, WindowsFit, admits_of, is_new, numbered, windows_after};

use crate::window::Window;
use srm_names::{MEMBERS, Member};
use std::alloc::{AllocError, Global};
use std::marker::Model;

/// A window for each member: 64 KiB.
#[derive(Drop)]
pub struct Windows {
    each: Vec<Window>,
}

impl Model for Windows {
    ghost use Rattle.std.specs.Prelude.{◌≡◌, List, length};
    ghost use Rattle.srm_window.specs.Windows.{WindowView};

    ghost Value = { List WindowView };

    ghost view = { λ ws. ws.each.items };

    ghost invariant = { λ ws. length ws.each.items ≡ 32 };
}

impl Windows {
    /// Makes the windows of members that were not heard yet. Fails only if out of memory.
    pub fn new(alloc: Global) -> Result<Windows, AllocError>
        ensures { IfOk result (λ ws. WindowsFit ws []) }
    {
        let mut each = Vec::new(alloc);
        for _ in 0..MEMBERS {
            each.push(Window::new(alloc)?)?;
        }
        Ok(Windows { each })
    }

    /// Returns whether a sender's counter is fresh behind all of its counters that came, and notes that it came. Nothing changes for other senders. Costs a handful
    /// of instructions, and takes no memory.
    pub fn admit(&mut self, sender: Member, counter: u64) -> bool
        ensures new { (came : List Numbered) → WindowsFit self.old came → result ≡ is_new came (numbered sender counter) }
        ensures admits { result ≡ admits_of (numbered sender counter) self.old }
        ensures after { self.new ≡ windows_after (numbered sender counter) self.old }
        ensures fits { (came : List Numbered) → WindowsFit self.old came → WindowsFit self.new (came ++ numbered sender counter ∷ []) }
    {
        let place = sender.index();
        self.each[place].admit(counter)
    }
}
