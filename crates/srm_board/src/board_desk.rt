//! Standard error of a board, which its threads share.

ghost use Rattle.std.specs.Prelude.{◌≡◌, ◌≤◌};
ghost use Rattle.srm_live.specs.declared.live_fault.TheConstants.{WAS_BEFORE};
ghost use Rattle.srm_board.specs.BoardStatuses.{status_of_board};

use crate::board_fault::BoardFault;
use srm_live::Teller;
use srm_names::Member;
use srm_options::Names;
use std::alloc::Global;
use std::io::Write;
use std::sync::atomic::{AtomicBool, Ordering};
use std::sync::{Mutex, Wait};

/// Where a board tells what befalls its member, and whether the member's node has ended.
#[derive(Drop)]
pub struct BoardDesk<E> {
    alloc: Global,
    me: Member,
    names: Names,
    err: Mutex<E>,
    ended: AtomicBool,
}

impl<E: Write> BoardDesk<E> {
    /// Makes the desk of a member that did nothing yet, in a session whose members have these names.
    pub fn new(alloc: Global, me: Member, names: Names, err: E) -> BoardDesk<E> {
        BoardDesk {
            alloc,
            me,
            names,
            err: Mutex::new(err),
            ended: AtomicBool::new(false),
        }
    }

    /// Prints a fault, unless it was told before, and returns its status.
    pub fn print_fault<R: Wait>(&self, rt: &R, fault: &BoardFault) -> u8
        ensures status { result ≡ status_of_board fault.now }
        ensures greatest { result ≤ WAS_BEFORE }
    {
        let mut err = self.err.lock(rt);
        fault.print(&mut *err)
    }

    /// Says that the node has ended.
    pub fn end(&self) {
        self.ended.store(true, Ordering::SeqCst);
    }
}

impl<E: Write> Teller for BoardDesk<E> {
    // Where it can't be written there is nobody left to tell.
    fn tell<R: Wait>(&self, rt: &R, line: &str) {
        let mut err = self.err.lock(rt);
        let _ = err.write_all(line.as_bytes());
        let _ = err.flush();
    }

    fn me(&self) -> Member {
        self.me
    }

    fn names(&self) -> &Names {
        &self.names
    }

    fn alloc(&self) -> Global {
        self.alloc
    }

    fn ended(&self) -> &AtomicBool {
        &self.ended
    }
}
