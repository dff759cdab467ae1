//! Shows and begins pages from another thread.

ghost use Rattle.std.specs.Prelude.{◌≡◌, ◌+◌, ◌-◌, ◌≤◌, ◌↔◌, [], ◌∷◌, ◌++◌, Err, OnOk, OnErr, IsNone, MatchOption};
ghost use Rattle.srm_control.specs.declared.limits.TheConstants.{COMMANDS};
ghost use Rattle.srm_control.specs.declared.control.ControlFault.TheVariants.{Full};

use crate::command::{PageAnswer, PageCommand};
use crate::limits::COMMANDS;
use crate::line::{LinePass, Putting, Receiver, Sender, Taking};
use std::marker::Model;
use std::sync::Wait;
use thiserror::Error;

/// Why a control refuses a command. Nothing has changed then.
#[derive(Clone, Copy, Debug, PartialEq, Eq, Error)]
pub enum ControlFault {
    /// Eight answers wait to be taken, or are still to come.
    #[error("eight commands have no answer yet")]
    Full = 1,
    /// The node's end is gone.
    #[error("the node is gone")]
    Gone = 2,
}

/// Shows and begins pages of a node from one other thread. Contracts see the commands that it sent and the answers that it took, both in order, and how many answers
/// it still has to take.
#[derive(Drop)]
pub struct PageControl {
    pub(crate) sender: Sender<PageCommand>,
    pub(crate) put: LinePass<PageCommand>,
    pub(crate) receiver: Receiver<PageAnswer>,
    pub(crate) take: LinePass<PageAnswer>,
    pub(crate) waiting: u8,
}

impl Model for PageControl {
    ghost use Rattle.std.specs.Prelude.{◌≡◌, ◌≤◌, true};
    ghost use Rattle.crossbeam_channel.specs.Claims.{view as knows, IsSeatAt};
    ghost use Rattle.crossbeam_channel.specs.Ends.{sends_on, receives_on};
    ghost use Rattle.srm_control.specs.declared.limits.TheConstants.{COMMANDS};
    ghost use Rattle.srm_control.specs.Ends.{ControlView, line_of};

    ghost Value = { ControlView };

    ghost view = { λ c. record {
      commanded = (knows c.put).put;
      answers = (knows c.take).taken;
      waiting = c.waiting;
      out = line_of c.put;
      back = line_of c.take;
    } };

    ghost invariant = { λ c. IsSeatAt (sends_on c.sender) c.put × ((knows c.put).puts ≡ true) × IsSeatAt (receives_on c.receiver) c.take × ((knows c.take).takes ≡ true)
        × (c.waiting ≤ COMMANDS) };
}

impl PageControl {
    /// Sends a command. The node carries out one in each turn, in order, and answers it; a node that pauses should be woken. Never waits, and takes no memory.
    ///
    /// Returns `Full` exactly if eight commands were sent whose answers weren't taken by [`answer`](PageControl::answer) or
    /// [`wait_answer`](PageControl::wait_answer), and `Gone` if the node's end is gone. Nothing has changed then.
    pub fn command<R: Wait>(&mut self, rt: &R, command: PageCommand) -> Result<(), ControlFault>
        ensures ok { OnOk result (self.new ≡ record self.old { commanded = self.old.commanded ++ command ∷ []; waiting = self.old.waiting + 1 }) }
        ensures err { OnErr result (self.new ≡ self.old) }
        ensures full { (result ≡ Err Full) ↔ (self.old.waiting ≡ COMMANDS) }
    {
        if self.waiting == COMMANDS {
            return Err(ControlFault::Full);
        }
        match self
            .sender
            .try_send_as::<Putting, R>(rt, &mut self.put, command)
        {
            Ok(()) => {
                self.waiting += 1;
                Ok(())
            }
            // There is room for eight, and fewer have no answer, so the line isn't full.
            Err(_) => Err(ControlFault::Gone),
        }
    }

    /// Takes the next answer, in the order of the commands. Returns `None` if none is there yet, or if none will come: every answer was taken, or the node's end is
    /// gone and has left none. Never waits, and takes no memory.
    pub fn answer<R: Wait>(&mut self, rt: &R) -> Option<PageAnswer>
        ensures answer { MatchOption result (self.new ≡ self.old) (λ a. self.new ≡ record self.old { answers = self.old.answers ++ a ∷ []; waiting = self.old.waiting - 1 }) }
        ensures none { self.old.waiting ≡ 0 → IsNone result }
    {
        if self.waiting == 0 {
            return None;
        }
        match self.receiver.try_recv_as::<Taking, R>(rt, &mut self.take) {
            Ok(answer) => {
                self.waiting -= 1;
                Some(answer)
            }
            Err(_) => None,
        }
    }

    /// Waits for the next answer and takes it: as long as the node doesn't turn. Returns `None` if the answer to each command was taken, or if the node's end is
    /// gone and has left none. Takes no memory.
    pub fn wait_answer<R: Wait>(&mut self, rt: &R) -> Option<PageAnswer>
        ensures answer { MatchOption result (self.new ≡ self.old) (λ a. self.new ≡ record self.old { answers = self.old.answers ++ a ∷ []; waiting = self.old.waiting - 1 }) }
        ensures none { self.old.waiting ≡ 0 → IsNone result }
    {
        if self.waiting == 0 {
            return None;
        }
        match self.receiver.recv_as::<Taking, R>(rt, &mut self.take) {
            Ok(answer) => {
                self.waiting -= 1;
                Some(answer)
            }
            Err(_) => None,
        }
    }

    /// Returns how many commands were sent whose answers weren't taken yet, 0 to 8.
    pub fn waiting(&self) -> u8
        ensures value { result ≡ self.now.waiting }
        ensures most { result ≤ COMMANDS }
    {
        self.waiting
    }
}
