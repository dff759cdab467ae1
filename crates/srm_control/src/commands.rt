//! The node's end of a control.

ghost use Rattle.srm_control.specs.Ends.{Finds, Answers};

use crate::command::{PageAnswer, PageCommand, PageRefusal};
use crate::line::{LinePass, Putting, Receiver, Sender, Taking};
use srm_names::Page;
use std::marker::Model;
use std::sync::Wait;

/// The node's end of a control. Contracts see the commands that it took and its answers, both in order, the command in hand, how often it looked for one, modulo 2^64, and
/// whether it found the control gone.
#[derive(Drop)]
pub struct PageCommands {
    pub(crate) receiver: Receiver<PageCommand>,
    pub(crate) take: LinePass<PageCommand>,
    pub(crate) sender: Sender<PageAnswer>,
    pub(crate) put: LinePass<PageAnswer>,
    pub(crate) hand: Option<PageCommand>,
    pub(crate) looks: u64,
    pub(crate) gone: bool,
}

impl Model for PageCommands {
    ghost use Rattle.std.specs.Prelude.{◌≡◌, true};
    ghost use Rattle.crossbeam_channel.specs.Claims.{view as knows, IsSeatAt};
    ghost use Rattle.crossbeam_channel.specs.Ends.{sends_on, receives_on};
    ghost use Rattle.srm_control.specs.Ends.{CommandsView, line_of};

    ghost Value = { CommandsView };

    ghost view = { λ c. record {
      taken = (knows c.take).taken;
      hand = c.hand;
      answered = (knows c.put).put;
      looks = c.looks;
      gone = c.gone;
      out = line_of c.take;
      back = line_of c.put;
    } };

    ghost invariant = { λ c. IsSeatAt (receives_on c.receiver) c.take × ((knows c.take).takes ≡ true) × IsSeatAt (sends_on c.sender) c.put × ((knows c.put).puts ≡ true) };
}

impl PageCommands {
    /// Returns the command in hand, or takes the next one in hand and returns that, or returns `None` if none is there. Each call counts as a look. Never waits, and takes
    /// no memory.
    pub fn next<R: Wait>(&mut self, rt: &R) -> Option<PageCommand>
        ensures { Finds result self.old self.new }
    {
        self.looks = self.looks.wrapping_add(1);
        if self.hand.is_none() {
            self.hand = match self.receiver.try_recv_as::<Taking, R>(rt, &mut self.take) {
                Ok(command) => Some(command),
                Err(_) => None,
            };
        }
        self.hand
    }

    /// Answers the command in hand, and has none in hand then. If the control is gone, it notes so and drops the answer. Does nothing without a command in hand. Never
    /// waits, and takes no memory.
    pub fn answer<R: Wait>(&mut self, rt: &R, outcome: Result<Page, PageRefusal>)
        ensures { Answers outcome self.old self.new }
    {
        let Some(command) = self.hand.take() else {
            return;
        };
        let answer = PageAnswer { command, outcome };
        match self
            .sender
            .try_send_as::<Putting, R>(rt, &mut self.put, answer)
        {
            Ok(()) => self.gone = false,
            // The control sends no command while eight answers wait, so the line isn't full.
            Err(_) => self.gone = true,
        }
    }
}
