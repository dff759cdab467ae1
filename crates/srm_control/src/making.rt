//! Making a control.

ghost use Rattle.std.specs.Prelude.{◌≡◌, [], true, IfOk};
ghost use Rattle.crossbeam_channel.specs.Claims.{view as knows, IsSeatAt};
ghost use Rattle.crossbeam_channel.specs.Ends.{sends_on, receives_on};
ghost use Rattle.srm_control.specs.Line.{line_view};
ghost use Rattle.srm_control.specs.Ends.{new_control, new_commands};

use crate::commands::PageCommands;
use crate::control::PageControl;
use crate::limits::COMMANDS;
use crate::line::{LinePass, LineSplit, Receiver, Sender};
use crossbeam_channel::bounded_with;
use std::alloc::{AllocError, Global};

/// Makes a control and the node's end of it. No command was sent yet. `Node::control` calls it for a node. Fails only if out of memory.
pub fn page_control(alloc: Global) -> Result<(PageControl, PageCommands), AllocError>
    ensures { IfOk result (λ ends. (ends.0 ≡ new_control ends.0.out ends.0.back) × (ends.1 ≡ new_commands ends.0.out ends.0.back)) }
{
    let (sender, receiver, mut put) = line(alloc)?;
    let take = sender.another::<LineSplit>(&mut put);
    let (back, answers, mut told) = line(alloc)?;
    let heard = back.another::<LineSplit>(&mut told);
    let control = PageControl {
        sender,
        put,
        receiver: answers,
        take: heard,
        waiting: 0,
    };
    let commands = PageCommands {
        receiver,
        take,
        sender: back,
        put: told,
        hand: None,
        looks: 0,
        gone: false,
    };
    Ok((control, commands))
}

// The channel of a line, and its first pass.
#[tactic(auto, using(crate::proofs::LineSteps::begins))]
fn line<T: Drop>(alloc: Global) -> Result<(Sender<T>, Receiver<T>, LinePass<T>), AllocError>
    ensures { IfOk result (λ r. (receives_on r.1 ≡ sends_on r.0) × IsSeatAt (sends_on r.0) r.2 × (knows r.2 ≡ line_view true true [] [])) }
{
    bounded_with(alloc, usize::from(COMMANDS))
}
