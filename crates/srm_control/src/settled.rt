//! Both ends of a control put together.
ghost use Rattle.std.specs.Prelude.{◌≡◌, ◌++◌, List};
ghost use Rattle.srm_control.specs.declared.command.PageCommand.{PageCommand as Command};
ghost use Rattle.srm_control.specs.declared.command.PageAnswer.{PageAnswer as Answer};

use crate::commands::PageCommands;
use crate::control::PageControl;
use crate::line::{LineSplit, Total};

/// Puts the two ends of one control together, which is a precondition, and drops them. It is there for contracts, which learn by it that nothing was lost, doubled
/// or reordered: the commands that were sent are those that the node took and then those that the line still holds, and the node's answers are those that the
/// control took and then those that the line still holds.
pub fn settle_control(control: PageControl, commands: PageCommands)
    requires { (control.out ≡ commands.out) × (control.back ≡ commands.back) }
    ensures commands { (held : List Command) × (control.commanded ≡ commands.taken ++ held) }
    ensures answers { (held : List Answer) × (commands.answered ≡ control.answers ++ held) }
{
    let PageControl {
        sender,
        mut put,
        receiver: _,
        take: heard,
        waiting: _,
    } = control;
    let PageCommands {
        receiver: _,
        take,
        sender: back,
        put: mut told,
        hand: _,
        looks: _,
        gone: _,
    } = commands;
    sender.absorb::<LineSplit>(&mut put, take);
    sender.learn_as::<Total>(&mut put);
    back.absorb::<LineSplit>(&mut told, heard);
    back.learn_as::<Total>(&mut told);
}
