//! What is printed at a member's end.

ghost use Rattle.std.specs.Prelude.{◌≡◌, ◌≤◌, ◌⊎◌, [], ◌++◌, length, IfOk, IfErr, OnOk, OnErr, Err, string_bytes};
ghost use Rattle.std.specs.Io.KnownBytes.{Appends, Keeps};
ghost use Rattle.srm_script.specs.declared.fault.ScriptFault.TheVariants.{Memory, Output};
ghost use Rattle.srm_member.specs.TakenText.{gone_line, lists_of, slot_lines, taken_text, took_line};
ghost use Rattle.srm_output.specs.Writing.{AppendsAllBut, AppendsFront};

use srm_names::{LONGEST_BODY, Member, PageMsg};
use srm_node::Worked;
use srm_output::write_bytes;
use srm_script::{PrintedGone, PrintedTake, ScriptFault};
use std::alloc::Global;
use std::io;
use std::io::Write;

/// How many bytes are gathered before they are written.
const GATHERED: usize = 8_192;

/// Prints what the worker of each slot took, in order, and that the member is gone.
///
/// Fails with `Memory` before anything is printed, and with `Output` where the output can't be written, behind a prefix of these lines.
#[tactic(auto, using(srm_output::proofs::Gathered::front_of_none))]
pub fn print_taken<O: Write>(
    alloc: Global,
    out: &mut O,
    me: Member,
    worked: &[Worked],
) -> Result<(), ScriptFault>
    ensures printed { OnOk result (Appends (O.contents out.old) (O.contents out.new) (taken_text me (lists_of worked.now))) }
    ensures cut { OnErr result (AppendsFront (O.contents out.old) (O.contents out.new) (taken_text me (lists_of worked.now))) }
    ensures nothing { result ≡ Err Memory → Keeps (O.contents out.old) (O.contents out.new) }
    ensures faults { IfErr result (λ fault. (fault ≡ Memory) ⊎ (fault ≡ Output)) }
{
    // No line that a session prints asks for more.
    let Ok(mut lines) = String::with_capacity(alloc, GATHERED + 2 * LONGEST_BODY as usize) else {
        return Err(ScriptFault::Memory);
    };
    match print_all(out, &mut lines, me, worked) {
        Ok(()) => Ok(()),
        Err(_) => Err(ScriptFault::Output),
    }
}

fn print_all<O: Write>(
    out: &mut O,
    lines: &mut String,
    me: Member,
    worked: &[Worked],
) -> io::Result<()>
    ensures printed { OnOk result (Appends (O.contents out.old) (O.contents out.new) (string_bytes lines.old ++ taken_text me (lists_of worked.now))) }
    ensures cut { OnErr result (AppendsFront (O.contents out.old) (O.contents out.new) (string_bytes lines.old ++ taken_text me (lists_of worked.now))) }
{
    for (slot, worker) in worked.iter().enumerate() {
        print_slot(out, lines, me, slot, worker.list.as_slice())?;
    }
    print_gone(out, lines, me)
}

/// Writes what is gathered, and that the member is gone.
#[tactic(auto, using(srm_output::proofs::Gathered::kept_on, srm_output::proofs::Gathered::front_of_none, srm_output::proofs::Gathered::front_of_some))]
fn print_gone<O: Write>(out: &mut O, lines: &mut String, me: Member) -> io::Result<()>
    ensures printed { OnOk result (AppendsAllBut (O.contents out.old) (O.contents out.new) (string_bytes lines.old ++ gone_line me) []) }
    ensures cut { OnErr result (AppendsFront (O.contents out.old) (O.contents out.new) (string_bytes lines.old ++ gone_line me)) }
{
    writeln!(lines, "{}", PrintedGone(me))?;
    write_lines(out, lines)?;
    out.flush()
}

fn print_slot<O: Write>(
    out: &mut O,
    lines: &mut String,
    me: Member,
    slot: usize,
    list: &[PageMsg],
) -> io::Result<()>
    ensures printed { OnOk result (AppendsAllBut (O.contents out.old) (O.contents out.new) (string_bytes lines.old ++ slot_lines me slot list.now) (string_bytes lines.new)) }
    ensures cut { OnErr result (AppendsFront (O.contents out.old) (O.contents out.new) (string_bytes lines.old ++ slot_lines me slot list.now)) }
{
    for message in list {
        print_message(out, lines, me, slot, message)?;
    }
    Ok(())
}

/// Gathers a line, and writes what is gathered once that is much.
#[tactic(auto, using(srm_output::proofs::Gathered::none_of_all, srm_output::proofs::Gathered::front_of_none))]
fn print_message<O: Write>(
    out: &mut O,
    lines: &mut String,
    me: Member,
    slot: usize,
    message: &PageMsg,
) -> io::Result<()>
    ensures printed { OnOk result (AppendsAllBut (O.contents out.old) (O.contents out.new) (string_bytes lines.old ++ took_line me slot message.now) (string_bytes lines.new)) }
    ensures cut { OnErr result (AppendsFront (O.contents out.old) (O.contents out.new) (string_bytes lines.old ++ took_line me slot message.now)) }
{
    let take = PrintedTake {
        member: me,
        slot,
        message: Some(message),
    };
    writeln!(lines, "{take}")?;
    if lines.len() < GATHERED {
        return Ok(());
    }
    write_lines(out, lines)
}

/// Writes what is gathered.
fn write_lines<O: Write>(out: &mut O, lines: &mut String) -> io::Result<()>
    ensures printed { OnOk result (AppendsAllBut (O.contents out.old) (O.contents out.new) (string_bytes lines.old) (string_bytes lines.new)) }
    ensures empty { OnOk result (string_bytes lines.new ≡ []) }
    ensures cut { OnErr result (AppendsFront (O.contents out.old) (O.contents out.new) (string_bytes lines.old)) }
{
    write_bytes(out, lines.as_bytes())?;
    lines.clear();
    Ok(())
}
