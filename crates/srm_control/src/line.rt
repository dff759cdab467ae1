//! A line: a bounded channel. Its rule is that what was put is what was taken and then what the line holds.
ghost use Rattle.std.specs.Prelude.{◌≡◌, ◌++◌};

use crossbeam_channel::protocol::{Join, Lesson, Outcome, Protocol, Split};
use crossbeam_channel::{Pass, RuledReceiver, RuledSender};
use std::collections::LinkedList;

/// What a pass knows: whether it puts and what it has put, whether it takes and what it has taken. No value of it is made.
pub struct LineView<T> {
    /// Whether it puts.
    pub puts: bool,
    /// Whether it takes.
    pub takes: bool,
    /// What it has put.
    pub put: LinkedList<T>,
    /// What it has taken.
    pub taken: LinkedList<T>,
}

/// The rule of a line.
pub struct LineRule;

impl<T> Protocol<T, LineView<T>> for LineRule {
    ghost use Rattle.std.specs.Prelude.{true, []};
    ghost use Rattle.srm_control.specs.Line.{line_view, IsLineState};

    ghost holds = { IsLineState };

    ghost first = { line_view true true [] [] };
}

/// The cut of the first pass into that of the end that puts and that of the end that takes, and their join.
pub struct LineSplit;

impl<T> Split<LineView<T>> for LineSplit {
    ghost use Rattle.std.specs.Prelude.{true, false, []};
    ghost use Rattle.srm_control.specs.Line.{line_view};

    ghost left = { λ v. line_view true false v.put [] };

    ghost right = { λ v. line_view false true [] v.taken };
}

impl<T> Join<LineView<T>> for LineSplit {
    ghost use Rattle.std.specs.Prelude.{true, false, []};
    ghost use Rattle.srm_control.specs.Line.{line_view};

    ghost both = { λ v w. line_view true true v.put w.taken };

    ghost spent = { line_view false false [] [] };
}

/// What a put tells: the message stands behind those put before.
pub struct Putting;

impl<T> Outcome<T, LineView<T>> for Putting {
    ghost use Rattle.srm_control.specs.Line.{Puts};

    ghost then = { Puts };
}

impl<T> Lesson<T, LineView<T>> for Putting {
    ghost fact = { λ v items. Unit {0} };
}

/// What a take tells: the message stands behind those taken before.
pub struct Taking;

impl<T> Outcome<T, LineView<T>> for Taking {
    ghost use Rattle.srm_control.specs.Line.{Takes};

    ghost then = { Takes };
}

impl<T> Lesson<T, LineView<T>> for Taking {
    ghost fact = { λ v items. Unit {0} };
}

/// What both ends together learn: what was put is what was taken, and then what the line holds.
pub struct Total;

impl<T> Lesson<T, LineView<T>> for Total {
    ghost fact = { λ v items. v.put ≡ v.taken ++ items };
}

pub(crate) type Sender<T> = RuledSender<T, LineView<T>, LineRule>;

pub(crate) type Receiver<T> = RuledReceiver<T, LineView<T>, LineRule>;

pub(crate) type LinePass<T> = Pass<T, LineView<T>>;
