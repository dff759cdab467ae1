//! How much of its page feed one page slot has given.

ghost use Rattle.std.specs.Prelude.{◌≡◌, ◌<◌, ◌++◌, List, [], ◌∷◌, true, false, length, slice_index, slice_index_or, slice_set};
ghost use Rattle.srm_names.specs.declared.limits.TheConstants.{MEMBERS};
ghost use Rattle.srm_names.specs.declared.page_msg.PageMsg.{PageMsg as APageMsg};
ghost use Rattle.srm_names.specs.PageFeeds.{continues};
ghost use Rattle.srm_agent_state.specs.Progress.{ProgressFits};

use srm_names::{MEMBERS, Member, Name, PageMsg};
use std::marker::Model;

/// How much of its page feed one page slot has given: what decides which message may come next. The messages aren't kept.
#[derive(Debug, Drop)]
pub struct Progress {
    opened: bool,
    closed: bool,
    /// The number of the last drawop given of each source, 0 before the first.
    numbers: [u32; MEMBERS as usize],
    /// Whether the leaving of each source was given.
    left: [bool; MEMBERS as usize],
}

impl Model for Progress {
    ghost use Rattle.srm_agent_state.specs.Progress.{ProgressContent, progress_of, HasAllMembers};

    ghost Value = { ProgressContent };

    ghost view = { progress_of };

    ghost invariant = { HasAllMembers };
}

impl Progress {
    /// Makes the progress of a page slot that has given nothing. Takes no memory.
    pub fn new() -> Progress
        ensures { ProgressFits [] result }
    {
        Progress {
            opened: false,
            closed: false,
            numbers: [0; MEMBERS as usize],
            left: [false; MEMBERS as usize],
        }
    }

    /// Returns whether the page was given.
    pub fn is_opened(&self) -> bool
        ensures { result ≡ self.now.opened }
    {
        self.opened
    }

    /// Returns whether the close was given.
    pub fn is_closed(&self) -> bool
        ensures { result ≡ self.now.closed }
    {
        self.closed
    }

    /// Returns the number of the last drawop given of a source, 1 to 65,536, or 0 before the first.
    pub fn number(&self, source: Member) -> u32
        ensures value { result ≡ slice_index self.now.numbers source }
        ensures below { source < MEMBERS }
    {
        self.numbers[source.index()]
    }

    /// Returns whether the leaving of a source was given.
    pub fn has_left(&self, source: Member) -> bool
        ensures { result ≡ slice_index_or self.now.left source false }
    {
        self.left[source.index()]
    }

    /// Notes that the slot gave a message, which may come next. Takes no memory.
    pub fn give(&mut self, message: &PageMsg)
        ensures { (given : List APageMsg) → ProgressFits given self.old → continues given message.now ≡ true → ProgressFits (given ++ message.now ∷ []) self.new }
    {
        match message {
            PageMsg::Open(_) => self.opened = true,
            PageMsg::Draw(drawop) => self.draw(drawop.name),
            PageMsg::Left(source) => self.left[source.index()] = true,
            PageMsg::Close => self.closed = true,
        }
    }

    /// Notes that the drawop of this name was given, as the last one of its source.
    fn draw(&mut self, name: Name)
        ensures new { self.new ≡ record self.old { numbers = slice_set self.old.numbers name.stream.source name.number } }
        ensures below { name.stream.source < MEMBERS }
        ensures places { length self.old.numbers ≡ MEMBERS }
    {
        self.numbers[name.source().index()] = name.number();
    }
}
