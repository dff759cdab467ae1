//! Standard error of a live member: what is told, and on a terminal what goes on, as the title of its window.

ghost use Rattle.std.specs.Prelude.{◌≡◌, ◌≤◌};
ghost use Rattle.srm_live.specs.declared.live_fault.TheConstants.{WAS_BEFORE};
ghost use Rattle.srm_live.specs.LiveStatuses.{status_of_live};

use crate::live_fault::LiveFault;
use std::io::Write;

/// The terminal keeps the title that its window has, and gives it back. One that can't ignores both.
const KEEP_TITLE: &str = "\x1b[22;2t";

const RESTORE_TITLE: &str = "\x1b[23;2t";

/// What stands between them becomes the title.
const BEGIN_TITLE: &str = "\x1b]2;";

const END_TITLE: &str = "\x07";

/// Standard error of a live member.
#[derive(Drop)]
pub struct ErrorStream<E> {
    stream: E,
    // Whether the window has a title of the member's.
    has_title: bool,
}

impl<E: Write> ErrorStream<E> {
    /// Makes a stream whose window has another's title.
    pub fn new(stream: E) -> ErrorStream<E> {
        ErrorStream {
            stream,
            has_title: false,
        }
    }

    /// Makes a text the title of the terminal's window.
    pub fn show_title(&mut self, title: &str) {
        if !self.has_title {
            self.write(KEEP_TITLE);
            self.has_title = true;
        }
        self.write(BEGIN_TITLE);
        self.write(title);
        self.write(END_TITLE);
    }

    /// Gives the window the title back that it had.
    pub fn restore_title(&mut self) {
        if self.has_title {
            self.write(RESTORE_TITLE);
            self.has_title = false;
        }
    }

    /// Prints a line, which has its line end.
    pub fn tell(&mut self, line: &str) {
        self.write(line);
    }

    /// Prints a fault as a line, and returns its status.
    pub fn print(&mut self, fault: &LiveFault) -> u8
        ensures status { result ≡ status_of_live fault.now }
        ensures greatest { result ≤ WAS_BEFORE }
    {
        fault.print(&mut self.stream)
    }

    fn write(&mut self, text: &str) {
        // Where this can't be written there is nobody left to tell.
        let _ = self.stream.write_all(text.as_bytes());
    }
}
