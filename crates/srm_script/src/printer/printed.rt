//! How pages, names, timers, messages and bodies are printed.

ghost use Rattle.std.specs.Prelude.{◌≡◌, ◌≤◌, Some, length, take, option_map};
ghost use Rattle.std.specs.Bool.{OnTrue};
ghost use Rattle.srm_script.specs.TookLines as spec;
ghost use Rattle.srm_script.specs.TookLines.{page_text, body_text, message_text, answer_text, took_text, gone_text};

use srm_agent::Arm;
use srm_names::{Member, Name, Page, PageMsg};
use std::fmt;

/// Displays a page: the number of its creator, a dot and the number of the page.
#[derive(Drop)]
pub struct PrintedPage(pub Page);

impl fmt::Display for PrintedPage {
    ghost output = { λ page. Some (page_text page.0) };

    fn fmt<W: fmt::Write>(&self, f: &mut fmt::Formatter<W>) -> fmt::Result {
        let creator = self.0.creator.number();
        let number = self.0.number;
        write!(f, "{creator}.{number}")
    }
}

/// Displays a name: the number of its source, its page and the number of the drawop.
#[derive(Drop)]
pub struct PrintedName(pub Name);

impl fmt::Display for PrintedName {
    fn fmt<W: fmt::Write>(&self, f: &mut fmt::Formatter<W>) -> fmt::Result {
        let stream = self.0.stream();
        let source = stream.source.number();
        let number = self.0.number();
        write!(f, "{source} {} {number}", PrintedPage(stream.page))
    }
}

/// Displays a timer that was set: its kind, the name, the exponent and the wait in microseconds.
#[derive(Drop)]
pub struct PrintedArm<'a>(pub &'a Arm);

impl fmt::Display for PrintedArm<'_> {
    fn fmt<W: fmt::Write>(&self, f: &mut fmt::Formatter<W>) -> fmt::Result {
        let kind = self.0.kind.printed();
        let exponent = self.0.exponent;
        let wait = self.0.wait;
        write!(f, "{kind} {} {exponent} {wait}", PrintedName(self.0.name))
    }
}

/// Displays the message that a page worker was given or took, or `none`.
#[derive(Drop)]
pub struct PrintedAnswer<'a>(pub Option<&'a PageMsg>);

impl fmt::Display for PrintedAnswer<'_> {
    ghost output = { λ answer. Some (answer_text (option_map (λ message. message.now) answer.0)) };

    fn fmt<W: fmt::Write>(&self, f: &mut fmt::Formatter<W>) -> fmt::Result {
        match self.0 {
            None => write!(f, "none"),
            Some(message) => write!(f, "{}", PrintedMessage(message)),
        }
    }
}

/// Displays the line for a take, without its end: the member, the page slot, and the message that its worker took, or `none`.
#[derive(Drop)]
pub struct PrintedTake<'a> {
    /// The member whose worker took it.
    pub member: Member,
    /// The page slot of the worker, 0 to 7.
    pub slot: usize,
    /// What the worker took. `None` is displayed as `none`.
    pub message: Option<&'a PageMsg>,
}

impl fmt::Display for PrintedTake<'_> {
    ghost output = { λ take. Some (took_text take.member take.slot (option_map (λ message. message.now) take.message)) };

    fn fmt<W: fmt::Write>(&self, f: &mut fmt::Formatter<W>) -> fmt::Result {
        let member = self.member.number();
        let slot = self.slot;
        write!(f, "took {member} {slot} {}", PrintedAnswer(self.message))
    }
}

/// Displays the line for a member that is gone, without its end.
#[derive(Drop)]
pub struct PrintedGone(pub Member);

impl fmt::Display for PrintedGone {
    ghost output = { λ gone. Some (gone_text gone.0) };

    fn fmt<W: fmt::Write>(&self, f: &mut fmt::Formatter<W>) -> fmt::Result {
        write!(f, "gone {}", self.0.number())
    }
}

/// Displays a message of a page feed. A byte of a body that isn't printable ASCII is shown as `?`.
#[derive(Drop)]
struct PrintedMessage<'a>(&'a PageMsg);

impl fmt::Display for PrintedMessage<'_> {
    ghost output = { λ message. Some (message_text message.0.now) };

    fn fmt<W: fmt::Write>(&self, f: &mut fmt::Formatter<W>) -> fmt::Result {
        match self.0 {
            PageMsg::Open(page) => write!(f, "open {}", PrintedPage(*page)),
            PageMsg::Draw(drawop) => {
                let source = drawop.name.source().number();
                let number = drawop.name.number();
                write!(f, "draw {source} {number} {}", PrintedBody(&drawop.body))
            }
            PageMsg::Left(member) => write!(f, "left {}", member.number()),
            PageMsg::Close => write!(f, "close"),
        }
    }
}

/// Displays the bytes of a body. One that isn't printable ASCII is shown as `?`.
#[derive(Drop)]
struct PrintedBody<'a>(&'a [u8]);

/// How many bytes of a body are written at once, since one character costs as much as many.
const SHOWN_AT_ONCE: usize = 128;

impl fmt::Display for PrintedBody<'_> {
    ghost output = { λ body. Some (body_text body.0.now) };

    fn fmt<W: fmt::Write>(&self, f: &mut fmt::Formatter<W>) -> fmt::Result {
        // Most bodies are shown as they are, in one piece.
        if is_plain(self.0) {
            let Ok(text) = str::from_utf8(self.0) else {
                return Err(fmt::Error);
            };
            return f.write_str(text);
        }
        for bytes in self.0.chunks(SHOWN_AT_ONCE) {
            let shown = shown(bytes);
            let Ok(text) = str::from_utf8(&shown[..bytes.len()]) else {
                return Err(fmt::Error);
            };
            f.write_str(text)?;
        }
        Ok(())
    }
}

/// Whether all bytes are shown as they are. It looks at each, since a loop without an exit goes through many at once.
fn is_plain(bytes: &[u8]) -> bool
    ensures { OnTrue result (body_text bytes.now ≡ bytes.now) }
{
    let mut plain = true;
    for byte in bytes {
        plain &= is_shown(*byte);
    }
    plain
}

/// Whether a byte is shown as it is.
fn is_shown(byte: u8) -> bool
    ensures { OnTrue result (spec.shown_byte byte ≡ byte) }
{
    matches!(byte, b' '..=b'~')
}

/// The bytes as they are shown, at the front of the array.
fn shown(bytes: &[u8]) -> [u8; SHOWN_AT_ONCE]
    requires { length bytes.now ≤ SHOWN_AT_ONCE }
    ensures { take (length bytes.now) result ≡ body_text bytes.now }
{
    let mut shown = [b'?'; SHOWN_AT_ONCE];
    for at in 0..bytes.len() {
        shown[at] = shown_byte(bytes[at]);
    }
    shown
}

/// A byte as it is shown.
fn shown_byte(byte: u8) -> u8
    ensures { result ≡ spec.shown_byte byte }
{
    match byte {
        b' '..=b'~' => byte,
        _ => b'?',
    }
}
