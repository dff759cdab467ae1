//! The line that is being typed, and what it says.

ghost use Rattle.std.specs.Prelude.{◌≡◌, ◌↔◌, IsTrue, OnOk, OnErr, IfOk, []};
ghost use Rattle.srm_names.specs.Names.{first_page};
ghost use Rattle.srm_live.specs.Commands as spec;
ghost use Rattle.srm_live.specs.Commands.{said_of};
ghost use Rattle.srm_live.specs.declared.typed.Typed.TheVariants.{Stroke};
ghost use Rattle.srm_live.specs.Typing.{with_byte, typed_of, line_after};

use crate::command::{Command, command_in};
use bytes::Bytes;
use srm_names::{LONGEST_BODY, Page};
use std::alloc::{AllocError, Global};
use std::marker::Model;

/// A line that ended.
#[derive(Debug, Drop)]
pub enum Typed {
    /// It is a stroke, with this body.
    Stroke(Bytes),
    /// It is too long for a stroke. Its number, from 1.
    TooLong(u64),
    /// It is a command, or begins as one and is none.
    Order(Option<Command>),
}

/// The line that is being typed, and the page where who types it stands. Of one that is too long a byte more is kept than a stroke holds.
#[derive(Drop)]
pub struct Line {
    alloc: Global,
    number: u64,
    page: Page,
    kept: Vec<u8>,
}

impl Model for Line {
    ghost use Rattle.srm_live.specs.Typing.{LineContent};

    ghost Value = { LineContent };

    ghost view = { λ l. record { number = l.number; page = l.page; kept = l.kept.items } };
}

impl Line {
    /// The first line, before anything of it is typed, by one who stands on the first page.
    pub fn new(alloc: Global) -> Line
        ensures { result ≡ record { number = 1; page = first_page; kept = [] } }
    {
        Line {
            alloc,
            number: 1,
            page: Page::first(),
            kept: Vec::new(alloc),
        }
    }

    /// Takes a byte that is no line end. Fails only if out of memory, and then nothing has changed.
    pub fn push(&mut self, byte: u8) -> Result<(), AllocError>
        ensures ok { OnOk result (self.new ≡ with_byte byte self.old) }
        ensures err { OnErr result (self.new ≡ self.old) }
    {
        if self.kept.len() <= usize::from(LONGEST_BODY) {
            self.kept.push(byte)?;
        }
        Ok(())
    }

    /// Ends the line, returns what it says, and begins the next. Fails only if out of memory, and then it didn't end.
    pub fn end(&mut self) -> Result<Typed, AllocError>
        ensures ok { IfOk result (λ typed. typed ≡ typed_of self.old) }
        ensures next { OnOk result (self.new ≡ line_after self.old) }
        ensures err { OnErr result (self.new ≡ self.old) }
    {
        let typed = if self.kept.len() > usize::from(LONGEST_BODY) {
            Typed::TooLong(self.number)
        } else {
            said(self.alloc, self.kept.as_slice())?
        };
        self.kept.clear();
        self.number = self.number.saturating_add(1);
        Ok(typed)
    }

    /// Returns the page where who types the line stands.
    pub fn page(&self) -> Page
        ensures { result ≡ self.now.page }
    {
        self.page
    }

    /// Notes that who types stands on this page from now on.
    pub fn turn_to(&mut self, page: Page)
        ensures { self.new ≡ record self.old { page = page } }
    {
        self.page = page;
    }

    /// Returns whether nothing of the line is typed.
    pub fn is_empty(&self) -> bool
        ensures { IsTrue result ↔ (self.now.kept ≡ []) }
    {
        self.kept.is_empty()
    }
}

// What a line says that isn't too long. Fails only if out of memory.
fn said(alloc: Global, line: &[u8]) -> Result<Typed, AllocError>
    ensures { IfOk result (λ typed. typed ≡ said_of line.now) }
{
    match line {
        [] => stroke(alloc, line),
        [first, rest @ ..] => {
            if *first == b'/' {
                said_behind_slash(alloc, rest)
            } else {
                stroke(alloc, line)
            }
        }
    }
}

// What a line says, by what stands behind its first slash.
fn said_behind_slash(alloc: Global, rest: &[u8]) -> Result<Typed, AllocError>
    ensures { IfOk result (λ typed. typed ≡ spec.said_behind_slash rest.now) }
{
    match rest {
        [] => Ok(Typed::Order(command_in(rest))),
        [first, ..] => {
            if *first == b'/' {
                stroke(alloc, rest)
            } else {
                Ok(Typed::Order(command_in(rest)))
            }
        }
    }
}

// A stroke with these bytes.
fn stroke(alloc: Global, body: &[u8]) -> Result<Typed, AllocError>
    ensures { IfOk result (λ typed. typed ≡ Stroke body.now) }
{
    Ok(Typed::Stroke(Bytes::copy_from_slice(alloc, body)?))
}
