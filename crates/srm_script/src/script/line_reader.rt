//! Reading a line, word by word.

ghost use Rattle.std.specs.Prelude.{◌≤◌, IfOk};
ghost use Rattle.srm_names.specs.declared.limits.TheConstants.{LATEST_MOMENT};

use super::number::read_number;
use crate::fault::ScriptFault;
use srm_names::{LATEST_MOMENT, MEMBERS, Member, PAGE_NUMBERS, Page};
use std::alloc::AllocError;

/// Why a line can't be read.
#[derive(Clone, Copy, Debug, PartialEq, Eq)]
pub enum LineFault {
    /// The line is none of a script.
    Bad,
    /// Out of memory.
    Memory,
}

impl LineFault {
    /// Returns the fault of a script that has this line, by its number from 1.
    pub fn at(self, line: u64) -> ScriptFault {
        match self {
            LineFault::Bad => ScriptFault::BadLine(line),
            LineFault::Memory => ScriptFault::Memory,
        }
    }
}

impl From<AllocError> for LineFault {
    fn from(_error: AllocError) -> LineFault {
        LineFault::Memory
    }
}

/// The part of a line that isn't read yet: `None` after the last word, which differs from an empty word.
#[derive(Drop)]
pub struct LineReader<'a> {
    left: Option<&'a str>,
}

impl<'a> LineReader<'a> {
    /// Begins a line. Bad if it isn't printable ASCII.
    pub fn new(line: &'a [u8]) -> Result<LineReader<'a>, LineFault> {
        if !line.iter().all(|byte| (b' '..=b'~').contains(byte)) {
            return Err(LineFault::Bad);
        }
        match str::from_utf8(line) {
            Ok(text) => Ok(LineReader { left: Some(text) }),
            Err(_) => Err(LineFault::Bad),
        }
    }

    /// Reads the next word, up to the next space. Bad if there is none.
    pub fn next(&mut self) -> Result<&'a str, LineFault> {
        let left = self.left.ok_or(LineFault::Bad)?;
        match left.split_once(' ') {
            None => {
                self.left = None;
                Ok(left)
            }
            Some((word, left)) => {
                self.left = Some(left);
                Ok(word)
            }
        }
    }

    /// Returns all that is left, spaces too; `None` after the last word.
    pub fn rest(self) -> Option<&'a str> {
        self.left
    }

    /// Checks that the line ends. Bad if it goes on.
    pub fn end(self) -> Result<(), LineFault> {
        match self.left {
            None => Ok(()),
            Some(_) => Err(LineFault::Bad),
        }
    }

    /// Reads a number in decimal, without sign and leading zeros. Bad if the next word is none, or is above `greatest`.
    pub fn number(&mut self, greatest: u64) -> Result<u64, LineFault>
        ensures { IfOk result (λ number. number ≤ greatest) }
    {
        let word = self.next()?;
        read_number(word, greatest).ok_or(LineFault::Bad)
    }

    /// Reads a number in decimal. Bad if the next word is none from `least` to `greatest`.
    pub fn number_from(&mut self, least: u32, greatest: u32) -> Result<u32, LineFault>
        ensures least { IfOk result (λ number. least ≤ number) }
        ensures greatest { IfOk result (λ number. number ≤ greatest) }
    {
        let number = self.number(u64::from(greatest))? as u32;
        if number < least {
            return Err(LineFault::Bad);
        }
        Ok(number)
    }

    /// Reads the number of a member, 0 to 31. The world may have fewer members.
    pub fn member(&mut self) -> Result<u8, LineFault> {
        let number = self.number(u64::from(MEMBERS) - 1)?;
        Ok(number as u8)
    }

    /// Reads a moment in microseconds, at most 2^48.
    pub fn moment(&mut self) -> Result<u64, LineFault>
        ensures { IfOk result (λ now. now ≤ LATEST_MOMENT) }
    {
        self.number(LATEST_MOMENT)
    }

    /// Reads the number of a slot, 0 to 255. The world has slots 0 to 7.
    pub fn slot(&mut self) -> Result<u8, LineFault> {
        let number = self.number(u64::from(u8::MAX))?;
        Ok(number as u8)
    }

    /// Reads a page: the number of its creator, a dot and the number of the page.
    pub fn page(&mut self) -> Result<Page, LineFault> {
        let word = self.next()?;
        read_page(word).ok_or(LineFault::Bad)
    }
}

fn read_page(text: &str) -> Option<Page> {
    let (creator, number) = text.split_once('.')?;
    let creator = read_number(creator, u64::from(MEMBERS) - 1)?;
    let number = read_number(number, u64::from(PAGE_NUMBERS) - 1)?;
    Some(Page {
        creator: Member::new(creator as u8)?,
        number: number as u16,
    })
}
