//! The first lines of a script.

ghost use Rattle.std.specs.Prelude.{◌≡◌, ◌≤◌, ◌<◌, length, IfOk, OnOk};
ghost use Rattle.srm_names.specs.declared.limits.TheConstants.{MEMBERS, LONGEST_DISTANCE};
ghost use Rattle.srm_distance.specs.declared.limits.TheConstants.{SHORTEST_DISTANCE};
ghost use Rattle.srm_bucket.specs.declared.limits.TheConstants.{LEAST_RATE, GREATEST_RATE, LEAST_DEPTH, GREATEST_DEPTH};
ghost use Rattle.srm_world.specs.Traces.{IsRoster, started};

use super::line_reader::{LineFault, LineReader};
use super::number::read_number;
use super::roster::roster;
use srm_agent::{Config, Settings};
use srm_bucket::{GREATEST_DEPTH, GREATEST_RATE, LEAST_DEPTH, LEAST_RATE};
use srm_names::LONGEST_DISTANCE;
use srm_timers::Listed;
use std::alloc::{AllocError, Global};

/// The kind of the last line that was read, since the first lines have an order.
#[derive(Clone, Copy, Debug, PartialEq, Eq)]
enum Kind {
    Members,
    Bucket,
    Words,
    Timers,
    Distance,
    Event,
}

/// What the first lines of a script say.
#[derive(Drop)]
pub struct Header {
    members: u8,
    rate: u32,
    depth: u32,
    least_distance: u64,
    /// The random numbers of the members from 0 on, up to the last that a line named.
    words: Vec<Listed>,
    timers: bool,
    last: Kind,
    ghost some: { 0 < members },
    ghost few: { members ≤ MEMBERS },
    ghost least_rate: { LEAST_RATE ≤ rate },
    ghost greatest_rate: { rate ≤ GREATEST_RATE },
    ghost least_depth: { LEAST_DEPTH ≤ depth },
    ghost greatest_depth: { depth ≤ GREATEST_DEPTH },
    ghost shortest_distance: { SHORTEST_DISTANCE ≤ least_distance },
    ghost longest_distance: { least_distance ≤ LONGEST_DISTANCE },
    ghost told: { length words.items ≤ members },
}

impl Header {
    /// Makes the header of a script that only says how many members there are, with the default settings.
    pub fn new(alloc: Global, members: u8) -> Header
        requires some { 0 < members }
        requires few { members ≤ MEMBERS }
    {
        let usual = Settings::default();
        Header {
            members,
            rate: usual.rate,
            depth: usual.depth,
            least_distance: usual.least_distance,
            words: Vec::new(alloc),
            timers: false,
            last: Kind::Members,
        }
    }

    /// Reads `R D`. Bad if the line isn't the second one, or a number is out of its range.
    pub fn read_bucket(&mut self, mut reader: LineReader<'_>) -> Result<(), LineFault> {
        if !matches!(self.last, Kind::Members) {
            return Err(LineFault::Bad);
        }
        let rate = reader.number_from(LEAST_RATE, GREATEST_RATE)?;
        let depth = reader.number_from(LEAST_DEPTH, GREATEST_DEPTH)?;
        reader.end()?;
        self.rate = rate;
        self.depth = depth;
        self.last = Kind::Bucket;
        Ok(())
    }

    /// Reads `M W ..`. Bad after timers, distance or an event, for a member that isn't there, or if an earlier line named this member or
    /// a later one.
    pub fn read_words(
        &mut self,
        alloc: Global,
        mut reader: LineReader<'_>,
    ) -> Result<(), LineFault> {
        if matches!(self.last, Kind::Timers | Kind::Distance | Kind::Event) {
            return Err(LineFault::Bad);
        }
        let member = reader.member()?;
        if member >= self.members || usize::from(member) < self.words.len() {
            return Err(LineFault::Bad);
        }
        let listed = read_list(alloc, reader)?;
        fill(alloc, &mut self.words, member)?;
        self.words
            .push(Listed::new(listed))
            .map_err(AllocError::from)?;
        self.last = Kind::Words;
        Ok(())
    }

    /// Reads the end of the line `timers`. Bad after another such line, distance or an event.
    pub fn read_timers(&mut self, reader: LineReader<'_>) -> Result<(), LineFault> {
        if matches!(self.last, Kind::Timers | Kind::Distance | Kind::Event) {
            return Err(LineFault::Bad);
        }
        reader.end()?;
        self.timers = true;
        self.last = Kind::Timers;
        Ok(())
    }

    /// Reads `L`. Bad after another such line or an event.
    pub fn read_distance(&mut self, mut reader: LineReader<'_>) -> Result<(), LineFault> {
        if matches!(self.last, Kind::Distance | Kind::Event) {
            return Err(LineFault::Bad);
        }
        let least = reader.number_from(1, LONGEST_DISTANCE as u32)?;
        reader.end()?;
        self.least_distance = u64::from(least);
        self.last = Kind::Distance;
        Ok(())
    }

    /// Ends the first lines, since an event was read.
    pub fn end(&mut self) {
        self.last = Kind::Event;
    }

    /// Returns whether timers are printed.
    pub fn has_timers(&self) -> bool {
        self.timers
    }

    /// Returns the settings of all members. Fails only if out of memory.
    pub fn configs(&self, alloc: Global) -> Result<Vec<Config>, AllocError>
        ensures roster { IfOk result (λ configs. IsRoster (started configs.items)) }
        ensures count { IfOk result (λ configs. length configs.items ≡ self.now.members) }
    {
        roster(
            alloc,
            self.members,
            self.rate,
            self.depth,
            self.least_distance,
        )
    }

    /// Returns the random numbers of all members, none for a member that no line named. Fails only if out of memory.
    pub fn words(self, alloc: Global) -> Result<Vec<Listed>, AllocError>
        ensures { IfOk result (λ words. length words.items ≡ self.members) }
    {
        let mut words = self.words;
        fill(alloc, &mut words, self.members)?;
        Ok(words)
    }
}

/// Appends empty lists of random numbers until there are so many lists.
fn fill(alloc: Global, words: &mut Vec<Listed>, count: u8) -> Result<(), AllocError>
    requires { length words.old.items ≤ count }
    ensures ok { OnOk result (length words.new.items ≡ count) }
    ensures most { length words.new.items ≤ count }
{
    for _ in words.len()..usize::from(count) {
        words.push(Listed::new(Vec::new(alloc)))?;
    }
    Ok(())
}

/// Reads one random number or more, separated by one space.
fn read_list(alloc: Global, reader: LineReader<'_>) -> Result<Vec<u64>, LineFault> {
    let mut listed = Vec::new(alloc);
    for word in reader.rest().ok_or(LineFault::Bad)?.split(' ') {
        let number = read_number(word, u64::MAX).ok_or(LineFault::Bad)?;
        listed.push(number).map_err(AllocError::from)?;
    }
    Ok(listed)
}
