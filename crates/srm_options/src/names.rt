//! What the members of a session are called.

ghost use Rattle.std.specs.Prelude.{◌≡◌, ◌==◌, ◌⊎◌, [], Some, length, map, option_map, slice_get, IfOk};
ghost use Rattle.srm_room.specs.Rooms.{person};
ghost use Rattle.srm_options.specs.MemberNames.{called, names_of, said, titled};

use srm_names::Member;
use srm_room::{Room, RoomMember};
use std::alloc::{AllocError, Global};
use std::fmt;
use std::marker::Model;

/// What the members of a session are called, by their numbers: as their room names them, or by number.
#[derive(Debug, Drop)]
pub struct Names {
    names: Vec<String>,
}

impl Model for Names {
    ghost use Rattle.std.specs.Prelude.{ℕ, List};
    ghost use Rattle.srm_options.specs.MemberNames.{said};

    ghost Value = { List (List ℕ) };

    ghost view = { λ n. said n.names.items };
}

impl Names {
    /// Returns that nobody has a name. Takes no memory.
    pub fn none(alloc: Global) -> Names
        ensures { result ≡ [] }
    {
        Names {
            names: Vec::new(alloc),
        }
    }

    /// Returns the names that a room has. Fails only if out of memory.
    pub fn of_room(alloc: Global, room: &Room) -> Result<Names, AllocError>
        ensures { IfOk result (λ names. names ≡ names_of room.now.people) }
    {
        Ok(Names {
            names: names_in(alloc, room.members())?,
        })
    }

    /// Copies the names. Fails only if out of memory.
    pub fn copy(&self, alloc: Global) -> Result<Names, AllocError>
        ensures { IfOk result (λ names. names ≡ self.now) }
    {
        Ok(Names {
            names: self.texts(alloc)?,
        })
    }

    /// Copies the names; if out of memory, returns that nobody has one.
    pub fn copy_or_none(&self, alloc: Global) -> Names
        ensures { (result ≡ self.now) ⊎ (result ≡ []) }
    {
        match self.copy(alloc) {
            Ok(names) => names,
            Err(_) => Names::none(alloc),
        }
    }

    /// Returns the names as texts, by the members' numbers; none if nobody has a name. Fails only if out of memory.
    pub fn texts(&self, alloc: Global) -> Result<Vec<String>, AllocError>
        ensures { IfOk result (λ texts. said texts.items ≡ self.now) }
    {
        copies(alloc, self.names.as_slice())
    }

    /// Returns whether nobody has a name.
    #[tactic(auto, using(crate::proofs::Naming::said_count))]
    pub fn is_empty(&self) -> bool
        ensures { result ≡ (length self.now == 0) }
    {
        self.names.is_empty()
    }

    /// Returns the name of a member, if it has one.
    #[tactic(auto, using(crate::proofs::Naming::name_at))]
    pub fn of(&self, member: Member) -> Option<&str>
        ensures { option_map (λ name. name.now) result ≡ slice_get self.now member }
    {
        match self.names.as_slice().get(member.index()) {
            Some(name) => Some(name.as_str()),
            None => None,
        }
    }

    /// Returns what displays a member: as its name, or its number.
    pub fn called(&self, member: Member) -> Called<'_>
        ensures names { result.names.now ≡ self.now }
        ensures member { result.member ≡ member }
    {
        Called {
            names: self,
            member,
        }
    }

    /// Returns what displays a member: as its name, or `member` and its number.
    pub fn titled(&self, member: Member) -> Titled<'_>
        ensures names { result.names.now ≡ self.now }
        ensures member { result.member ≡ member }
    {
        Titled {
            names: self,
            member,
        }
    }
}

fn names_in(alloc: Global, members: &[RoomMember]) -> Result<Vec<String>, AllocError>
    ensures { IfOk result (λ names. said names.items ≡ names_of (map person members.now)) }
{
    let mut names = Vec::new(alloc);
    for member in members {
        names.push(String::from_str(alloc, member.name.as_str())?)?;
    }
    Ok(names)
}

fn copies(alloc: Global, texts: &[String]) -> Result<Vec<String>, AllocError>
    ensures { IfOk result (λ copies. said copies.items ≡ said texts.now) }
{
    let mut copies = Vec::new(alloc);
    for text in texts {
        copies.push(String::from_str(alloc, text.as_str())?)?;
    }
    Ok(copies)
}

/// Displays a member by its name, or its number.
#[derive(Drop)]
pub struct Called<'a> {
    names: &'a Names,
    member: Member,
}

impl fmt::Display for Called<'_> {
    ghost output = { λ c. Some (called c.names.now c.member) };

    fn fmt<W: fmt::Write>(&self, f: &mut fmt::Formatter<W>) -> fmt::Result {
        match self.names.of(self.member) {
            Some(name) => f.write_str(name),
            None => write!(f, "{}", self.member.number()),
        }
    }
}

/// Displays a member by its name, or by `member` and its number.
#[derive(Drop)]
pub struct Titled<'a> {
    names: &'a Names,
    member: Member,
}

impl fmt::Display for Titled<'_> {
    ghost output = { λ t. Some (titled t.names.now t.member) };

    fn fmt<W: fmt::Write>(&self, f: &mut fmt::Formatter<W>) -> fmt::Result {
        match self.names.of(self.member) {
            Some(name) => f.write_str(name),
            None => write!(f, "member {}", self.member.number()),
        }
    }
}
