//! The fields of a datagram, read one after the other.

ghost use Rattle.std.specs.Prelude.{◌≡◌, ◌==◌, ◌<◌, length, MatchResult, true, false};
ghost use Rattle.std.specs.Int.{w8, w16, w32, w64};
ghost use Rattle.srm_codec.specs.declared.fault.DecodeFault.TheVariants.{Length};
ghost use Rattle.srm_codec.specs.Judging.{prefix_at, number_at, magic_at, version_at, kind_at, session_at, member_at, moment_at, page_at, source_at, stream_at, name_at, body_at, flag_at};
ghost use Rattle.srm_codec.specs.Reading.{IsRead, IsReadBy};

use crate::fault::DecodeFault;
use crate::format::{DATA, MAGIC, PACKED, PLAIN, REQUEST, SESSION_MESSAGE};
use srm_names::{LATEST_MOMENT, LONGEST_BODY, Member, Name, Page, Stream};
use std::marker::Model;

/// The bytes that are still to be read. Contracts see them.
#[derive(Drop)]
pub struct Reader<'a> {
    rest: &'a [u8],
}

impl<'a> Model for Reader<'a> {
    ghost use Rattle.std.specs.Prelude.{ℕ, List};

    ghost Value = { List ℕ };

    ghost view = { λ r. r.rest.now };
}

impl<'a> Reader<'a> {
    /// Makes a reader of bytes.
    pub fn new(bytes: &'a [u8]) -> Reader<'a>
        ensures { result ≡ bytes.now }
    {
        Reader { rest: bytes }
    }

    /// Returns another reader of the bytes that are still to be read.
    pub fn again(&self) -> Reader<'a>
        ensures { result ≡ self.now }
    {
        Reader { rest: self.rest }
    }

    #[tactic(auto, unfolding(crate::specs::Judging::prefix_at))]
    fn prefix<const N: usize>(&mut self) -> Result<[u8; N], DecodeFault>
        ensures { IsRead result self.new (prefix_at N self.old) }
    {
        let Some((prefix, rest)) = self.rest.split_first_chunk() else {
            return Err(DecodeFault::Short);
        };
        self.rest = rest;
        Ok(*prefix)
    }

    /// Reads one byte. Fails with `Short` if none is left.
    pub fn u8(&mut self) -> Result<u8, DecodeFault>
        ensures { IsRead result self.new (number_at w8 self.old) }
    {
        let prefix: [u8; 1] = self.prefix()?;
        Ok(prefix[0])
    }

    fn u16(&mut self) -> Result<u16, DecodeFault>
        ensures { IsRead result self.new (number_at w16 self.old) }
    {
        let prefix = self.prefix()?;
        Ok(u16::from_be_bytes(prefix))
    }

    /// Reads a number of four bytes. Fails with `Short` if fewer are left.
    pub fn u32(&mut self) -> Result<u32, DecodeFault>
        ensures { IsRead result self.new (number_at w32 self.old) }
    {
        let prefix = self.prefix()?;
        Ok(u32::from_be_bytes(prefix))
    }

    fn u64(&mut self) -> Result<u64, DecodeFault>
        ensures { IsRead result self.new (number_at w64 self.old) }
    {
        let prefix = self.prefix()?;
        Ok(u64::from_be_bytes(prefix))
    }

    /// Reads the first two bytes. Fails with `Short`, and with `Magic` unless they are `SR`.
    #[tactic(auto, unfolding(crate::specs::Judging::magic_at))]
    pub fn magic(&mut self) -> Result<(), DecodeFault>
        ensures { IsReadBy (λ _. MAGIC) result self.new (magic_at self.old) }
    {
        let magic = self.u16()?;
        if magic == MAGIC {
            Ok(())
        } else {
            Err(DecodeFault::Magic)
        }
    }

    /// Reads the version, 1 or 2. Fails with `Short`, and with `Version` for another.
    #[tactic(auto, unfolding(crate::specs::Judging::version_at))]
    pub fn version(&mut self) -> Result<u8, DecodeFault>
        ensures { IsRead result self.new (version_at self.old) }
    {
        let version = self.u8()?;
        if version == PLAIN || version == PACKED {
            Ok(version)
        } else {
            Err(DecodeFault::Version)
        }
    }

    /// Reads the kind. Fails with `Short`, and with `Kind` for one that this version doesn't have.
    #[tactic(auto, unfolding(crate::specs::Judging::kind_at))]
    pub fn kind(&mut self, version: u8) -> Result<u8, DecodeFault>
        ensures { IsRead result self.new (kind_at version self.old) }
    {
        let kind = self.u8()?;
        if kind == REQUEST || version == PLAIN && DATA <= kind && kind <= SESSION_MESSAGE {
            Ok(kind)
        } else {
            Err(DecodeFault::Kind)
        }
    }

    /// Reads the number of the session. Fails with `Short`, and with `Session` unless it is this one.
    #[tactic(auto, unfolding(crate::specs::Judging::session_at))]
    pub fn session(&mut self, session: u32) -> Result<(), DecodeFault>
        ensures { IsReadBy (λ _. session) result self.new (session_at session self.old) }
    {
        let number = self.u32()?;
        if number == session {
            Ok(())
        } else {
            Err(DecodeFault::Session)
        }
    }

    /// Reads a member. Fails with `Short`, and with `Member` from 32 on.
    #[tactic(auto, unfolding(crate::specs::Judging::member_at))]
    pub fn member(&mut self) -> Result<Member, DecodeFault>
        ensures { IsRead result self.new (member_at self.old) }
    {
        let number = self.u8()?;
        Member::new(number).ok_or(DecodeFault::Member)
    }

    /// Reads a moment or a delay, in microseconds. Fails with `Short`, and with `Number` past 2^48.
    #[tactic(auto, unfolding(crate::specs::Judging::moment_at))]
    pub fn moment(&mut self) -> Result<u64, DecodeFault>
        ensures { IsRead result self.new (moment_at self.old) }
    {
        let moment = self.u64()?;
        if moment <= LATEST_MOMENT {
            Ok(moment)
        } else {
            Err(DecodeFault::Number)
        }
    }

    /// Reads a page. Fails with `Short`, and with `Member` for a creator from 32 on.
    #[tactic(auto, unfolding(crate::specs::Judging::page_at))]
    pub fn page(&mut self) -> Result<Page, DecodeFault>
        ensures { IsRead result self.new (page_at self.old) }
    {
        let creator = self.member()?;
        let number = self.u16()?;
        Ok(Page { creator, number })
    }

    /// A source; the wanted one, if there is one.
    #[tactic(auto, unfolding(crate::specs::Judging::source_at))]
    fn source(&mut self, wanted: Option<Member>) -> Result<Member, DecodeFault>
        ensures { IsRead result self.new (source_at wanted self.old) }
    {
        let source = self.member()?;
        match wanted {
            Some(wanted) if source != wanted => Err(DecodeFault::Source),
            _ => Ok(source),
        }
    }

    /// A stream behind that of the last row, if there is one.
    #[tactic(auto, unfolding(crate::specs::Judging::any_stream_at, crate::specs::Judging::stream_at))]
    fn stream(&mut self, wanted: Option<Member>, last: Option<Name>) -> Result<Stream, DecodeFault>
        ensures { IsRead result self.new (stream_at wanted last self.old) }
    {
        let source = self.source(wanted)?;
        let page = self.page()?;
        let stream = Stream { source, page };
        match last {
            Some(row) if row.stream() >= stream => Err(DecodeFault::Order),
            _ => Ok(stream),
        }
    }

    /// Reads a name, of the wanted source, after the last row.
    #[tactic(auto, unfolding(crate::specs::Judging::number_in_stream_at, crate::specs::Judging::name_at))]
    pub fn name(&mut self, wanted: Option<Member>, last: Option<Name>) -> Result<Name, DecodeFault>
        ensures { IsRead result self.new (name_at wanted last self.old) }
    {
        let stream = self.stream(wanted, last)?;
        let number = self.u32()?;
        stream.at(number).ok_or(DecodeFault::Number)
    }

    /// Reads a body behind its length. Fails with `Short`, and with `Length` past 1,024 bytes.
    #[tactic(auto, unfolding(crate::specs::Judging::prefix_at, crate::specs::Judging::size_at, crate::specs::Judging::body_at))]
    pub fn body(&mut self) -> Result<&'a [u8], DecodeFault>
        ensures { IsReadBy (λ body. body.now) result self.new (body_at self.old) }
    {
        let size = self.u16()?;
        if LONGEST_BODY < size {
            return Err(DecodeFault::Length);
        }
        let size = usize::from(size);
        if self.rest.len() < size {
            return Err(DecodeFault::Short);
        }
        let (body, rest) = self.rest.split_at(size);
        self.rest = rest;
        Ok(body)
    }

    /// Reads the flags, and returns whether that of a farewell is set.
    #[tactic(auto, unfolding(crate::specs::Judging::flag_at))]
    pub fn flag(&mut self) -> Result<bool, DecodeFault>
        ensures { IsRead result self.new (flag_at self.old) }
    {
        let flags = self.u8()?;
        if flags <= 1 {
            Ok(flags == 1)
        } else {
            Err(DecodeFault::Flags)
        }
    }

    /// Checks that nothing follows. Fails with `Length` if something does.
    pub fn end(&self) -> Result<(), DecodeFault>
        ensures { MatchResult result (λ _. (length self.now == 0) ≡ true)
            (λ fault. ((length self.now == 0) ≡ false) × (fault ≡ Length)) }
    {
        if self.rest.is_empty() {
            Ok(())
        } else {
            Err(DecodeFault::Length)
        }
    }
}
