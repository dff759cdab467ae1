//! The fields of a record, read one after the other.

ghost use Rattle.std.specs.Prelude.{◌≡◌, None, Ok, IfSome, IsErr};
ghost use Rattle.std.specs.Int.{w8, w16, w32, w64};
ghost use Rattle.srm_codec.specs.Judging.{prefix_at, number_at, member_at, moment_at, page_at, stream_at, name_at};
ghost use Rattle.srm_frames.specs.Readings.{IsFound, IsFoundBy, parts, slot_at, frame_at};

use crate::checksum::crc_32;
use crate::format::FRAME_HEAD_BYTES;
use crate::frame::Frame;
use srm_names::{LATEST_MOMENT, Member, Name, PAGES, Page, Stream};
use std::marker::Model;

/// The bytes that are still to be read. Contracts see them. Where a field isn't there, what is left to read is open.
#[derive(Drop)]
pub struct Reader<'a> {
    rest: &'a [u8],
}

impl<'a> Model for Reader<'a> {
    ghost use Rattle.std.specs.Prelude.{ℕ, List};

    ghost Value = { List ℕ };

    ghost view = { λ r. r.rest.now };
}

impl<'a> Reader<'a> {
    /// Makes a reader of bytes.
    pub fn new(bytes: &'a [u8]) -> Reader<'a>
        ensures { result ≡ bytes.now }
    {
        Reader { rest: bytes }
    }

    /// Returns another reader of the bytes that are still to be read.
    pub fn again(&self) -> Reader<'a>
        ensures { result ≡ self.now }
    {
        Reader { rest: self.rest }
    }

    /// Returns what is still to be read.
    pub fn rest(&self) -> &'a [u8]
        ensures { result.now ≡ self.now }
    {
        self.rest
    }

    #[tactic(auto, unfolding(srm_codec::specs::Judging::prefix_at))]
    fn prefix<const N: usize>(&mut self) -> Option<[u8; N]>
        ensures { IsFound result self.new (prefix_at N self.old) }
    {
        let Some((prefix, rest)) = self.rest.split_first_chunk() else {
            return None;
        };
        self.rest = rest;
        Some(*prefix)
    }

    /// Reads one byte; `None` if none is left.
    pub fn u8(&mut self) -> Option<u8>
        ensures { IsFound result self.new (number_at w8 self.old) }
    {
        let prefix: [u8; 1] = self.prefix()?;
        Some(prefix[0])
    }

    fn u16(&mut self) -> Option<u16>
        ensures { IsFound result self.new (number_at w16 self.old) }
    {
        let prefix = self.prefix()?;
        Some(u16::from_be_bytes(prefix))
    }

    /// Reads a number of four bytes; `None` if fewer are left.
    pub fn u32(&mut self) -> Option<u32>
        ensures { IsFound result self.new (number_at w32 self.old) }
    {
        let prefix = self.prefix()?;
        Some(u32::from_be_bytes(prefix))
    }

    /// Reads a number of eight bytes; `None` if fewer are left.
    pub fn u64(&mut self) -> Option<u64>
        ensures { IsFound result self.new (number_at w64 self.old) }
    {
        let prefix = self.prefix()?;
        Some(u64::from_be_bytes(prefix))
    }

    /// Reads a moment in microseconds; `None` past 2^48.
    #[tactic(auto, unfolding(srm_codec::specs::Judging::moment_at))]
    pub fn moment(&mut self) -> Option<u64>
        ensures { IsFound result self.new (moment_at self.old) }
    {
        let moment = self.u64()?;
        if moment <= LATEST_MOMENT {
            Some(moment)
        } else {
            None
        }
    }

    /// Reads a member; `None` from 32 on.
    #[tactic(auto, unfolding(srm_codec::specs::Judging::member_at))]
    pub fn member(&mut self) -> Option<Member>
        ensures { IsFound result self.new (member_at self.old) }
    {
        let number = self.u8()?;
        Member::new(number)
    }

    /// Reads a page slot, 0 to 7.
    #[tactic(auto, unfolding(crate::specs::Readings::slot_at))]
    pub fn slot(&mut self) -> Option<u8>
        ensures { IsFound result self.new (slot_at self.old) }
    {
        let number = self.u8()?;
        if number < PAGES { Some(number) } else { None }
    }

    /// Reads a page; `None` for a creator from 32 on.
    #[tactic(auto, unfolding(srm_codec::specs::Judging::page_at))]
    pub fn page(&mut self) -> Option<Page>
        ensures { IsFound result self.new (page_at self.old) }
    {
        let creator = self.member()?;
        let number = self.u16()?;
        Some(Page { creator, number })
    }

    #[tactic(auto, unfolding(srm_codec::specs::Judging::source_at, srm_codec::specs::Judging::any_stream_at, srm_codec::specs::Judging::stream_at))]
    fn stream(&mut self) -> Option<Stream>
        ensures { IsFound result self.new (stream_at None None self.old) }
    {
        let source = self.member()?;
        let page = self.page()?;
        Some(Stream { source, page })
    }

    /// Reads a name; `None` unless each part is in its range.
    #[tactic(auto, unfolding(srm_codec::specs::Judging::number_in_stream_at, srm_codec::specs::Judging::name_at))]
    pub fn name(&mut self) -> Option<Name>
        ensures { IsFound result self.new (name_at None None self.old) }
    {
        let stream = self.stream()?;
        let number = self.u32()?;
        stream.at(number)
    }

    /// Reads so many bytes.
    #[tactic(auto, unfolding(srm_codec::specs::Judging::prefix_at))]
    pub fn bytes(&mut self, count: usize) -> Option<&'a [u8]>
        ensures { IsFoundBy (λ bytes. bytes.now) result self.new (prefix_at count self.old) }
    {
        if self.rest.len() < count {
            return None;
        }
        let (bytes, rest) = self.rest.split_at(count);
        self.rest = rest;
        Some(bytes)
    }

    /// Reads the next frame. Where there is none, the reader stays where it is.
    pub fn next_frame(&mut self) -> Option<Frame<'a>>
        ensures found { IfSome result (λ f. frame_at self.old ≡ Ok (parts f.kind f.moment f.payload.now, self.new)) }
        ensures none { result ≡ None → (self.new ≡ self.old) × IsErr (frame_at self.old) }
    {
        let mut ahead = self.again();
        let Some(frame) = ahead.frame() else {
            return None;
        };
        self.rest = ahead.rest;
        Some(frame)
    }

    #[tactic(auto, unfolding(crate::specs::Readings::frame_at))]
    fn frame(&mut self) -> Option<Frame<'a>>
        ensures { IsFoundBy (λ f. parts f.kind f.moment f.payload.now) result self.new (frame_at self.old) }
    {
        let whole = self.rest;
        let kind = self.u8()?;
        let moment = self.u64()?;
        let size = self.u32()? as usize;
        let payload = self.bytes(size)?;
        let checksum = self.u32()?;
        let (fields, _) = whole.split_at(FRAME_HEAD_BYTES + size);
        if checksum == crc_32(fields) {
            Some(Frame {
                kind,
                moment,
                payload,
            })
        } else {
            None
        }
    }
}
