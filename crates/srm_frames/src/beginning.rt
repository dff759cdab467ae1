//! What stands before the first frame.

ghost use Rattle.std.specs.Prelude.{◌≡◌, ◌++◌, OnOk, IfOk};
ghost use Rattle.srm_frames.specs.Beginnings.{identity_fields, limit_fields, wait_fields, origin_fields, beginning_fields, beginning_text};
ghost use Rattle.std.specs.Int.{w8, w32};
ghost use Rattle.srm_codec.specs.Spelling.{AreBytes};
ghost use Rattle.srm_entries.specs.Configs.{config_with};
ghost use Rattle.srm_frames.specs.Frames.{sealed};
ghost use Rattle.srm_frames.specs.Readings.{IsFoundBy, identity_at, limits_at, pair_at, waits_at, config_at, origin_at};
ghost use Rattle.srm_frames.specs.Begun.{IsThere, IsVersioned, IsConfigAt, AreFieldsAt, IsChecked, IsBegun};

use crate::checksum::crc_32;
use crate::fault::RecordFault;
use crate::format::{BEGINNING_BYTES, MAGIC, VERSION};
use crate::frame::seal;
use crate::reader::Reader;
use srm_entries::{Config, Settings};
use srm_names::Member;
use std::alloc::{AllocError, Global};

/// How a member began.
#[derive(Clone, Copy, Debug)]
pub struct Beginning {
    /// Its settings.
    pub config: Config,
    /// The moment when it was made, in microseconds of its clock, at most 2^48.
    pub made: u64,
    /// The seed of its random numbers.
    pub seed: u64,
    /// The time of day then, in microseconds since 1970. It orders what is shown of a session; no verdict uses it.
    pub wall: u64,
}

/// Returns the 55 bytes that a record begins with. A member that was made past 2^48 gets bytes that [`read_record`](crate::read_record) refuses. Fails only if out
/// of memory.
pub fn beginning_bytes(alloc: Global, beginning: &Beginning) -> Result<Vec<u8>, AllocError>
    ensures { IfOk result (λ bytes. bytes.items ≡ beginning_text beginning.now) }
{
    let mut out = Vec::with_capacity(alloc, BEGINNING_BYTES)?;
    put_fields(&mut out, beginning)?;
    seal(&mut out, 0)?;
    Ok(out)
}

#[tactic(auto, unfolding(crate::specs::Beginnings::beginning_fields))]
fn put_fields(out: &mut Vec<u8>, beginning: &Beginning) -> Result<(), AllocError>
    ensures { OnOk result (out.new.items ≡ out.old.items ++ beginning_fields beginning.now) }
{
    let config = beginning.config;
    let least_distance = config.least_distance() as u32;
    put_identity(
        out,
        config.me().number(),
        config.members(),
        config.session(),
    )?;
    put_limits(out, config.rate(), config.depth(), least_distance)?;
    put_waits(out, config.c1(), config.c2(), config.d1(), config.d2())?;
    put_origin(out, beginning.seed, beginning.made, beginning.wall)?;
    Ok(())
}

fn put_identity(out: &mut Vec<u8>, me: u8, members: u8, session: u32) -> Result<(), AllocError>
    ensures { OnOk result (out.new.items ≡ out.old.items ++ identity_fields me members session) }
{
    out.extend_from_slice(&MAGIC.to_be_bytes())?;
    out.push(VERSION)?;
    out.push(me)?;
    out.push(members)?;
    out.extend_from_slice(&session.to_be_bytes())?;
    Ok(())
}

fn put_limits(
    out: &mut Vec<u8>,
    rate: u32,
    depth: u32,
    least_distance: u32,
) -> Result<(), AllocError>
    ensures { OnOk result (out.new.items ≡ out.old.items ++ limit_fields rate depth least_distance) }
{
    out.extend_from_slice(&rate.to_be_bytes())?;
    out.extend_from_slice(&depth.to_be_bytes())?;
    out.extend_from_slice(&least_distance.to_be_bytes())?;
    Ok(())
}

fn put_waits(out: &mut Vec<u8>, c1: u8, c2: u8, d1: u8, d2: u8) -> Result<(), AllocError>
    ensures { OnOk result (out.new.items ≡ out.old.items ++ wait_fields c1 c2 d1 d2) }
{
    out.push(c1)?;
    out.push(c2)?;
    out.push(d1)?;
    out.push(d2)?;
    Ok(())
}

fn put_origin(out: &mut Vec<u8>, seed: u64, made: u64, wall: u64) -> Result<(), AllocError>
    ensures { OnOk result (out.new.items ≡ out.old.items ++ origin_fields seed made wall) }
{
    out.extend_from_slice(&seed.to_be_bytes())?;
    out.extend_from_slice(&made.to_be_bytes())?;
    out.extend_from_slice(&wall.to_be_bytes())?;
    Ok(())
}

/// Reads how the member began whose record the reader is at.
///
/// Fails with what isn't as in a beginning, in the order of the fields: the first bytes, the version, the settings, and last the checksum.
pub fn read_beginning(reader: &mut Reader<'_>) -> Result<Beginning, RecordFault>
    requires { AreBytes reader.old }
    ensures { IsBegun result reader.old reader.new }
{
    let whole = reader.rest();
    read_version(reader)?;
    let Some(beginning) = read_fields(reader) else {
        return Err(RecordFault::Settings);
    };
    if has_checksum(whole, reader) {
        Ok(beginning)
    } else {
        Err(RecordFault::Settings)
    }
}

fn read_version(reader: &mut Reader<'_>) -> Result<(), RecordFault>
    requires { AreBytes reader.old }
    ensures { IsVersioned result reader.old reader.new }
{
    if is_word(reader, MAGIC) {
        if is_byte(reader, VERSION) {
            Ok(())
        } else {
            Err(RecordFault::Version)
        }
    } else {
        Err(RecordFault::Magic)
    }
}

fn is_word(reader: &mut Reader<'_>, wanted: u32) -> bool
    ensures { IsThere w32 wanted result reader.old reader.new }
{
    reader.u32() == Some(wanted)
}

fn is_byte(reader: &mut Reader<'_>, wanted: u8) -> bool
    ensures { IsThere w8 wanted result reader.old reader.new }
{
    reader.u8() == Some(wanted)
}

// Whether the checksum that the reader is at is that of what stands before it.
fn has_checksum(whole: &[u8], reader: &mut Reader<'_>) -> bool
    ensures { IsChecked result whole.now reader.old reader.new }
{
    let read = whole.len().saturating_sub(reader.rest().len());
    let fields = whole.split_at(read).0;
    reader.u32() == Some(crc_32(fields))
}

#[tactic(auto, unfolding(crate::specs::Readings::fields_at))]
fn read_fields(reader: &mut Reader<'_>) -> Option<Beginning>
    ensures { AreFieldsAt result reader.old reader.new }
{
    let config = read_config(reader)?;
    let (seed, made, wall) = read_origin(reader)?;
    Some(Beginning {
        config,
        made,
        seed,
        wall,
    })
}

#[tactic(auto, unfolding(crate::specs::Readings::origin_at))]
fn read_origin(reader: &mut Reader<'_>) -> Option<(u64, u64, u64)>
    ensures { IsFoundBy (λ o. (o.0, o.1, o.2)) result reader.new (origin_at reader.old) }
{
    let seed = reader.u64()?;
    let made = reader.moment()?;
    let wall = reader.u64()?;
    Some((seed, made, wall))
}

fn read_config(reader: &mut Reader<'_>) -> Option<Config>
    ensures { IsConfigAt result reader.old reader.new }
{
    let given = read_given(reader)?;
    Config::with(given.me, given.members, given.session, given.settings)
}

// Settings as they stand there, which may be out of their ranges.
#[derive(Clone, Copy)]
struct Given {
    me: Member,
    members: u8,
    session: u32,
    settings: Settings,
}

#[tactic(auto, unfolding(crate::specs::Readings::config_at))]
fn read_given(reader: &mut Reader<'_>) -> Option<Given>
    ensures { IsFoundBy (λ g. config_with g.me g.members g.session g.settings) result reader.new (config_at reader.old) }
{
    let (me, members, session) = read_identity(reader)?;
    let (rate, depth, least_distance) = read_limits(reader)?;
    let ((c1, c2), (d1, d2)) = read_waits(reader)?;
    Some(Given {
        me,
        members,
        session,
        settings: Settings {
            rate,
            depth,
            c1,
            c2,
            d1,
            d2,
            least_distance: u64::from(least_distance),
        },
    })
}

#[tactic(auto, unfolding(crate::specs::Readings::identity_at))]
fn read_identity(reader: &mut Reader<'_>) -> Option<(Member, u8, u32)>
    ensures { IsFoundBy (λ i. (i.0, i.1, i.2)) result reader.new (identity_at reader.old) }
{
    let me = reader.member()?;
    let members = reader.u8()?;
    let session = reader.u32()?;
    Some((me, members, session))
}

#[tactic(auto, unfolding(crate::specs::Readings::limits_at))]
fn read_limits(reader: &mut Reader<'_>) -> Option<(u32, u32, u32)>
    ensures { IsFoundBy (λ l. (l.0, l.1, l.2)) result reader.new (limits_at reader.old) }
{
    let rate = reader.u32()?;
    let depth = reader.u32()?;
    let least_distance = reader.u32()?;
    Some((rate, depth, least_distance))
}

#[tactic(auto, unfolding(crate::specs::Readings::waits_at))]
fn read_waits(reader: &mut Reader<'_>) -> Option<((u8, u8), (u8, u8))>
    ensures { IsFoundBy (λ w. ((w.0.0, w.0.1), (w.1.0, w.1.1))) result reader.new (waits_at reader.old) }
{
    let requests = read_pair(reader)?;
    let repairs = read_pair(reader)?;
    Some((requests, repairs))
}

#[tactic(auto, unfolding(crate::specs::Readings::pair_at))]
fn read_pair(reader: &mut Reader<'_>) -> Option<(u8, u8)>
    ensures { IsFoundBy (λ p. (p.0, p.1)) result reader.new (pair_at reader.old) }
{
    let low = reader.u8()?;
    let spread = reader.u8()?;
    Some((low, spread))
}
