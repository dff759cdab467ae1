//! Codes, as C reads them: 0 is done, 1 to 6 are the agent's faults, from 16 on the refusals of this interface.

ghost use Rattle.std.specs.Prelude.{◌≡◌};
ghost use Rattle.srm_ffi.specs.Codes.{cause_of, code_of, decode_fault_of, decode_number, fault_number, kind_number, or_never, refusal_kind, seal_fault_number, state_number};

use srm_agent::{AgentFault, AgentState, Cause, Outcome};
use srm_codec::DecodeFault;
use srm_join::{Refusal, SealFault};
use srm_room::Fault;

/// The call is done.
pub const DONE: u32 = 0;

/// A moment is past 2^48. (`capi/srm.c` returns 16, for a pointer that is NULL.)
pub const MOMENT: u32 = 17;

/// A slot is past 7.
pub const SLOT: u32 = 18;

/// A setting is out of its range, or the member isn't in the roster.
pub const CONFIG: u32 = 19;

/// The buffer is too short.
pub const BUFFER: u32 = 20;

/// The handle holds no agent.
pub const EMPTY: u32 = 21;

/// The page's creator is past 31, or the member has no page left to begin.
pub const PAGE: u32 = 22;

/// There is nothing (more) to be taken.
pub const NOTHING: u32 = 23;

/// The handle holds an agent already.
pub const FULL: u32 = 24;

/// A member is past 31, or not in the room. (`capi/srm.c` returns 25, for a length past PTRDIFF_MAX.)
pub const MEMBER: u32 = 26;

/// A text is no room.
pub const FAULT: u32 = 27;

/// A key has fewer than 16 bytes, or more than 1,024.
pub const KEY: u32 = 28;

/// Nobody with the key sealed the bytes for this member.
pub const UNTAGGED: u32 = 29;

/// Nobody did, and they have the tag of an older version by this key.
pub const OLDER: u32 = 30;

/// The bytes came before, or lie behind the window of their sender.
pub const AGAIN: u32 = 31;

/// All counters to the member were used.
pub const COUNTERS: u32 = 32;

/// Returns `DONE` if the agent did the call, else the number of its fault.
pub fn of_answer<A>(answer: &Result<A, AgentFault>) -> u32
    ensures { result ≡ code_of answer.now }
{
    match answer {
        Ok(_) => DONE,
        Err(fault) => of_fault(*fault),
    }
}

/// Returns the number of a fault, 1 to 6.
pub fn of_fault(fault: AgentFault) -> u32
    ensures { result ≡ fault_number fault }
{
    match fault {
        AgentFault::Leaving => 1,
        AgentFault::Gone => 2,
        AgentFault::PageLimit => 3,
        AgentFault::StreamFull => 4,
        AgentFault::BodyLong => 5,
        AgentFault::Memory => 6,
    }
}

/// Returns the number of a state, 1 to 3.
pub fn of_state(state: AgentState) -> u8
    ensures { result ≡ state_number state }
{
    match state {
        AgentState::Active => 1,
        AgentState::Leaving => 2,
        AgentState::Gone => 3,
    }
}

/// Returns a moment, or the greatest number if there is none.
pub fn or_never(moment: Option<u64>) -> u64
    ensures { result ≡ or_never moment }
{
    moment.unwrap_or(u64::MAX)
}

/// Returns why a datagram was ignored, 1 to 7; 0 if it was accepted.
pub fn cause_of(outcome: Outcome) -> u8
    ensures { result ≡ cause_of outcome }
{
    match outcome {
        Outcome::Taken => 0,
        Outcome::Ignored(cause) => cause.number(),
    }
}

/// Returns the number of what is wrong with bytes that are no datagram of the session, 1 to 12, else 0.
pub fn decode_fault_of(outcome: Outcome) -> u8
    ensures { result ≡ decode_fault_of outcome }
{
    match outcome {
        Outcome::Ignored(Cause::Decode(fault)) => of_decode_fault(fault),
        _ => 0,
    }
}

fn of_decode_fault(fault: DecodeFault) -> u8
    ensures { result ≡ decode_number fault }
{
    match fault {
        DecodeFault::Short => 1,
        DecodeFault::Magic => 2,
        DecodeFault::Version => 3,
        DecodeFault::Kind => 4,
        DecodeFault::Session => 5,
        DecodeFault::Member => 6,
        DecodeFault::Number => 7,
        DecodeFault::Length => 8,
        DecodeFault::Order => 9,
        DecodeFault::Flags => 10,
        DecodeFault::Source => 11,
        DecodeFault::Memory => 12,
    }
}

/// Returns the number of why there is no seal.
pub fn of_seal_fault(fault: SealFault) -> u32
    ensures { result ≡ seal_fault_number fault }
{
    match fault {
        SealFault::NoKey => KEY,
        SealFault::NoMember => MEMBER,
        SealFault::Memory => of_fault(AgentFault::Memory),
    }
}

/// Returns the number of what is wrong with a text that is no room, 1 to 12; `None` if memory ran out.
pub fn refusal_kind(refusal: &Refusal) -> Option<u8>
    ensures { result ≡ refusal_kind refusal.now }
{
    match refusal {
        Refusal::NoText => Some(1),
        Refusal::NoRoom(error) => match error.fault() {
            Some(fault) => Some(kind_number(fault)),
            None => None,
        },
    }
}

fn kind_number(fault: Fault) -> u8
    ensures { result ≡ kind_number fault }
{
    match fault {
        Fault::NotToml => 2,
        Fault::Lacks(..) => 3,
        Fault::Wrong(..) => 4,
        Fault::KeyLength => 5,
        Fault::NoMember => 6,
        Fault::TooMany => 7,
        Fault::Name(_) => 8,
        Fault::Address(_) => 9,
        Fault::NameTwice(_) => 10,
        Fault::AddressTwice(_) => 11,
        Fault::Unknown(_) => 12,
    }
}
