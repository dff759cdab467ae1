//! What a tick returns.

use srm_entries::AgentState;
use srm_names::{Items, Name};
use srm_outbox::Out;
use srm_timers::Arm;

/// What a tick requests, repairs and sends.
#[derive(Debug, Drop)]
pub struct Ticked {
    /// The names whose request timers expired, in order: the tick requests them.
    pub asks: Items<Name>,
    /// The names whose repair timers expired, in order: the tick repairs them.
    pub fixes: Items<Name>,
    /// The request timers that the tick set again, in order of name.
    pub arms: Items<Arm>,
    /// The datagrams for the caller to send to all other members, in this order. The rate may keep data, requests and repairs back for a
    /// later tick.
    pub outs: Items<Out>,
    /// Whether the member is active, leaving or gone after the tick.
    pub state: AgentState,
}
