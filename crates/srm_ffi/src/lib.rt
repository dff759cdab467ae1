//! What C calls of an agent, a room and a guard: `capi/srm.c` gives each call its public name of `capi/srm.h`, and tests pointers for null.
//!
//! Each export takes a [`Handle`](srm_seat::Handle), a [`RoomHandle`](srm_join::RoomHandle) or a [`SealHandle`](srm_join::SealHandle), which is zeroes at first, and holds an agent, a room or a
//! seal, or is empty. It keeps no pointer that it was passed. Moments are microseconds, at most 2^48. `alloc` takes no bytes, and C doesn't pass it.
//!
//! **Codes.** Most exports return a code: `DONE`, the number of the agent's fault, or a refusal of this interface. They test moments first,
//! then slots, pages, members, settings and buffers, and then whether the handle is full. After any code but `DONE` the handle, and
//! what the call would have written, are as they were, unless the call says otherwise.
#![tactic(auto)]

mod codes;
mod drawing;
mod giving;
mod guards;
mod hearing;
mod missing;
mod opening;
mod rooms;
mod shapes;
mod telling;
mod ticking;
