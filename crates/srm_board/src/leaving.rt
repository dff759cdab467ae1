//! The thread that lets the member leave.

use crate::inkwell::Inkwell;
use srm_live::Staying;
use srm_slate::Slate;
use std::alloc::Global;
use std::io::{ErrorKind, Read};
use std::sync::{Arc, Wait};
use std::thread;
use std::thread::{JoinHandle, Threads};
use std::time::{Clock, Duration};

/// How long it waits for the page, in milliseconds, before it looks whether the member's run has ended.
const LOOK: u64 = 250;

/// And before it reads an input again that has nothing yet. An input that waits itself makes that longer.
const READ_AGAIN: u64 = 20;

/// Starts the thread that waits until the page, or the end of the input, asks the member to leave; stays while others need what it holds; and then ends the producer.
/// It ends with the member's run too. Returns `None` if out of memory, or if no thread can be started.
pub fn start_leaving<R, I>(
    rt: &R,
    inkwell: &Arc<Inkwell, Global>,
    slate: &Arc<Slate, Global>,
    staying: Staying,
    input: Option<I>,
) -> Option<JoinHandle<()>>
where
    R: Clock + Threads + Wait + Copy + Send + Drop + 'static,
    I: Read + Send + Drop + 'static,
{
    let own = *rt;
    let inkwell = Arc::try_clone(inkwell).ok()?;
    let slate = Arc::try_clone(slate).ok()?;
    thread::spawn(rt, move || {
        wait_for_leave(&own, &inkwell, &slate, input);
        staying.remain(&own, slate.ended());
        inkwell.put_away(&own);
    })
    .ok()
}

// Waits until the page, or the end of the input, asks the member to leave, or its run has ended.
fn wait_for_leave<R: Clock + Wait, I: Read + Drop>(
    rt: &R,
    inkwell: &Inkwell,
    slate: &Slate,
    input: Option<I>,
) {
    let mut input = input;
    for _ in rt.forever() {
        if has_ended(&mut input) {
            inkwell.ask_leave(rt);
        }
        let wait = if input.is_some() { READ_AGAIN } else { LOOK };
        if inkwell.is_asked_within(rt, Duration::from_millis(wait)) || slate.has_ended() {
            return;
        }
    }
    unreachable!()
}

// Whether the input has ended. What is typed is dropped. An input that fails isn't read again.
fn has_ended<I: Read + Drop>(input: &mut Option<I>) -> bool {
    let mut buffer = [0_u8; 256];
    let Some(reader) = input else {
        return false;
    };
    match reader.read(&mut buffer) {
        Ok(count) => count == 0,
        Err(error) => {
            if !matches!(error.kind(), ErrorKind::WouldBlock | ErrorKind::Interrupted) {
                *input = None;
            }
            false
        }
    }
}
