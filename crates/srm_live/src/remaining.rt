//! Waiting that ends with the node.

use std::sync::Wait;
use std::sync::atomic::{AtomicBool, Ordering};
use std::thread;
use std::time::{Clock, Duration, Instant};

/// The longest sleep, in microseconds: so late it may be seen that the node has ended.
const NAP: u64 = 250_000;

/// Lets so much time pass, or less where the node has ended or the clock can't be read. Whether it passed.
pub fn remain<R: Clock + Wait>(rt: &R, time: Duration, ended: &AtomicBool) -> bool {
    let Ok(start) = Instant::now(rt) else {
        return false;
    };
    for _ in rt.forever() {
        let Ok(passed) = start.elapsed(rt) else {
            return false;
        };
        let left = time.saturating_sub(passed);
        if left.is_zero() {
            return true;
        }
        if ended.load(Ordering::SeqCst) {
            return false;
        }
        thread::sleep(rt, left.min(Duration::from_micros(NAP)));
    }
    unreachable!()
}
