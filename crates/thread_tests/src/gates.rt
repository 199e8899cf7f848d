// What the gates of tests share: the number of a worker, and looking for what another thread does.
use std::sync::atomic::{AtomicBool, Ordering};
use std::thread::yield_now;

/// The number of worker 0 at a gate.
pub(crate) const FIRST_WORKER: u32 = 16;

/// How often a thread looks for another one.
pub(crate) const LOOKS: u32 = 1_000_000;

/// Looks for a flag, for a while.
pub(crate) fn sees(flag: &AtomicBool) -> bool {
    for _ in 0..LOOKS {
        if flag.load(Ordering::SeqCst) {
            return true;
        }
        yield_now();
    }
    false
}
