//! What tests see, and what they wait for.

use page_ledger::Counts;
use std::fmt::Debug;
use std::process::Abort;
use std::sync::atomic::{AtomicBool, Ordering};
use std::thread;
use std::time::{Clock, Duration};

/// How many milliseconds a thread has until it has come this far.
const PATIENCE: u32 = 10_000;

/// How many milliseconds threads have until they sleep. Where that is too short, nothing comes out differently.
const ASLEEP: u64 = 50;

/// How many pages are free and belong to queues. None belongs to a command.
pub(crate) fn counts(free_pages: u32, queue_pages: u32) -> Counts {
    Counts {
        free_pages,
        queue_pages,
        chain_pages: 0,
        data_pages: 0,
    }
}

/// Sees that an answer is the one that is wanted.
pub(crate) fn see<T: PartialEq + Debug, R: Abort>(rt: &R, answer: &T, want: &T) {
    assert!(rt; answer == want, "{answer:?} in place of {want:?}");
}

/// Sees that an answer is the one that is wanted where this growth is refused.
pub(crate) fn see_at<T: PartialEq + Debug, R: Abort>(rt: &R, growth: u64, answer: &T, want: &T) {
    assert!(rt;
        answer == want,
        "growth {growth}: {answer:?} in place of {want:?}"
    );
}

/// Waits until a thread has come this far. False where it does not.
pub(crate) fn comes<R: Clock>(rt: &R, so_far: &AtomicBool) -> bool {
    for _ in 0..PATIENCE {
        if so_far.load(Ordering::SeqCst) {
            return true;
        }
        thread::sleep(rt, Duration::from_millis(1));
    }
    false
}

/// Gives other threads the time to fall asleep.
pub(crate) fn let_sleep<R: Clock>(rt: &R) {
    thread::sleep(rt, Duration::from_millis(ASLEEP));
}
