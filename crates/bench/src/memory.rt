//! How much memory the program has at its most, where the system tells it.

use std::alloc::AllocGlobal;
use std::fs;
use std::rt::Files;

/// Where Linux is told to forget how much memory the program had at its most.
const FORGET: &str = "/proc/self/clear_refs";

/// Where Linux tells how much memory the program has.
const STATUS: &str = "/proc/self/status";

/// Has the system forget how much memory the program had at its most, if it does that.
pub(crate) fn forget_peak<F: Files>(files: &F) {
    let _ = fs::write(files, FORGET, "5");
}

/// The number of KiB in the line on the most memory, if there is one.
fn kib_in(status: &str) -> Option<u64> {
    for line in status.lines() {
        if let Some(rest) = line.strip_prefix("VmHWM:") {
            return rest.split_whitespace().next()?.parse().ok();
        }
    }
    None
}

/// How many KiB of memory the program had at its most, if the system tells it.
pub(crate) fn peak<F: Files + AllocGlobal>(files: &F) -> Option<u64> {
    kib_in(&fs::read_to_string(files, STATUS).ok()?)
}
