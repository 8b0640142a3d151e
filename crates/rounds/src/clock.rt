//! How long something takes.

use std::io;
use std::time::Instant;

/// Returns how many microseconds have gone by, as far as the clock tells.
pub fn micros_since(rt: &HostRuntime, begun: &io::Result<Instant>) -> u64 {
    let Ok(begun) = begun else {
        return 0;
    };
    match begun.elapsed(rt) {
        Ok(time) => u64::try_from(time.as_micros()).unwrap_or(u64::MAX),
        Err(_) => 0,
    }
}
