//! The computer's clock.
use std::rt::Clock;
use std::time::Duration;

/// Returns the moment in milliseconds since an arbitrary start, or 0 where the clock fails.
pub(crate) fn moment<R: Clock>(rt: &R) -> u64 {
    let since = rt.monotonic().unwrap_or(Duration::ZERO);
    u64::try_from(since.as_millis()).unwrap_or(u64::MAX)
}
