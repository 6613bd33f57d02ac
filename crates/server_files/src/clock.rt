//! Moments by the computer's clock.
use std::rt::Clock;
use std::time::Duration;

/// Returns the moment, in milliseconds since an arbitrary start, and 0 where the clock fails.
pub(crate) fn moment<R: Clock>(rt: &R) -> u64 {
    let since = rt.monotonic().unwrap_or(Duration::ZERO);
    u64::try_from(since.as_millis()).unwrap_or(u64::MAX)
}

/// Returns the time in seconds since 1970, where the clock doesn't fail.
pub(crate) fn seconds<R: Clock>(rt: &R) -> Option<u64> {
    match rt.since_1970() {
        Ok(since) => Some(since.as_secs()),
        Err(_) => None,
    }
}
