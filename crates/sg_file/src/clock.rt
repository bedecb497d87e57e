// The moment at which bytes came.
ghost use Rattle.std.specs.Prelude.{◌≤ℤ◌, pos};

use sg_time::{Stamp, iso_text};
use std::alloc::{AllocError, Global};
use std::time::Clock;

const LATEST: u128 = 250_000_000_000_000_000;

/// The microseconds since 1970-01-01T00:00:00Z. They are 0 where the clock stands before that or tells
/// nothing, and 250,000,000,000,000,000 where it stands behind that.
pub fn moment(clock: &impl Clock) -> i64
    ensures low { pos 0 ≤ℤ result }
    ensures high { result ≤ℤ pos 250000000000000000 }
{
    let Ok(since) = clock.since_1970() else {
        return 0;
    };
    let micros = since.as_micros();
    if micros > LATEST {
        return LATEST as i64;
    }
    micros as i64
}

/// The present moment as text, to the second: `2026-11-27T10:53:51+00:00`.
pub(crate) fn moment_text(alloc: Global, clock: &impl Clock) -> Result<Vec<u8>, AllocError> {
    let mut text = Vec::new(alloc);
    let stamp = Stamp {
        at: moment(clock),
        offset: 0,
    };
    iso_text(stamp, 0, &mut text)?;
    Ok(text)
}
