// Frames that are still held at the end of the rounds.
ghost use Rattle.std.specs.Prelude.{◌≡◌, map};
ghost use Rattle.sg_overflow.specs.Buffered.{buffered_of};

use sg_device::{Disk, Outlet};
use sg_overflow::Buffered;

/// How many times in a row nothing may be sent on of all that is held.
const PATIENCE: u64 = 64;

// How many frames are held, 2^64 - 1 where there are more.
fn held_by<O: Outlet, D: Disk>(outlets: &[Buffered<O, D>]) -> u64 {
    let mut sum: u64 = 0;
    for d in 0..outlets.len() {
        sum = sum.saturating_add(outlets[d].held().unwrap_or(0));
    }
    sum
}

// Sends on what outlets hold, as far as that goes now.
fn flush_all<O: Outlet, D: Disk>(outlets: &mut Vec<Buffered<O, D>>)
    ensures { map (buffered_of O.state D.state) outlets.new.items
        ≡ map (buffered_of O.state D.state) outlets.old.items }
{
    for d in 0..outlets.len() {
        outlets[d].flush();
    }
}

/// Sends on what outlets hold while they take any. One that waits, as for a connection, is asked again: each
/// such call waits a little where nothing else is to be done.
pub(crate) fn send_held<O: Outlet, D: Disk>(outlets: &mut Vec<Buffered<O, D>>)
    ensures { map (buffered_of O.state D.state) outlets.new.items
        ≡ map (buffered_of O.state D.state) outlets.old.items }
{
    let mut held = held_by(outlets);
    let mut idle: u64 = 0;
    'flushes: while held > 0 && idle < PATIENCE {
        flush_all(outlets);
        let left = held_by(outlets);
        idle = if left < held { 0 } else { idle + 1 };
        held = held.min(left);
    }
}
