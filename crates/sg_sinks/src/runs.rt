// The first entries on a disk.
ghost use Rattle.std.specs.Prelude.{◌≡◌, ◌≤◌, ◌<◌, ◌+◌, ◌-◌, length, drop, slice_get};
ghost use Rattle.sg_sinks.specs.Runs.{run_from, run_of};

use crate::Sink;
use std::collections::VecDeque;

// So many bytes of entries behind the first are shown at a time.
const ROOM: u64 = 1_048_576;

fn length_at(lengths: &VecDeque<u64>, k: usize) -> Option<u64>
    ensures { result ≡ slice_get lengths.now.items k }
{
    lengths.get(k).copied()
}

// How many behind the first, at most so many.
fn run_behind(lengths: &VecDeque<u64>, most: usize) -> usize
    ensures value { result ≡ run_from most 1048576 (drop 1 lengths.now.items) }
    ensures few { result ≤ most }
    ensures within { result ≤ length lengths.now.items - 1 }
{
    let mut room = ROOM;
    let mut n = 0;
    while n < most {
        let Some(length) = length_at(lengths, n + 1) else {
            break;
        };
        if length > room {
            break;
        }
        room -= length;
        n += 1;
    }
    n
}

impl Sink {
    /// How many of the first entries on its disk are shown at a time: at most so many, of which all but
    /// the first take at most 1,048,576 bytes.
    pub fn run(&self, most: u32) -> usize
        requires { 0 < most }
        ensures value { result ≡ run_of most self.now.seen.lengths }
        ensures within { result ≤ length self.now.seen.lengths }
    {
        if self.lengths.is_empty() {
            return 0;
        }
        run_behind(&self.lengths, most as usize - 1) + 1
    }

    /// How many entries are left.
    pub fn left(&self) -> u64
        ensures { result ≡ length self.now.seen.lengths + length self.now.seen.entries }
    {
        self.lengths.len() as u64 + self.queue.len() as u64
    }
}
