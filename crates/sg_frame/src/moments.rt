// The moments of the bytes that a framer keeps, as runs of bytes that came together.
ghost use Rattle.std.specs.Prelude.{◌≡◌, ◌<◌, ◌≤◌, ◌+◌, ◌∷◌, ℕ, ℤ, List};
ghost use Rattle.sg_frame.specs.Kept.{moments, runs_end};

use std::collections::VecDeque;

/// Bytes that came at one moment: those up to a place.
#[derive(Clone, Copy, Drop)]
pub struct TimedRun {
    /// The place behind the last of them.
    pub end: u64,
    /// Microseconds since 1970-01-01T00:00:00Z.
    pub at: i64,
}

/// The moment of the byte at a place. The runs that end there or before are let go.
pub fn moment_at(runs: &mut VecDeque<TimedRun>, place: u64) -> i64
    requires { place < runs_end place runs.old.items }
    ensures moment { (rest : List ℤ) × (moments place runs.old.items ≡ result ∷ rest) }
    ensures moments { (from : ℕ) → place ≤ from
        → moments from runs.new.items ≡ moments from runs.old.items }
    ensures end { (from : ℕ) → place ≤ from
        → runs_end from runs.new.items ≡ runs_end from runs.old.items }
{
    while let Some(&TimedRun { end, at }) = runs.front() {
        if place < end {
            return at;
        }
        runs.pop_front();
    }
    unreachable!()
}
