// What one append has put into a file.
ghost use Rattle.std.specs.Prelude.{◌≡◌, ◌+◌, ◌≤◌, ◌<◌, ◌^◌};

/// The bytes that the writes of one append have put into a file, and the place behind them. They are one
/// piece where nobody else has appended between two of the writes.
#[derive(Clone, Copy, Drop)]
pub(crate) struct AppendedPiece {
    pub(crate) count: usize,
    /// The place behind the last write's bytes.
    pub(crate) end: u64,
    /// How many of the bytes stand in front of what another has appended between two of the writes.
    pub(crate) torn_at: Option<usize>,
    // Whether all bytes are one piece that ends there.
    single: bool,
    // Whether they are one write's, whose place wasn't asked for.
    unplaced: bool,
}

impl AppendedPiece {
    /// No bytes yet.
    pub(crate) fn new() -> AppendedPiece
        ensures { result.count ≡ 0 }
    {
        AppendedPiece {
            count: 0,
            end: 0,
            torn_at: None,
            single: true,
            unplaced: false,
        }
    }

    /// A write has put so many bytes more there, and stands behind them at this place, where the system
    /// tells one.
    pub(crate) fn add(&mut self, count: usize, place: Option<u64>)
        requires { self.old.count + count < 2 ^ 64 }
        ensures { self.new.count ≡ self.old.count + count }
    {
        match place {
            Some(place) if count as u64 <= place => {
                let goes_on = self.count == 0 || self.end == place - count as u64;
                if self.single && !goes_on {
                    self.torn_at = Some(self.count);
                }
                self.single = self.single && goes_on;
                self.unplaced = false;
                self.end = place;
            }
            _ => {
                self.unplaced = self.count == 0;
                self.single = false;
            }
        }
        self.count += count;
    }

    /// Whether all bytes are one write's, whose place wasn't asked for.
    pub(crate) fn is_unplaced(&self) -> bool {
        self.unplaced
    }

    /// The only write's bytes end at this place.
    pub(crate) fn ends_at(&mut self, place: u64)
        ensures { self.new.count ≡ self.old.count }
    {
        self.single = true;
        self.unplaced = false;
        self.end = place;
    }

    /// The place behind the first `keep` bytes, where all are one piece.
    pub(crate) fn end_of(&self, keep: usize) -> Option<u64> {
        if !self.single || keep > self.count || self.count == 0 {
            return None;
        }
        self.end.checked_sub((self.count - keep) as u64)
    }
}
