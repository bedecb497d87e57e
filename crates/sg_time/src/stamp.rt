// A moment with an offset.
ghost use Rattle.std.specs.Prelude.{◌↔◌, IsTrue};

/// A moment, and the offset from UTC at which it is written.
///
/// It is valid where the offset is -1439 to 1439 and its local year is 0000 to 9999.
#[derive(Clone, Copy, Debug, PartialEq, Eq, Drop)]
pub struct Stamp {
    /// Microseconds since 1970-01-01T00:00:00Z.
    pub at: i64,
    /// Minutes east of UTC.
    pub offset: i16,
}

// 0000-01-01T00:00:00 and 9999-12-31T23:59:59.999999, in microseconds since 1970-01-01T00:00:00.
const FIRST: i64 = -62_167_219_200_000_000;

const LAST: i64 = 253_402_300_799_999_999;

impl Stamp {
    ghost use Rattle.sg_time.specs.Stamp.{IsValidStamp};

    /// Whether the offset and the local year are in their ranges.
    pub fn is_valid(&self) -> bool
        ensures { IsTrue result ↔ IsValidStamp self.now }
    {
        if self.offset < -1439 || self.offset > 1439 {
            return false;
        }
        let Some(local) = self.at.checked_add(self.offset as i64 * 60_000_000) else {
            return false;
        };
        if local < FIRST || local > LAST {
            return false;
        }
        true
    }
}
