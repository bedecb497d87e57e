// The date and the time of day at a stamp's offset.
ghost use Rattle.std.specs.Prelude.{◌≡◌, ◌≤ℤ◌, pos, negsuc};
ghost use Rattle.jiff_core.specs.Calendar.{days_from_civil};
ghost use Rattle.jiff_core.specs.Date.{epoch_day};
ghost use Rattle.sg_time.specs.Stamp.{IsValidStamp};
ghost use Rattle.sg_time.specs.Local.{local_time, day_of, year_of, month_of, day_of_month, IsShown};

use crate::Stamp;
use jiff_core::civil::Date;

/// What a calendar and a clock show at a stamp's offset.
#[derive(Clone, Copy, PartialEq, Eq, Drop)]
pub struct LocalTime {
    /// 0 to 9999.
    pub year: u16,
    /// 1 to 12.
    pub month: u8,
    /// 1 to 31.
    pub day: u8,
    /// 0 to 23.
    pub hour: u8,
    /// 0 to 59.
    pub minute: u8,
    /// 0 to 59.
    pub second: u8,
    /// 0 to 999,999.
    pub microsecond: u32,
}

// A day in microseconds.
const DAY: i64 = 86_400_000_000;

// The days from -9999-01-01 to 1970-01-01.
const BEFORE_EPOCH: i64 = 4_371_587;

impl Stamp {
    /// The local date and time.
    pub fn local(self) -> LocalTime
        requires { IsValidStamp self }
        ensures value { result ≡ local_time self }
        ensures date { days_from_civil (pos result.year) result.month result.day ≡ day_of self }
        ensures shown { IsShown result }
    {
        let local = self.at + self.offset as i64 * 60_000_000;
        let date = date_on(local.div_euclid(DAY));
        let micros = local.rem_euclid(DAY) as u64;
        LocalTime {
            year: date.year as u16,
            month: date.month,
            day: date.day,
            hour: (micros / 3_600_000_000) as u8,
            minute: (micros / 60_000_000 % 60) as u8,
            second: (micros / 1_000_000 % 60) as u8,
            microsecond: (micros % 1_000_000) as u32,
        }
    }
}

// The date with this day number, from 0000-01-01 to 9999-12-31.
fn date_on(day: i64) -> Date
    requires from { negsuc 719527 ≤ℤ day }
    requires to { day ≤ℤ pos 2932896 }
    ensures day_number { epoch_day result ≡ day }
    ensures year { result.year ≡ pos (year_of day) }
    ensures month { result.month ≡ month_of day }
    ensures day { result.day ≡ day_of_month day }
{
    Date::from_days_since_min((day + BEFORE_EPOCH) as u32)
}
