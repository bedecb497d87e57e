// How a template's macros are shown.
ghost use Rattle.std.specs.Prelude.{◌≡◌, ◌≤◌, ◌≤ℤ◌, pos, negsuc};
ghost use Rattle.std.specs.Option.{ForSome};
ghost use Rattle.sg_time.specs.Stamp.{IsValidStamp};
ghost use Rattle.sg_template.specs.Zone.{shown_stamp, moved_stamp};

use sg_device::Name;
use sg_time::Stamp;

/// How a template's macros are shown.
#[derive(Drop)]
pub struct Env {
    /// The offset of stamps in minutes east of UTC, -1439 to 1439; where there is none, each stamp
    /// has its own.
    pub zone: Option<i16>,
    /// How many digits of a second's fraction, 0 to 6.
    pub digits: u8,
    /// Whether STAMP is the ISO date. Else it is the BSD date.
    pub iso: bool,
    /// What `$_` stands for: the value that a field had.
    pub old: Option<Name>,
    pub ghost at_most_six: { digits ≤ 6 },
    pub ghost zone_in_range: { ForSome zone (λ offset. (negsuc 1438 ≤ℤ offset)
        × (offset ≤ℤ pos 1439)) },
}

impl Env {
    /// The stamp as it is shown: in the zone, or at its own offset where it isn't valid there.
    #[tactic(auto, unfolding(crate::specs::Zone::shown_stamp))]
    pub fn shown(&self, stamp: Stamp) -> Stamp
        requires { IsValidStamp stamp }
        ensures value { result ≡ shown_stamp self.now.zone stamp }
        ensures valid { IsValidStamp result }
    {
        match self.zone {
            None => stamp,
            Some(offset) => moved(stamp, offset),
        }
    }
}

// The stamp at that offset, or at its own where it isn't valid there.
fn moved(stamp: Stamp, offset: i16) -> Stamp
    requires stamp { IsValidStamp stamp }
    requires east { negsuc 1438 ≤ℤ offset }
    requires west { offset ≤ℤ pos 1439 }
    ensures value { result ≡ moved_stamp stamp offset }
    ensures valid { IsValidStamp result }
{
    let shifted = Stamp {
        at: stamp.at,
        offset,
    };
    if shifted.is_valid() { shifted } else { stamp }
}
