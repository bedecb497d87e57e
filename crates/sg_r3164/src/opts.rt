// What a source says of its records.
ghost use Rattle.std.specs.Prelude.{◌≡◌, ◌≤◌, ◌≤ℤ◌, ℤ, pos, negsuc, IfOk};

use bytes::Bytes;
use sg_time::Stamp;
use std::alloc::AllocError;

/// What a source says of its records.
#[derive(Clone, Copy, PartialEq, Eq, Drop)]
pub struct ReadOpts {
    /// The PRI of a record that has none, 0 to 191: the facility times 8, plus the severity.
    pub pri: u8,
    /// The offset of received stamps, in minutes east of UTC: -1439 to 1439.
    pub zone: i16,
    /// Whether HOST is the host that a record names, where it names one. Else it is the peer.
    pub keep_hostname: bool,
    /// Whether a message's stamp is the one that its record has, where it has one. Else it is the
    /// received one.
    pub keep_timestamp: bool,
    /// Whether a record is parsed. Else all of it is MESSAGE.
    pub parse: bool,
    pub ghost pri_in_range: { pri ≤ 191 },
    pub ghost zone_from: { negsuc 1438 ≤ℤ zone },
    pub ghost zone_to: { zone ≤ℤ pos 1439 },
}

impl ReadOpts {
    ghost use Rattle.std.specs.Option.{ForSome};
    ghost use Rattle.sg_time.specs.Stamp.{IsValidStamp};
    ghost use Rattle.sg_r3164.specs.Options.{received_at, sent_of, host_of};

    /// The received stamp of a record that was pulled at this moment: microseconds since
    /// 1970-01-01T00:00:00Z, 0 to 250,000,000,000,000,000.
    pub fn received(&self, at: i64) -> Stamp
        requires { (pos 0 ≤ℤ at) × (at ≤ℤ pos 250_000_000_000_000_000) }
        ensures value { result ≡ received_at at self.now }
        ensures valid { IsValidStamp result }
    {
        Stamp {
            at,
            offset: self.zone,
        }
    }

    /// The message's stamp, where the record has this one, or none.
    pub fn sent(&self, found: Option<Stamp>, received: Stamp) -> Stamp
        requires received { IsValidStamp received }
        requires found { ForSome found IsValidStamp }
        ensures value { result ≡ sent_of self.now found received }
        ensures valid { IsValidStamp result }
    {
        match found {
            Some(stamp) if self.keep_timestamp => stamp,
            _ => received,
        }
    }

    /// HOST, where the record names this host, or none, and came from this peer.
    pub fn host(&self, found: Option<Bytes>, peer: &Bytes) -> Result<Bytes, AllocError>
        ensures { IfOk result (λ host. host ≡ host_of self.now found peer.now) }
    {
        match found {
            Some(host) if self.keep_hostname => Ok(host),
            _ => peer.clone(),
        }
    }
}
