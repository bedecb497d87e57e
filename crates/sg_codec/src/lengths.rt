// How many bytes an entry has in format 2.
ghost use Rattle.std.specs.Prelude.{◌≡◌, ◌^◌, min};
ghost use Rattle.sg_msg.specs.Length.{encoded_len};

use crate::Kept;
use sg_msg::less_entry;

// The greatest length that is told.
const LIMIT: u64 = 1 << 62;

/// The length of the entry in format 2, in bytes: 43, for each tag 4 and its bytes, and for each pair 8
/// and the bytes of its name and value. 2^62 where that is greater.
pub fn encoded_len(kept: &Kept) -> u64
    ensures { result ≡ min (encoded_len kept.now.message) (2 ^ 62) }
{
    match less_entry(LIMIT, &kept.message) {
        Some(left) => LIMIT - left,
        None => LIMIT,
    }
}
