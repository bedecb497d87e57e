// The place at which a file is read.
ghost use Rattle.std.specs.Prelude.{◌≡◌, ◌≤◌, ◌==◌, not, length};
ghost use Rattle.std.specs.List.{list_all};
ghost use Rattle.sg_outside.specs.World.{is_record_end as is_end, place_in};

/// Whether a record of these bytes may end before this place: at the beginning, behind an LF, and
/// behind `limit` bytes that hold no LF.
pub fn is_record_end(limit: u32, bytes: &[u8], place: usize) -> bool
    requires { place ≤ length bytes.now }
    ensures { result ≡ is_end limit bytes.now place }
{
    if place == 0 {
        return true;
    }
    if bytes[place - 1] == b'\n' {
        return true;
    }
    let limit = limit as usize;
    if limit > place {
        return false;
    }
    has_no_line_end(&bytes[place - limit..place])
}

/// The place at which a file of these bytes is read, for the place that was asked for: its beginning
/// where no record can have ended there.
pub fn place_at(limit: u32, bytes: &[u8], from: u64) -> usize
    ensures within { result ≤ length bytes.now }
    ensures place { result ≡ place_in limit bytes.now from }
{
    if from <= bytes.len() as u64 && from < 1 << 63 {
        let place = from as usize;
        if is_record_end(limit, bytes, place) {
            return place;
        }
    }
    0
}

fn has_no_line_end(bytes: &[u8]) -> bool
    ensures { result ≡ list_all (λ byte. not (byte == 10)) bytes.now }
{
    for byte in bytes {
        if *byte == b'\n' {
            return false;
        }
    }
    true
}
