// Where the first item of the bytes kept ends.
ghost use Rattle.std.specs.Prelude.{◌≡◌, ◌<◌};
ghost use Rattle.sg_frame.specs.Items.{trimmed};
ghost use Rattle.sg_frame.specs.Scans.{Sees, ReadsCount};
ghost use Rattle.sg_frame.specs.Kept.{IsScanned};
ghost use Rattle.sg_frame.specs.declared.kind.FrameKind.TheVariants.{Lines, Counted};

use crate::FrameKind;
use memchr::memchr;

/// Where an item stands in the bytes kept.
#[derive(Clone, Copy, Drop)]
pub struct ItemSpan {
    /// Its text begins here.
    pub from: usize,
    /// The place behind its text.
    pub to: usize,
    /// So many bytes are taken with it.
    pub taken: usize,
    /// The byte that made it whole.
    pub last: usize,
}

/// What stands at the front of the bytes kept.
#[derive(Clone, Copy, Drop)]
pub enum Seen {
    Whole(ItemSpan),
    /// No item is whole, and so many bytes have no line feed.
    Open(usize),
    /// The byte there can't stand in a count or behind it.
    Bad(usize),
}

/// What stands at the front of counted bytes, before an item's text.
#[derive(Clone, Copy, Drop)]
enum Count {
    /// The text's length, and where it begins.
    Read(usize, usize),
    Open,
    Bad(usize),
}

/// A line without the CR and NUL bytes at its end.
fn trim(line: &[u8]) -> &[u8]
    ensures { result.now ≡ trimmed line.now }
{
    let mut text = line;
    while let [front @ .., last] = text {
        if *last != b'\r' && *last != 0 {
            return text;
        }
        text = front;
    }
    text
}

/// The first line, or its first bytes where it is longer than the limit. The first `scanned` bytes
/// have no line feed.
fn find_line(bytes: &[u8], limit: u32, scanned: usize) -> Seen
    requires some { 0 < limit }
    requires scanned { IsScanned limit bytes.now scanned }
    ensures { Sees Lines limit bytes.now result }
{
    let limit = limit as usize;
    let window = &bytes[scanned..bytes.len().min(limit + 1)];
    if let Some(ahead) = memchr(b'\n', window) {
        let end = scanned + ahead;
        return Seen::Whole(ItemSpan {
            from: 0,
            to: trim(&bytes[..end]).len(),
            taken: end + 1,
            last: end,
        });
    }
    if bytes.len() <= limit {
        return Seen::Open(bytes.len());
    }
    Seen::Whole(ItemSpan {
        from: 0,
        to: trim(&bytes[..limit]).len(),
        taken: limit,
        last: limit,
    })
}

/// Reads a count and the space behind it.
fn read_count(bytes: &[u8], limit: u32) -> Count
    ensures { ReadsCount limit bytes.now result }
{
    let limit = limit as usize;
    let mut value = 0;
    for (i, byte) in bytes.iter().enumerate() {
        match byte {
            b'0'..=b'9' => {
                value = value * 10 + (*byte - b'0') as usize;
                if value == 0 || value > limit {
                    return Count::Bad(i);
                }
            }
            b' ' if value > 0 => return Count::Read(value, i + 1),
            _ => return Count::Bad(i),
        }
    }
    Count::Open
}

/// The first counted item.
fn find_counted(bytes: &[u8], limit: u32) -> Seen
    ensures { Sees Counted limit bytes.now result }
{
    match read_count(bytes, limit) {
        Count::Open => Seen::Open(0),
        Count::Bad(place) => Seen::Bad(place),
        Count::Read(count, from) => {
            if bytes.len() - from < count {
                return Seen::Open(0);
            }
            let to = from + count;
            Seen::Whole(ItemSpan {
                from,
                to,
                taken: to,
                last: to - 1,
            })
        }
    }
}

/// The first item. The first `scanned` bytes have no line feed.
pub fn find_item(kind: FrameKind, bytes: &[u8], limit: u32, scanned: usize) -> Seen
    requires some { 0 < limit }
    requires scanned { IsScanned limit bytes.now scanned }
    ensures { Sees kind limit bytes.now result }
{
    match kind {
        FrameKind::Lines => find_line(bytes, limit, scanned),
        FrameKind::Counted => find_counted(bytes, limit),
    }
}
