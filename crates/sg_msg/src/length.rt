// How many bytes the entry of a message has in a disk-buffer. Lengths are taken off the room that is
// left, so that no sum of them passes the end of a number.
ghost use Rattle.std.specs.Prelude.{◌≡◌, ◌<◌, ◌+◌, MatchOption, length};
ghost use Rattle.sg_msg.specs.Length.{tag_lengths, pair_lengths, encoded_len};

use crate::Message;

fn less_text(room: u64, header: u64, text: &[u8]) -> Option<u64>
    ensures { MatchOption result (room < header + length text.now)
        (λ left. left + header + length text.now ≡ room) }
{
    room.checked_sub(header)?.checked_sub(text.len() as u64)
}

fn less_tags(room: u64, message: &Message) -> Option<u64>
    ensures { MatchOption result (room < tag_lengths message.now.tags)
        (λ left. left + tag_lengths message.now.tags ≡ room) }
{
    let mut left = room;
    let mut place = 0;
    while let Some(tag) = message.tag(place) {
        left = less_text(left, 4, tag)?;
        place += 1;
    }
    Some(left)
}

fn less_pairs(room: u64, message: &Message) -> Option<u64>
    ensures { MatchOption result (room < pair_lengths message.now.pairs)
        (λ left. left + pair_lengths message.now.pairs ≡ room) }
{
    let mut left = room;
    let mut place = 0;
    while let Some((name, value)) = message.pair(place) {
        left = less_text(left, 8, name)?;
        left = less_text(left, 0, value)?;
        place += 1;
    }
    Some(left)
}

/// What is left of this many bytes behind the message's entry in a disk-buffer of format 2: None where
/// it is longer.
pub fn less_entry(room: u64, message: &Message) -> Option<u64>
    ensures { MatchOption result (room < encoded_len message.now)
        (λ left. left + encoded_len message.now ≡ room) }
{
    less_pairs(less_tags(room.checked_sub(43)?, message)?, message)
}
