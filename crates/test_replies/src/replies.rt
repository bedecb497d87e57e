// The replies of a core.
use crate::text::ReplyText;
use sg_counter::{CoreFront, Refill, Refused, Settled, Stored};
use sg_machine::Verdict;
use std::alloc::AllocError;

fn letter(verdict: Verdict) -> u8 {
    match verdict {
        Verdict::Queued => b'Q',
        Verdict::Spooled => b'S',
        Verdict::Waits => b'W',
        Verdict::DroppedFull => b'F',
        Verdict::DroppedDisk => b'D',
    }
}

/// A number, behind a blank where it isn't the first word.
pub fn put_number(out: &mut ReplyText, number: u64) {
    out.put_word(b"");
    out.put_number(number);
}

fn put_verdicts(out: &mut ReplyText, verdicts: &[Verdict]) {
    out.put_word(b"");
    if verdicts.is_empty() {
        out.push(b'.');
    }
    for verdict in verdicts {
        out.push(letter(*verdict));
    }
}

/// The verdicts `Q`, `S`, `W`, `F` and `D` of the offers, `.` where there is none, or for lack of credit `-` and
/// how many records came back.
pub fn put_admitted(out: &mut ReplyText, admitted: Result<Vec<Verdict>, Refused>) {
    match admitted {
        Ok(verdicts) => put_verdicts(out, &verdicts),
        Err(Refused::NoCredit(records)) => {
            out.put_word(b"-");
            out.put_number(records.len() as u64);
        }
        Err(Refused::NoMemory(_)) => out.put_word(b"memory"),
    }
}

/// The first entry's place and the number of entries, `e` where none is left, or `x` where the store has failed.
pub fn put_front(out: &mut ReplyText, front: Result<CoreFront, AllocError>) {
    match front {
        Ok(CoreFront::Entries { place, messages }) => {
            put_number(out, place);
            out.put_count(b"+", messages.len() as u64);
        }
        Ok(CoreFront::Empty) => out.put_word(b"e"),
        Ok(CoreFront::Broken) => out.put_word(b"x"),
        Err(_) => out.put_word(b"memory"),
    }
}

/// `k`, `-` where the entries aren't the first ones, or `x` where the store has failed.
pub fn put_settled(out: &mut ReplyText, settled: Settled) {
    match settled {
        Settled::Done => out.put_word(b"k"),
        Settled::NotFront => out.put_word(b"-"),
        Settled::DiskFailed => out.put_word(b"x"),
    }
}

/// How many entries moved, `-` where none waits, `o` where the first doesn't fit, or `x` where the store has failed.
pub fn put_refilled(out: &mut ReplyText, refill: Refill) {
    match refill {
        Refill::Moved(n) => put_number(out, u64::from(n)),
        Refill::NoneWaits => out.put_word(b"-"),
        Refill::NoRoom => out.put_word(b"o"),
        Refill::Broken => out.put_word(b"x"),
    }
}

/// The position that was written, `=` where it stood there, or `x` where the store has failed.
pub fn put_stored(out: &mut ReplyText, stored: Stored) {
    match stored {
        Stored::Wrote(position) => put_number(out, position),
        Stored::Unchanged => out.put_word(b"="),
        Stored::Broken => out.put_word(b"x"),
    }
}
