// The offers of a run, which go by their numbers.
ghost use Rattle.std.specs.Prelude.{◌≡◌, ◌≤◌, ◌<◌, ◌+◌, ◌^◌, IfOk, OnOk, length};
ghost use Rattle.sg_counter.specs.Bringing.{AllMayEnter};
ghost use Rattle.sg_msg.specs.Offers.{AllWithin};

use crate::cores::{add_offer, add_record};
use crate::draws::Draws;
use sg_machine::Admission;
use sg_msg::{Message, Offer};
use std::alloc::{AllocError, Global};

/// What stands for no number.
pub(crate) const NONE: u32 = u32::MAX;

/// The place of an offer as its number.
pub(crate) fn short(place: usize) -> u32 {
    u32::try_from(place).unwrap_or(NONE)
}

/// An offer of a run. Its message has its number as the moment it was sent, and a text of bytes that are all its
/// number.
#[derive(Clone, Copy, PartialEq, Eq, Drop)]
pub(crate) struct MadeOffer {
    pub(crate) source: u32,
    /// The end of its record.
    pub(crate) end: u64,
    pub(crate) dest: u32,
    /// Its encoded bytes.
    pub(crate) size: usize,
    pub(crate) flow: bool,
    /// Its destination has taken it.
    pub(crate) settled: bool,
}

/// The same offers, for a core that opens again: it knows those that it finds, and no record that they came from.
pub(crate) fn left_behind(alloc: Global, made: &[MadeOffer]) -> Result<Vec<MadeOffer>, AllocError> {
    let mut left = Vec::new(alloc);
    for offer in made {
        left.push(MadeOffer {
            flow: false,
            ..*offer
        })?;
    }
    Ok(left)
}

// Makes up to three offers of a record that ends there, of 60 to 219 encoded bytes.
fn draw_record(
    draws: &mut Draws,
    source: u32,
    end: u64,
    made: &mut Vec<MadeOffer>,
) -> Result<(), AllocError> {
    for _offer in 0..draws.below(4) {
        let offer = MadeOffer {
            source,
            end,
            dest: draws.below(3) as u32,
            size: 60 + draws.below(160) as usize,
            flow: draws.below(2) == 0,
            settled: false,
        };
        made.push(offer)?;
    }
    Ok(())
}

/// Makes the offers of one to four records of a source, the first of which ends there and each other one a byte
/// later. How many records.
pub(crate) fn draw_records(
    draws: &mut Draws,
    source: u32,
    end: u64,
    made: &mut Vec<MadeOffer>,
) -> Result<u64, AllocError>
    requires { end < 2 ^ 32 }
    ensures some { IfOk result (λ count. 0 < count) }
    ensures few { IfOk result (λ count. count ≤ 4) }
{
    let count = 1 + draws.below(4);
    for k in 0..count {
        draw_record(draws, source, end + k, made)?;
    }
    Ok(count)
}

// The offer's message and flow-control, behind the others of its record.
fn add_made(
    alloc: Global,
    offers: &mut Vec<Offer>,
    number: u32,
    made: &MadeOffer,
) -> Result<(), AllocError>
    requires within { AllWithin 3 offers.old.items }
    ensures within { OnOk result (AllWithin 3 offers.new.items) }
    ensures count { OnOk result (length offers.new.items ≤ length offers.old.items + 1) }
{
    if made.dest < 3 {
        add_offer(alloc, offers, made.dest, number, made.size, made.flow)?;
    }
    Ok(())
}

// The offers of the record that ends there, among those from that number on.
fn offers_of(
    alloc: Global,
    made: &[MadeOffer],
    first: usize,
    end: u64,
) -> Result<Vec<Offer>, AllocError>
    ensures within { IfOk result (λ offers. AllWithin 3 offers.items) }
    ensures few { IfOk result (λ offers. length offers.items ≤ 1024) }
{
    let mut offers = Vec::new(alloc);
    for number in first..made.len() {
        if made[number].end == end && offers.len() < 1024 {
            add_made(alloc, &mut offers, short(number), &made[number])?;
        }
    }
    Ok(offers)
}

/// The records with these ends, with the offers from that number on.
pub(crate) fn records_of(
    alloc: Global,
    made: &[MadeOffer],
    first: usize,
    end: u64,
    count: u64,
) -> Result<Vec<Admission>, AllocError>
    requires end { end < 2 ^ 32 }
    requires count { count ≤ 4 }
    ensures each { IfOk result (λ records. AllMayEnter 3 records.items) }
    ensures count { IfOk result (λ records. length records.items ≡ count) }
{
    let mut records = Vec::new(alloc);
    for k in 0..count {
        let offers = offers_of(alloc, made, first, end + k)?;
        add_record(&mut records, end + k, offers)?;
    }
    Ok(records)
}

// Whether the text has so many bytes, which are all the number.
fn is_text(text: &[u8], number: u32, size: usize) -> bool {
    let byte = (number % 256) as u8;
    text.len() == size.saturating_sub(58) && text.iter().all(|b| *b == byte)
}

/// The number of a message, or `NONE` where it isn't that of an offer that was made.
pub(crate) fn number_of(made: &[MadeOffer], message: &Message) -> u32 {
    let at = message.sent().at;
    if at < 0 || at >= 1 << 32 {
        return NONE;
    }
    let number = at as u32;
    let Some(offer) = made.get(number as usize) else {
        return NONE;
    };
    match message.get(b"MESSAGE") {
        Some(text) if is_text(text, number, offer.size) => number,
        _ => NONE,
    }
}

/// The numbers of messages.
pub(crate) fn numbers_of(
    alloc: Global,
    made: &[MadeOffer],
    messages: &[Message],
) -> Result<Vec<u32>, AllocError> {
    let mut numbers = Vec::new(alloc);
    for message in messages {
        numbers.push(number_of(made, message))?;
    }
    Ok(numbers)
}
