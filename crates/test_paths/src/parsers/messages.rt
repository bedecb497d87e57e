// Messages, and what is said of them.
use sg_msg::{Message, MsgRefusal};
use sg_time::Stamp;
use std::alloc::{AllocError, Global};

const STAMP: Stamp = Stamp {
    at: 1_500_000,
    offset: 60,
};

fn set(message: &mut Message, name: &'static str, value: &[u8]) -> Result<(), AllocError> {
    if name.is_empty() || name.len() > 255 {
        return Ok(());
    }
    match message.set(name.as_bytes(), value) {
        Ok(()) => Ok(()),
        Err(MsgRefusal::HardMacro) => Ok(()),
        Err(MsgRefusal::NoMemory) => Err(AllocError),
    }
}

pub(crate) fn message_of(alloc: Global, text: &[u8]) -> Result<Message, AllocError> {
    let mut message = Message::new(alloc, 13, STAMP, STAMP)?;
    set(&mut message, "HOST", b"h")?;
    set(&mut message, "OLD", b"o")?;
    set(&mut message, "MESSAGE", text)?;
    Ok(message)
}

fn pair_said(name: &[u8], value: &[u8], out: &mut Vec<u8>) -> Result<(), AllocError> {
    out.extend_from_slice(name)?;
    out.extend_from_slice(b"[")?;
    out.extend_from_slice(value)?;
    out.extend_from_slice(b"]")
}

pub(crate) fn pairs_said(
    message: &Message,
    text: &[u8],
    out: &mut Vec<u8>,
) -> Result<(), AllocError> {
    for place in 0..message.pair_count() {
        let Some((name, value)) = message.pair(place) else {
            return Ok(());
        };
        if name != b"MESSAGE".as_slice() || value != text {
            pair_said(name, value, out)?;
        }
    }
    Ok(())
}

// How many bytes the values have, but for that of MESSAGE.
fn value_bytes(message: &Message) -> usize {
    let mut sum: usize = 0;
    for place in 0..message.pair_count() {
        let Some((name, value)) = message.pair(place) else {
            return sum;
        };
        if name != b"MESSAGE".as_slice() {
            sum = sum.saturating_add(value.len());
        }
    }
    sum
}

pub(crate) fn sums_said(
    alloc: Global,
    message: &Message,
    out: &mut Vec<u8>,
) -> Result<(), AllocError> {
    let pairs = message.pair_count();
    let bytes = value_bytes(message);
    let said = format!(in alloc; "{pairs} pairs, {bytes} bytes")?;
    out.extend_from_slice(said.as_bytes())
}
