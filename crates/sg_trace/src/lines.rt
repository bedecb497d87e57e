// What is said of an offer.
ghost use Rattle.std.specs.Prelude.{◌≡◌, ◌<◌, ◌++◌, length, slice_get, OnOk, option_copied};
ghost use Rattle.sg_trace.specs.Rows.{flow_text, path_text, frame_by, sent_by, sent_to, sent_text, offer_line, offer_text, offers_text};
ghost use Rattle.sg_msg.specs.Offers.{AllWithin};

use crate::SentForm;
use sg_device::NoMemory;
use sg_msg::Offer;
use sg_outfmt::{Shape, frame, unpacked};
use std::alloc::Global;

fn flow_text(flow: bool) -> &'static str
    ensures { result.now ≡ flow_text flow }
{
    if flow { "yes" } else { "no" }
}

fn append_path(path: Option<&[u8]>, text: &mut Vec<u8>) -> Result<(), NoMemory>
    ensures { OnOk result (text.new.items
        ≡ text.old.items ++ path_text (option_copied path.entry)) }
{
    let Some(path) = path else {
        return Ok(());
    };
    text.extend_from_slice(b" path ")?;
    text.extend_from_slice(path)?;
    Ok(())
}

fn append_line(
    alloc: Global,
    number: u64,
    dest: u32,
    flow: bool,
    path: Option<&[u8]>,
    length: usize,
    text: &mut Vec<u8>,
) -> Result<(), NoMemory>
    ensures { OnOk result (text.new.items ≡ text.old.items
        ++ offer_line number dest flow (option_copied path.entry) length) }
{
    let flow = flow_text(flow);
    let front = format!(in alloc; "record {number} destination {dest} flow {flow}")?;
    text.extend_from_slice(front.as_bytes())?;
    append_path(path, text)?;
    let back = format!(in alloc; " length {length}\n")?;
    text.extend_from_slice(back.as_bytes())?;
    Ok(())
}

// The path of a frame, where its shape has one, and its text.
fn sent_by<'a>(shape: &Shape, frame: &'a [u8]) -> (Option<&'a [u8]>, &'a [u8])
    ensures { (option_copied result.0, result.1.now) ≡ sent_by shape.now frame.now }
{
    match shape {
        Shape::Text(_) => (None, frame),
        Shape::Counted5424 => (None, frame),
        Shape::ByPath { .. } => {
            let (path, text) = unpacked(frame);
            (Some(path), text)
        }
    }
}

// What the destination of that number sends by a frame: the path, where messages name it, and the text.
fn sent_to<'a>(dest: u32, targets: &[SentForm], frame: &'a [u8]) -> (Option<&'a [u8]>, &'a [u8])
    requires { dest < length targets.now }
    ensures { (option_copied result.0, result.1.now)
        ≡ sent_to (slice_get targets.now dest) frame.now }
{
    let target = &targets[dest as usize];
    sent_by(&target.shape, frame)
}

// Puts what the offer's destination sends for it in the place of what the buffer had.
fn fill_frame(offer: &Offer, targets: &[SentForm], bytes: &mut Vec<u8>) -> Result<(), NoMemory>
    requires { offer.now.dest < length targets.now }
    ensures { OnOk result
        (bytes.new.items ≡ frame_by (slice_get targets.now offer.now.dest) offer.now) }
{
    bytes.clear();
    let target = &targets[offer.dest as usize];
    frame(&target.shape, &offer.message, &target.env, bytes)?;
    Ok(())
}

// Appends the line of an offer, what is sent, and LF.
fn append_sent(
    alloc: Global,
    number: u64,
    offer: &Offer,
    path: Option<&[u8]>,
    sent: &[u8],
    text: &mut Vec<u8>,
) -> Result<(), NoMemory>
    ensures { OnOk result (text.new.items ≡ text.old.items
        ++ sent_text number offer.now (option_copied path.entry) sent.now) }
{
    append_line(
        alloc,
        number,
        offer.dest,
        offer.flow,
        path,
        sent.len(),
        text,
    )?;
    text.extend_from_slice(sent)?;
    text.extend_from_slice(b"\n")?;
    Ok(())
}

fn append_offer(
    alloc: Global,
    number: u64,
    offer: &Offer,
    targets: &[SentForm],
    bytes: &mut Vec<u8>,
    text: &mut Vec<u8>,
) -> Result<(), NoMemory>
    requires { offer.now.dest < length targets.now }
    ensures { OnOk result
        (text.new.items ≡ text.old.items ++ offer_text targets.now number offer.now) }
{
    fill_frame(offer, targets, bytes)?;
    let (path, sent) = sent_to(offer.dest, targets, bytes);
    append_sent(alloc, number, offer, path, sent, text)?;
    Ok(())
}

/// Appends what is said of the offers of a record of this number. The bytes are room that is used again.
pub(crate) fn append_offers(
    alloc: Global,
    number: u64,
    offers: &[Offer],
    targets: &[SentForm],
    bytes: &mut Vec<u8>,
    text: &mut Vec<u8>,
) -> Result<(), NoMemory>
    requires { AllWithin (length targets.now) offers.now }
    ensures { OnOk result
        (text.new.items ≡ text.old.items ++ offers_text targets.now number offers.now) }
{
    for offer in offers {
        append_offer(alloc, number, offer, targets, bytes, text)?;
    }
    Ok(())
}
