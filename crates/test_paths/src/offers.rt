// What is offered, as it is said.
ghost use Rattle.std.specs.Prelude.{◌≡◌, ◌<◌, length};

use crate::plain::offers_plain;
use bytes::Bytes;
use sg_msg::Offer;
use sg_pattern::Patterns;
use sg_route::Router;
use sg_tree::{Forest, PathRefusal};
use std::alloc::{AllocError, Global};

// `1w=text`
fn put_offer(text: &mut Vec<u8>, offer: &Offer) -> Result<(), AllocError> {
    text.push(b'0'.saturating_add((offer.dest % 10) as u8))?;
    if offer.flow {
        text.push(b'w')?;
    }
    text.push(b'=')?;
    if let Some(value) = offer.message.get(b"MESSAGE") {
        text.extend_from_slice(value)?;
    }
    Ok(())
}

fn written(alloc: Global, offers: &[Offer]) -> Result<Vec<u8>, AllocError> {
    let mut text = Vec::new(alloc);
    for (place, offer) in offers.iter().enumerate() {
        if place > 0 {
            text.push(b' ')?;
        }
        put_offer(&mut text, offer)?;
    }
    Ok(text)
}

// A record, in which `\n`, `\r` and `\0` stand for LF, CR and NUL.
fn item_of(alloc: Global, record: &str) -> Result<Bytes, AllocError> {
    let text = record.replace(alloc, "\\n", "\n")?;
    let text = text.as_str().replace(alloc, "\\r", "\r")?;
    let text = text.as_str().replace(alloc, "\\0", "\0")?;
    Bytes::copy_from_slice(alloc, text.as_bytes())
}

// What the tree offers for a record.
fn by_tree(alloc: Global, forest: &Forest, inlet: u32, record: &str) -> Result<Vec<u8>, AllocError>
    requires { inlet < length forest.now.inlets.items }
{
    let mut patterns = Patterns::new(alloc);
    let item = item_of(alloc, record)?;
    match offers_plain(alloc, forest, &mut patterns, inlet, item, 0, b"peer") {
        Ok(offers) => written(alloc, &offers),
        Err(PathRefusal::NoMemory) => Err(AllocError),
        Err(_) => Vec::from_slice(alloc, b"refused"),
    }
}

// What the table offers for it.
fn by_table<R: Router>(
    alloc: Global,
    router: &mut R,
    inlet: u32,
    record: &str,
) -> Result<Vec<u8>, AllocError>
    requires { inlet < R.inlets router.old }
    ensures { R.inlets router.new ≡ R.inlets router.old }
{
    let item = item_of(alloc, record)?;
    let offers = router.route(alloc, inlet, item, 0, b"peer")?;
    written(alloc, &offers)
}

fn put_record<R: Router>(
    alloc: Global,
    text: &mut Vec<u8>,
    forest: &Forest,
    router: &mut R,
    inlet: u32,
    record: &str,
) -> Result<(), AllocError>
    requires { (inlet < length forest.now.inlets.items) × (inlet < R.inlets router.old) }
    ensures { R.inlets router.new ≡ R.inlets router.old }
{
    let offers = by_tree(alloc, forest, inlet, record)?;
    let routed = by_table(alloc, router, inlet, record)?;
    text.extend_from_slice(&offers)?;
    if routed.as_slice() != offers.as_slice() {
        text.extend_from_slice(b" and by the table ")?;
        text.extend_from_slice(&routed)?;
    }
    Ok(())
}

/// The offers of the records, with `|` between those of one and those of the next.
pub(crate) fn said<R: Router>(
    alloc: Global,
    forest: &Forest,
    router: &mut R,
    inlet: u32,
    records: &str,
) -> Result<Vec<u8>, AllocError>
    requires { (inlet < length forest.now.inlets.items) × (inlet < R.inlets router.old) }
{
    let mut text = Vec::new(alloc);
    let mut first = true;
    for record in records.split('|') {
        if !first {
            text.extend_from_slice(b" | ")?;
        }
        first = false;
        put_record(alloc, &mut text, forest, router, inlet, record)?;
    }
    Ok(text)
}
