// The first entries of a disk-buffer.
ghost use Rattle.std.specs.Prelude.{◌≡◌, ◌≤◌, length, codes, ◌++◌, [], ◌∷◌, OnOk, IfOk, IfErr, false};
ghost use Rattle.sg_spool.specs.Calls.{OnlyReadsSpool};
ghost use Rattle.sg_buffer.specs.First.{AreFirstMessages, ReadReason, content_in, unread_content};

use bytes::Bytes;
use sg_codec::{CodecRefusal, Kept, decode};
use sg_device::Disk;
use sg_msg::{Message, MessageBuilder, PairName};
use sg_spool::{RewriteRefusal, Spool, Walked};
use sg_time::Stamp;
use std::alloc::{AllocError, Global};

const LONG_AGO: Stamp = Stamp { at: 0, offset: 0 };

/// The messages of the first entries, so many. Nothing on the disk changes. A store that was cut or
/// written over while it was open may give a payload that spells no entry, or none where one stood: that
/// becomes what syslog-ng makes of a record that it can't read, PRI 43 with PROGRAM `syslog-ng` and
/// MESSAGE `Error processing log message: ` and the payload, both stamps at 1970-01-01T00:00:00Z.
pub fn first_messages<D: Disk>(
    alloc: Global,
    spool: &mut Spool<D>,
    n: u64,
) -> Result<Vec<Message>, RewriteRefusal>
    requires open { spool.old.closed ≡ false }
    requires enough { n ≤ spool.old.rows.count }
    requires unstaged { spool.old.rows.staged ≡ 0 }
    ensures reads { OnlyReadsSpool D.state spool.old spool.new }
    ensures messages { IfOk result
        (λ messages. AreFirstMessages (D.state spool.old.disk) n messages.items) }
    ensures number { IfOk result (λ messages. length messages.items ≡ n) }
    ensures open { IfOk result (λ _. spool.new.closed ≡ false) }
    ensures cause { IfErr result
        (ReadReason (D.state spool.old.disk) (D.state spool.new.disk) spool.new.closed) }
{
    let mut messages = Vec::new(alloc);
    let _count = spool.count();
    let mut gate = spool.head();
    for _turn in 0..n {
        match spool.item(alloc, gate)? {
            Walked::Item { payload, next } => {
                let message = message_of(alloc, &payload)?;
                push(&mut messages, message)?;
                gate = next;
            }
            Walked::Empty => {
                let message = message_of(alloc, &[])?;
                push(&mut messages, message)?;
                continue;
            }
            Walked::DiskFailed => return Err(RewriteRefusal::DiskFault),
        }
    }
    Ok(messages)
}

// The message of the entry that a payload spells, or what becomes of one that spells none.
#[tactic(auto, using(crate::proofs::Firsts::content_read, crate::proofs::Firsts::content_unread))]
fn message_of(alloc: Global, payload: &[u8]) -> Result<Message, AllocError>
    ensures { IfOk result (λ message. message ≡ content_in payload.now) }
{
    match decode(alloc, payload) {
        Ok(kept) => {
            let Kept {
                source: _,
                end: _,
                flow: _,
                message,
            } = kept;
            Ok(message)
        }
        Err(CodecRefusal::Damage(_)) => Ok(unread(alloc, payload)?),
        Err(CodecRefusal::NoMemory) => Err(AllocError),
    }
}

// What is said of a payload that spells no entry.
fn unread_text(alloc: Global, payload: &[u8]) -> Result<Bytes, AllocError>
    ensures { IfOk result (λ text. text ≡ codes "Error processing log message: " ++ payload.now) }
{
    let mut text = Vec::with_capacity(alloc, payload.len().saturating_add(30))?;
    text.extend_from_slice(b"Error processing log message: ")?;
    text.extend_from_slice(payload)?;
    Ok(Bytes::from_vec(text)?)
}

// What becomes of a payload that spells no entry.
fn unread(alloc: Global, payload: &[u8]) -> Result<Message, AllocError>
    ensures { IfOk result (λ message. message ≡ unread_content payload.now) }
{
    let text = unread_text(alloc, payload)?;
    let mut builder = MessageBuilder::new(alloc, 43, LONG_AGO, LONG_AGO);
    builder.put(PairName::Program, Bytes::from_static(b"syslog-ng"))?;
    builder.put(PairName::Message, text)?;
    builder.message()
}

fn push(messages: &mut Vec<Message>, message: Message) -> Result<(), AllocError>
    ensures { OnOk result (messages.new.items ≡ messages.old.items ++ message ∷ []) }
{
    messages.push(message)?;
    Ok(())
}
