// What is told of an entry: its timestamp, HOST, PROGRAM and the front of its MESSAGE.
ghost use Rattle.std.specs.Prelude.{◌≡◌};

use sg_device::NoMemory;
use sg_msg::Message;
use sg_template::{Template, TemplateFault, own_env, text_of};
use sg_world::World;
use std::alloc::{AllocError, Global};

/// What stands in front of the message.
const FRONT: &[u8] = b"${ISODATE} ${HOST} ${PROGRAM}: ";
/// How many bytes of a message are shown.
const SHOWN: usize = 80;

fn shown_byte(byte: u8) -> u8 {
    if byte == b'\t' {
        return b' ';
    }
    if byte >= 32 && byte <= 126 {
        byte
    } else {
        b'.'
    }
}

// Bytes as they are shown: printable ASCII as it is, a tab as a blank, others as `.`.
fn append_shown(text: &[u8], out: &mut Vec<u8>) -> Result<(), NoMemory> {
    for byte in text {
        out.push(shown_byte(*byte))?;
    }
    Ok(())
}

fn front_of(alloc: Global, message: &Message) -> Result<Vec<u8>, NoMemory> {
    let mut text = Vec::new(alloc);
    match Template::read(alloc, FRONT) {
        Ok(template) => template.render(message, &own_env(None), &mut text)?,
        Err(TemplateFault::NoMemory) => return Err(AllocError),
        Err(_) => {}
    }
    Ok(text)
}

fn shown_message(message: &Message) -> &[u8] {
    let text = text_of(message, b"MESSAGE");
    match text.get(..SHOWN) {
        Some(front) => front,
        None => text,
    }
}

/// Appends what is told of an entry of this number.
pub(crate) fn append_about(
    alloc: Global,
    number: u64,
    message: &Message,
    out: &mut Vec<u8>,
) -> Result<(), NoMemory> {
    let line = format!(in alloc; "# entry {number} ")?;
    out.extend_from_slice(line.as_bytes())?;
    append_message(alloc, message, out)
}

/// Appends its timestamp, HOST, PROGRAM and the front of its MESSAGE, and the end of the line.
pub(crate) fn append_message(
    alloc: Global,
    message: &Message,
    out: &mut Vec<u8>,
) -> Result<(), NoMemory> {
    let front = front_of(alloc, message)?;
    append_shown(&front, out)?;
    append_shown(shown_message(message), out)?;
    out.extend_from_slice(b"\n")?;
    Ok(())
}

/// Tells it, and empties it.
pub(crate) fn tell_about<W: World>(about: &mut Vec<u8>, world: &mut W)
    ensures { W.state world.new ≡ W.state world.old }
{
    if !about.is_empty() {
        world.tell(about);
    }
    about.clear();
}
