// The event of RFC 5424, 6.3.5.
ghost use Rattle.sg_time.specs.Stamp.{IsValidStamp};

use sg_msg::Message;
use sg_time::Stamp;
use std::alloc::Global;
use std::test::Fail;

/// The event as it was received then, with these values: a name, `|` and a value a line.
pub(crate) fn event(alloc: Global, received: Stamp, values: &str) -> Result<Message, Fail>
    requires { IsValidStamp received }
{
    let sent = Stamp {
        at: 1_065_910_455_003_000,
        offset: 0,
    };
    let mut message = Message::new(alloc, 165, sent, received)?;
    for row in values.lines() {
        set(&mut message, row)?;
    }
    Ok(message)
}

// Sets the value of a row.
fn set(message: &mut Message, row: &str) -> Result<(), Fail> {
    let (name, value) = row.split_once('|').ok_or("no value")?;
    if name.is_empty() || name.len() > 255 {
        return Err("no name".into());
    }
    match message.set(name.as_bytes(), value.as_bytes()) {
        Ok(()) => Ok(()),
        Err(_) => Err("a value is refused".into()),
    }
}
