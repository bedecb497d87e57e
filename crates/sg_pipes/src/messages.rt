// Messages that came out of a list of elements.
ghost use Rattle.std.specs.Prelude.{◌≡◌, [], ◌∷◌, ◌++◌, IfOk, IfSome, IfNone, reverse};
ghost use Rattle.sg_pipes.specs.Messages.{messages_of};

use sg_msg::Message;
use std::alloc::{AllocError, Global};

/// In order. One alone, as nearly always, needs no memory of its own.
#[derive(Drop)]
pub(crate) enum Messages {
    Empty,
    One(Message),
    Many(Vec<Message>),
}

// One and then those.
fn joined_one(alloc: Global, first: Message, later: Messages) -> Result<Messages, AllocError>
    ensures { IfOk result (λ all. messages_of all ≡ first ∷ messages_of later) }
{
    match later {
        Messages::Empty => Ok(Messages::One(first)),
        Messages::One(second) => {
            let mut all = Vec::new(alloc);
            all.push(first)?;
            all.push(second)?;
            Ok(Messages::Many(all))
        }
        Messages::Many(more) => {
            let mut more = more;
            let mut all = Vec::new(alloc);
            all.push(first)?;
            all.append(&mut more)?;
            Ok(Messages::Many(all))
        }
    }
}

fn joined_many(all: Vec<Message>, later: Messages) -> Result<Messages, AllocError>
    ensures { IfOk result (λ joined. messages_of joined ≡ all.items ++ messages_of later) }
{
    let mut all = all;
    match later {
        Messages::Empty => Ok(Messages::Many(all)),
        Messages::One(second) => {
            all.push(second)?;
            Ok(Messages::Many(all))
        }
        Messages::Many(more) => {
            let mut more = more;
            all.append(&mut more)?;
            Ok(Messages::Many(all))
        }
    }
}

/// These and then those.
pub(crate) fn joined(
    alloc: Global,
    first: Messages,
    later: Messages,
) -> Result<Messages, AllocError>
    ensures { IfOk result (λ all. messages_of all ≡ messages_of first ++ messages_of later) }
{
    match first {
        Messages::Empty => Ok(later),
        Messages::One(one) => joined_one(alloc, one, later),
        Messages::Many(all) => joined_many(all, later),
    }
}

/// The last first.
pub(crate) fn reversed(messages: Messages) -> Messages
    ensures { messages_of result ≡ reverse (messages_of messages) }
{
    match messages {
        Messages::Many(all) => {
            let mut all = all;
            all.reverse();
            Messages::Many(all)
        }
        Messages::One(one) => Messages::One(one),
        Messages::Empty => Messages::Empty,
    }
}

/// Takes the last.
pub(crate) fn take_last(messages: &mut Messages) -> Option<Message>
    ensures some { IfSome result
        (λ last. messages_of messages.old ≡ messages_of messages.new ++ last ∷ []) }
    ensures none { IfNone result (messages_of messages.old ≡ []) }
{
    match std::mem::replace(messages, Messages::Empty) {
        Messages::Empty => None,
        Messages::One(last) => Some(last),
        Messages::Many(all) => {
            let mut all = all;
            let last = all.pop();
            *messages = Messages::Many(all);
            last
        }
    }
}
