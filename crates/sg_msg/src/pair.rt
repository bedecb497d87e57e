// What a pair is called, and where its value stands.
ghost use Rattle.std.specs.Prelude.{◌≡◌, ◌↔◌, true, false, None};
ghost use Rattle.sg_msg.specs.Parts.{known_name, rank};

use crate::is_same;

// The names that most records have are so long.
const SHORTEST: usize = 3;

const LONGEST: usize = 7;

/// A name that most records have, or the number of one of the message's own texts.
#[derive(Clone, Copy, PartialEq, Eq, Drop)]
pub(crate) enum Name {
    Host,
    Message,
    MessageId,
    Pid,
    Program,
    Own(u32),
}

/// A part of the record, from one place to another, or the number of one of the message's own texts, or
/// a part of that.
#[derive(Clone, Copy, PartialEq, Eq, Drop)]
pub(crate) enum Text {
    Part(u32, u32),
    Own(u32),
    OwnPart(u32, u32, u32),
}

/// A name and its value.
#[derive(Clone, Copy, PartialEq, Eq, Drop)]
pub(crate) struct Pair {
    pub(crate) name: Name,
    pub(crate) value: Text,
}

// Whether a name of so many bytes may be one that most records have.
fn has_known_len(name: &[u8]) -> bool
    ensures { result ≡ false → known_name name.now ≡ None }
{
    let len = name.len();
    len >= SHORTEST && len <= LONGEST
}

/// The name, where it is one that most records have.
pub(crate) fn known_name(name: &[u8]) -> Option<Name>
    ensures { result ≡ known_name name.now }
{
    if !has_known_len(name) {
        return None;
    }
    if is_same(name, b"HOST") {
        return Some(Name::Host);
    }
    if is_same(name, b"MESSAGE") {
        return Some(Name::Message);
    }
    if is_same(name, b"MSGID") {
        return Some(Name::MessageId);
    }
    if is_same(name, b"PID") {
        return Some(Name::Pid);
    }
    if is_same(name, b"PROGRAM") {
        return Some(Name::Program);
    }
    None
}

/// The place of a name that most records have among those, in the order of their texts.
pub(crate) fn rank(name: Name) -> Option<u8>
    ensures { result ≡ rank name }
{
    match name {
        Name::Host => Some(0),
        Name::Message => Some(1),
        Name::MessageId => Some(2),
        Name::Pid => Some(3),
        Name::Program => Some(4),
        Name::Own(_) => None,
    }
}

/// Whether both are one name.
pub(crate) fn is_one(name: Name, other: Name) -> bool
    ensures { (result ≡ true) ↔ (name ≡ other) }
{
    name == other
}
