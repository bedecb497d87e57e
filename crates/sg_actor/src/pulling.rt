// Pulls, and parts that are given up.
ghost use Rattle.std.specs.Prelude.{◌≡◌, ◌<◌, false, length};
ghost use Rattle.sg_actor.specs.Sources.{source};
ghost use Rattle.sg_actor.specs.Steps.{IsSpent, PullsOnto, is_bad, GivesUp};

use crate::reader::Reader;
use sg_device::{Inlet, Pull};
use sg_frame::Framed;

/// Pulls once, where all that was pulled is dealt with. Tells whether the inlet was idle. A fault
/// is the inlet's end too.
pub(crate) fn pull_once<I: Inlet>(reader: &mut Reader, buffer: &mut [u8], inlet: &mut I) -> bool
    requires room { 0 < length buffer.old }
    requires spent { IsSpent reader.old }
    requires going { reader.old.ended ≡ false }
    requires works { reader.old.failed ≡ false }
    ensures { PullsOnto (source (I.state inlet.old) reader.old buffer.old)
        (source (I.state inlet.new) reader.new buffer.new) result }
{
    match inlet.pull(buffer) {
        Ok(Pull::Next) => {
            reader.framer.restart();
            reader.ahead = Framed::More;
            reader.given_up = false;
            false
        }
        Ok(Pull::Idle) => true,
        Ok(Pull::End) => {
            reader.ended = true;
            false
        }
        Ok(Pull::Bytes { len, at }) => {
            reader.pulled = Pull::Bytes { len, at };
            false
        }
        Err(_) => {
            reader.failed = true;
            false
        }
    }
}

/// Whether a bad count is ahead for which the part isn't given up yet.
pub(crate) fn is_bad(reader: &Reader) -> bool
    ensures { result ≡ is_bad reader.now }
{
    match &reader.ahead {
        Framed::BadFrame(_) => !reader.given_up,
        Framed::Item { .. } => false,
        Framed::More => false,
    }
}

/// Gives the present part up where a bad count is ahead. Tells whether it did.
pub(crate) fn give_up<I: Inlet>(reader: &mut Reader, inlet: &mut I) -> bool
    ensures { GivesUp reader.old (I.state inlet.old) reader.new (I.state inlet.new) result }
{
    if !is_bad(reader) {
        return false;
    }
    reader.given_up = true;
    inlet.hangup();
    true
}
