// What a source keeps of its inlet between two turns.
ghost use Rattle.std.specs.Prelude.{◌≡◌, ◌<◌, ◌+◌, ◌^◌, [], length, IfOk};
ghost use Rattle.sg_device.specs.declared.inlet.Pull.TheVariants.{Idle};
ghost use Rattle.sg_frame.specs.Framing.{fed};
ghost use Rattle.sg_frame.specs.declared.kind.FrameKind.{FrameKind as AKind};
ghost use Rattle.sg_actor.specs.Reading.{bytes_pulled, IsUnfed};
ghost use Rattle.sg_actor.specs.Steps.{IsReaderBegun, Feeds, Looks};

use sg_device::{NoMemory, Pull};
use sg_frame::{FrameKind, Framed, Framer};
use sg_list::Seq;
use sg_machine::Admission;
use std::alloc::Global;

/// The bytes that a pull of a file brings at most.
const FILE_PIECE: usize = 65_536;

/// The bytes that a pull of a connection brings at most. Of many connections one after another is dealt
/// with: the more each brings, the less of it is still in a processor's cache at its next turn.
const CONNECTION_PIECE: usize = 16_384;

/// What a source keeps of its inlet between two turns.
pub struct Reader {
    pub(crate) framer: Framer,
    /// What was pulled and isn't fed to the framer yet: the first bytes of the buffer. `Idle` where
    /// there is nothing.
    pub(crate) pulled: Pull,
    /// What the framer gave last: an item whose record isn't held yet, or a bad count. `More` where
    /// that isn't known.
    pub(crate) ahead: Framed,
    /// The records before it that weren't admitted yet.
    pub(crate) held: Seq<Admission>,
    /// The end of the last record that was admitted, at first the place where reading began.
    pub(crate) end: u64,
    pub(crate) ended: bool,
    pub(crate) failed: bool,
    /// The present part is given up, for its bad count.
    pub(crate) given_up: bool,
}

impl Drop for Reader {
    fn drop(self) {
        let Reader {
            framer: _framer,
            pulled: _pulled,
            ahead: _ahead,
            held: _held,
            end: _end,
            ended: _ended,
            failed: _failed,
            given_up: _given_up,
        } = self;
    }
}

// A function of its own: the list of so many zeros is kept out of the other proofs.
fn zeros(alloc: Global, len: usize) -> Result<Vec<u8>, NoMemory>
    requires { 0 < len }
    ensures { IfOk result (λ buffer. 0 < length buffer.items) }
{
    vec![in alloc; 0u8; len]
}

/// Room for what a pull brings: of a file where there is a position store, else of a connection.
pub(crate) fn make_buffer(alloc: Global, stored: bool) -> Result<Vec<u8>, NoMemory>
    ensures { IfOk result (λ buffer. 0 < length buffer.items) }
{
    zeros(alloc, if stored { FILE_PIECE } else { CONNECTION_PIECE })
}

/// A reader of an inlet that gave nothing yet.
pub(crate) fn make_reader(
    alloc: Global,
    kind: FrameKind,
    limit: u32,
    from: u64,
) -> Result<Reader, NoMemory>
    requires { 0 < limit }
    ensures { IfOk result (IsReaderBegun kind limit from) }
{
    Ok(Reader {
        framer: Framer::new(alloc, kind, limit)?,
        pulled: Pull::Idle,
        ahead: Framed::More,
        held: Seq::empty(alloc),
        end: from,
        ended: false,
        failed: false,
        given_up: false,
    })
}

/// Feeds what was pulled to the framer. Without memory it is still to be fed.
pub(crate) fn feed_pulled(reader: &mut Reader, buffer: &[u8]) -> Result<(), NoMemory>
    requires unfed { IsUnfed (length buffer.now) reader.old.pulled }
    requires range { fed reader.old.framer + length (bytes_pulled reader.old.pulled buffer.now)
        < 2 ^ 63 }
    ensures { Feeds buffer.now reader.old reader.new result }
{
    let Pull::Bytes { len, at } = reader.pulled else {
        return Ok(());
    };
    reader.framer.feed(&buffer[..len], at)?;
    reader.pulled = Pull::Idle;
    Ok(())
}

/// Asks the framer for what stands at the front of its bytes, where that isn't known.
pub(crate) fn look(reader: &mut Reader) -> Result<(), NoMemory>
    ensures { Looks reader.old reader.new result }
{
    let Framed::More = &reader.ahead else {
        return Ok(());
    };
    reader.ahead = reader.framer.next()?;
    Ok(())
}
