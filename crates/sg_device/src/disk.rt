// Where the daemon's own stores lie.
ghost use Rattle.std.specs.Prelude.{◌≡◌, ◌+◌, ◌<◌, ◌≤◌, ◌^◌, length, is_some, IfOk, OnOk, IsErr};
ghost use Rattle.sg_device.specs.Disk.{DiskState, content, Measures, ReadsDisk, Writes, Syncs, IsShort, HasCause, Changes, Elapses, Durable};
ghost use Rattle.sg_device.specs.DiskBytes.{Torn, Written};

use crate::DiskFault;

/// Bytes that last. After a crash each range that was written since the last sync that succeeded, and
/// the part past the end at that sync, may hold any bytes; all others are as they were.
pub trait Disk {
    /// The bytes at first and what happened since, where the disk tells it, and its count of faults.
    ghost state: { Self → DiskState };

    /// The number of bytes.
    fn len(&mut self) -> Result<u64, DiskFault>
        ensures told { (state self.new).told ≡ (state self.old).told }
        ensures length { Measures (state self.old) result }
        ensures bound { IfOk result (λ count. count < 2 ^ 63) }
        ensures cause { HasCause (state self.old).faults (state self.new).faults result };

    /// Fills the buffer with the bytes from this place on, as far as there are any, and says how many
    /// it has filled. What a refusal leaves in the buffer isn't said.
    fn read_at(&mut self, at: u64, into: &mut [u8]) -> Result<usize, DiskFault>
        ensures told { (state self.new).told ≡ (state self.old).told }
        ensures bytes { ReadsDisk (state self.old) at into.old into.new result }
        ensures bound { IfOk result (λ count. count ≤ length into.old) }
        ensures cause { HasCause (state self.old).faults (state self.new).faults result };

    /// Writes over what is there, and past the end. A write that would end at 2^63 or later is refused.
    /// After a refusal any bytes may stand in its range.
    fn write_at(&mut self, at: u64, from: &[u8]) -> Result<(), DiskFault>
        ensures past_end { 2 ^ 63 ≤ at + length from.now → IsErr result }
        ensures told { Writes (state self.old) (state self.new) at from.now result }
        ensures cause { HasCause (state self.old).faults (state self.new).faults result };

    /// Makes stable what was written. After a refusal a read may give anything that a crash may leave,
    /// as on Linux, which may drop what it couldn't write (fsync(2), Errors).
    fn sync(&mut self) -> Result<(), DiskFault>
        ensures told { Syncs (state self.old) (state self.new) result }
        ensures cause { HasCause (state self.old).faults (state self.new).faults result };

    /// A length is below 2^63.
    ghost short: { (disk : Self) → IsShort (state disk) };
}

/// Writes, and then makes all that was written stable. After a refusal a read may give anything that a
/// crash may leave.
pub fn write_through<D: Disk>(disk: &mut D, at: u64, from: &[u8]) -> Result<(), DiskFault>
    ensures past_end { 2 ^ 63 ≤ at + length from.now → IsErr result }

    ensures written { OnOk result
        (Changes (Written at from.now) (content (D.state disk.old)) (content (D.state disk.new))) }
    ensures durable { OnOk result (Durable (D.state disk.new)) }

    // Whatever it answers, nothing but the write comes to what a crash leaves, of which a read gives one.
    ensures tells { is_some (content (D.state disk.new)) ≡ is_some (content (D.state disk.old)) }
    ensures images { Elapses (Torn at (length from.now)) (D.state disk.old) (D.state disk.new) }

    ensures cause { HasCause (D.state disk.old).faults (D.state disk.new).faults result }
{
    disk.write_at(at, from)?;
    disk.sync()?;
    Ok(())
}
