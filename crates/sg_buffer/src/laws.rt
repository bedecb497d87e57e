// What holds of entries and their payloads. The functions here do nothing: their contracts are laws.
ghost use Rattle.std.specs.Prelude.{◌≡◌, ◌≤◌, ◌^◌, List, ℕ, length};
ghost use Rattle.sg_device.specs.Disk.{DiskState};
ghost use Rattle.sg_msg.specs.Message.{Content};
ghost use Rattle.sg_codec.specs.declared.kept.Kept.{Kept as Entry};
ghost use Rattle.sg_codec.specs.Spelling.{Spells1, Spells2};
ghost use Rattle.sg_buffer.specs.Entries.{IsListOf};
ghost use Rattle.sg_buffer.specs.First.{AreFirstMessages, AreFirstKept};
ghost use Rattle.sg_buffer.specs.Formats.{upgraded};

use sg_codec::spellings_are_read;
use sg_spool::bytes_have_one_meaning;

/// Spelled anew, an entry stays the same entry.
pub fn entries_stay()
    ensures older { (kept : Entry) (bytes : List ℕ) → Spells1 kept bytes → length bytes ≤ 2 ^ 30
        → Spells2 kept (upgraded bytes) }
    ensures newer { (kept : Entry) (bytes : List ℕ) → Spells2 kept bytes → upgraded bytes ≡ bytes }
{
    spellings_are_read();
}

/// A store's bytes stand for one list of entries at most.
pub fn lists_are_one()
    ensures { (a b : List Entry) (bytes : List ℕ) → IsListOf a bytes → IsListOf b bytes → a ≡ b }
{
    spellings_are_read();
    bytes_have_one_meaning();
}

/// Where the payloads of a disk-buffer spell entries, the messages of its first payloads are those of the
/// first entries.
pub fn first_messages_are_kept()
    ensures { (disk : DiskState) (n : ℕ) (messages : List Content)
        → AreFirstMessages disk n messages
        → AreFirstKept disk n messages }
{
    spellings_are_read();
}
