// A cell of two slots and a selector, on a disk that is lent.
ghost use Rattle.std.specs.Prelude.{◌≡◌, ◌+◌, ◌%◌, ◌≤◌, [], ◌∷◌, ◌↔◌, length, true, false, IfOk, OnOk, IfNone, IfSome, IsTrue};
ghost use Rattle.std.specs.Int.{to_be_bytes, w64};
ghost use Rattle.sg_device.specs.Disk.{content, IsImage, Changes, Elapses, Durable, Within, EachNow, WhereTold, HasCause};
ghost use Rattle.sg_device.specs.DiskBytes.{Torn, Written};
ghost use Rattle.sg_stable.specs.Putting.{IsPut, StaysClosed};
ghost use Rattle.sg_stable.specs.Cell.{word, slot, HasCell, IsOutside, AreZero, IsFirstNonzero, SameOutside, PutsValue};

use sg_device::{Disk, DiskFault, write_through};

/// A cell: the first 40 bytes of a disk hold a number that a crash in mid-change leaves old or new.
/// Byte 0 is the selector: an even one selects slot A, bytes 16 to 23, an odd one slot B, bytes 32 to
/// 39; each is a big-endian number.
///
/// A change that fails closes the cell: the old number or the new one may stand on the disk.
#[derive(Clone, Copy, PartialEq, Eq, Drop)]
pub struct Pair {
    pub selector: u8,
    pub value: u64,
    pub closed: bool,
}

impl Pair {
    /// The cell at the front of these bytes, which are at least 40.
    pub fn at_front(bytes: &[u8]) -> Pair
        requires { 40 ≤ length bytes.now }
        ensures cell { HasCell result.selector result.value bytes.now }
        ensures opened { result.closed ≡ false }
    {
        let selector = bytes[0];
        let value = word_at(bytes, slot_of(selector));
        Pair {
            selector,
            value,
            closed: false,
        }
    }

    /// The cell on this disk, and its number.
    pub fn read<D: Disk>(disk: &mut D) -> Result<(Pair, u64), DiskFault>
        requires { WhereTold (content (D.state disk.old)) (λ bytes. 40 ≤ length bytes) }
        ensures cell { IfOk result
            (λ r. WhereTold (content (D.state disk.old)) (HasCell r.0.selector r.0.value)) }
        ensures value { IfOk result (λ r. r.1 ≡ r.0.value) }
        ensures opened { IfOk result (λ r. r.0.closed ≡ false) }
        ensures told { (D.state disk.new).told ≡ (D.state disk.old).told }
        ensures cause { HasCause (D.state disk.old).faults (D.state disk.new).faults result }
    {
        let mut bytes = [0; 40];
        disk.read_at(0, &mut bytes)?;
        let pair = Pair::at_front(&bytes);
        Ok((pair, pair.value))
    }

    /// Puts another number into the cell: it is written to the slot that isn't selected and made
    /// stable, and then the selector is. A closed cell refuses, and leaves the disk as it is.
    pub fn put<D: Disk>(&mut self, disk: &mut D, value: u64) -> Result<(), DiskFault>
        requires { self.old.closed ≡ false
            → EachNow (D.state disk.old) (HasCell self.old.selector self.old.value) }

        ensures cell { self.new.closed ≡ false
            → EachNow (D.state disk.new) (HasCell self.new.selector self.new.value) }
        ensures answer { IsPut self.old self.new value result }

        // Within the call each image is one from before it with the old number or the new one in its cell.
        ensures within { self.old.closed ≡ false → Within (D.state disk.old) (D.state disk.new)
            (PutsValue (IsImage (D.state disk.old)) self.old.value value) }
        ensures outside { OnOk result
            (Changes SameOutside (content (D.state disk.old)) (content (D.state disk.new))) }

        ensures cause { self.old.closed ≡ false
            → HasCause (D.state disk.old).faults (D.state disk.new).faults result }
        ensures stays { self.old.closed ≡ true → StaysClosed disk.old disk.new result }
    {
        if self.closed {
            return Err(DiskFault);
        }
        self.closed = true;
        let next = self.selector.wrapping_add(1);
        write_slot(disk, next, value)?;
        write_selector(disk, next)?;
        self.selector = next;
        self.value = value;
        self.closed = false;
        Ok(())
    }
}

// Makes the slot of this selector hold a number.
fn write_slot<D: Disk>(disk: &mut D, selector: u8, value: u64) -> Result<(), DiskFault>
    ensures written { OnOk result (Changes (Written (slot selector) (to_be_bytes w64 value))
        (content (D.state disk.old)) (content (D.state disk.new))) }
    ensures durable { OnOk result (Durable (D.state disk.new)) }
    ensures images { Elapses (Torn (slot selector) 8) (D.state disk.old) (D.state disk.new) }
    ensures cause { HasCause (D.state disk.old).faults (D.state disk.new).faults result }
{
    let bytes = value.to_be_bytes();
    write_through(disk, slot_of(selector) as u64, &bytes)?;
    Ok(())
}

// Makes the selector this one.
fn write_selector<D: Disk>(disk: &mut D, selector: u8) -> Result<(), DiskFault>
    ensures written { OnOk result (Changes (Written 0 (selector ∷ [])) (content (D.state disk.old))
        (content (D.state disk.new))) }
    ensures durable { OnOk result (Durable (D.state disk.new)) }
    ensures images { Elapses (Torn 0 1) (D.state disk.old) (D.state disk.new) }
    ensures cause { HasCause (D.state disk.old).faults (D.state disk.new).faults result }
{
    write_through(disk, 0, &[selector])?;
    Ok(())
}

// The place of the slot that is selected.
fn slot_of(selector: u8) -> usize
    ensures { result ≡ slot selector }
{
    if selector % 2 == 0 { 16 } else { 32 }
}

// The big-endian number at this place.
fn word_at(bytes: &[u8], at: usize) -> u64
    requires { at + 8 ≤ length bytes.now }
    ensures { result ≡ word at bytes.now }
{
    u64::from_be_bytes([
        bytes[at],
        bytes[at + 1],
        bytes[at + 2],
        bytes[at + 3],
        bytes[at + 4],
        bytes[at + 5],
        bytes[at + 6],
        bytes[at + 7],
    ])
}

/// The first byte that is no part of a cell and isn't zero: of bytes 1 to 15, 24 to 31 and those from 40
/// on.
pub fn first_nonzero(bytes: &[u8]) -> Option<usize>
    ensures none { IfNone result (AreZero (length bytes.now) bytes.now) }
    ensures found { IfSome result (λ at. IsFirstNonzero (length bytes.now) at bytes.now) }
{
    for (i, byte) in bytes.iter().enumerate() {
        if is_outside(i) && *byte != 0 {
            return Some(i);
        }
    }
    None
}

// Whether a byte is no part of the cell.
fn is_outside(k: usize) -> bool
    ensures { IsTrue result ↔ IsOutside k }
{
    (k >= 1 && k < 16) || (k >= 24 && k < 32) || k >= 40
}
