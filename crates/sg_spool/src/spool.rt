// The disk-buffer on its disk.
ghost use Rattle.std.specs.Prelude.{◌≡◌, ◌↔◌, ◌≤◌, ◌<◌, ◌+◌, ◌-◌, ◌^◌, ◌++◌, [], ◌∷◌, List, ℕ, length, take, drop, map, OnOk, OnErr, IfOk, IfErr, Some, None, true, false, IsTrue};
ghost use Rattle.std.specs.Option.{option_map};
ghost use Rattle.sg_device.specs.Disk.{content, Within, EachNow, WhereTold};
ghost use Rattle.sg_stable.specs.Opening.{IsSynced, IsUnwritten};
ghost use Rattle.sg_spool.specs.Answers.{Stages, Appends, Commits, AdvancesSpool, Respells, IsFronted, IsFirstPayload, IsWalked, IsNextOf, IsWholeItem};
ghost use Rattle.sg_spool.specs.Calls.{SpoolLasts, LeavesImages, OnlyReadsSpool, IsOpenedSpool};
ghost use Rattle.sg_spool.specs.Lists.{IsEitherList};
ghost use Rattle.sg_spool.specs.Opening.{HasRingReason};
ghost use Rattle.sg_spool.specs.Places.{live, FitsRing, gate_past, Remains};
ghost use Rattle.sg_spool.specs.Ring.{Entries, IsList, IsLaid, space};
ghost use Rattle.sg_spool.specs.Rows.{listed};
ghost use Rattle.sg_spool.specs.View.{View, RingHolds, IsCompact, IsCompactIn};

use crate::advance::{advance_past, space_of};
use crate::commit::commit_rows;
use crate::open::look;
use crate::read::{copy_of, read_entry};
use crate::rewrite::{behind, rewrite_list};
use crate::room::{fits, stage_block};
use crate::{Appended, Block, Front, Recode, RewriteRefusal, Rows, Walked};
use sg_device::{Disk, DiskFault, NoMemory};
use sg_stable::{Pair, StoreRefusal};
use std::alloc::{AllocError, Global};
use std::marker::Model;

/// The reliable disk-buffer: a list of entries on one disk, which is whole after a power failure within
/// any call.
///
/// Payloads have 1 to 2^30 + 64 bytes. An entry takes 5 bytes more than its payload; the sum over the
/// entries, those staged too, is limited by the capacity. The first fault of the disk closes it: from then
/// on nothing is staged, and each call answers that the disk failed, and leaves the disk as it is. The
/// list may then be the one before that call or the one after it.
pub struct Spool<D: Disk> {
    disk: D,
    cell: Pair,
    capacity: u64,
    rows: Rows,
    front: Option<Vec<u8>>,
    closed: bool,
}

impl<D: Disk> Model for Spool<D> {
    ghost use Rattle.sg_spool.specs.View.{View, IsSoundSpool};
    ghost use Rattle.std.specs.Option.{option_map};

    ghost Value = { View D };

    ghost view = { λ s. record {
      disk = s.disk;
      capacity = s.capacity;
      rows = s.rows;
      front = option_map (λ v. v.items) s.front;
      closed = s.closed;
    } };

    ghost invariant = { λ s. IsSoundSpool D.state s.cell
        (record {
          disk = s.disk;
          capacity = s.capacity;
          rows = s.rows;
          front = option_map (λ v. v.items) s.front;
          closed = s.closed;
        }) };
}

impl<D: Disk> Spool<D> {
    /// Opens a store under this capacity, in bytes; what stands there already may exceed it. It begins
    /// with a sync, changes nothing, and takes no memory; but where that sync fails, a read may give another
    /// of the images since. A refusal gives the disk back.
    pub fn open(disk: D, capacity: u64) -> Result<Spool<D>, (D, StoreRefusal)>
        ensures list { IfOk result (λ spool. WhereTold (content (D.state disk))
            (λ bytes. (list : Entries) × IsList list bytes × RingHolds D.state spool list []
            × (spool.rows.count ≡ length list))) }
        ensures opened { IfOk result (IsOpenedSpool capacity) }
        ensures synced { IfOk result (λ spool. IsSynced (D.state disk) (D.state spool.disk)) }

        // The bound on the file's length, taken up again: any image of one within its bound is, and so is a fresh store.
        ensures compact { IfOk result (λ spool. (bytes : List ℕ)
            → content (D.state disk) ≡ Some bytes → IsCompactIn capacity bytes
            → IsCompact D.state spool) }

        ensures unwritten { IfErr result (λ e. IsUnwritten (D.state disk) (D.state e.0)) }
        ensures reason { IfErr result (λ e. HasRingReason (D.state disk) (D.state e.0) e.1) }
    {
        let mut disk = disk;
        match look(&mut disk) {
            Ok(found) => Ok(Spool {
                disk,
                cell: found.cell,
                capacity,
                rows: Rows::listed(found.places, found.count),
                front: None,
                closed: false,
            }),
            Err(refusal) => Err((disk, refusal)),
        }
    }

    /// Whether a payload of this length fits: with its gate, its length and a closed gate it is within
    /// the capacity, beside the entries that stand and those staged.
    pub fn fits(&self, length: u64) -> bool
        requires { length ≤ 2 ^ 62 }
        ensures fits { IsTrue result ↔ FitsRing self.now.capacity self.now.rows.ahead length }
        ensures space { self.now.closed ≡ false → WhereTold (content (D.state self.now.disk))
            (λ bytes. (list staged : Entries) → RingHolds D.state self.now list staged
            → live self.now.rows.ahead ≡ space (list ++ staged)) }
    {
        fits(self.rows.ahead, self.capacity, length)
    }

    /// Writes a payload behind those staged before; the list stays as it is until `commit`. Where there is
    /// no room behind them, which only a capacity greater than an earlier run's brings, those are put into
    /// the list first. It takes no memory.
    pub fn stage(&mut self, block: &Block) -> Appended
        ensures lasts { SpoolLasts D.state self.old self.new }
        ensures leaves { LeavesImages D.state self.old self.new (λ list staged. list ++ staged) }
        ensures answer { Stages D.state self.old self.new block.now result }
        ensures front { self.new.front ≡ self.old.front }
    {
        if self.closed {
            return Appended::DiskFailed;
        }
        if !fits(self.rows.ahead, self.capacity, block.size()) {
            return Appended::NoRoom;
        }
        let rows = self.rows;
        self.closed = true;
        self.rows = rows.unstaged();
        let Ok(next) = stage_block(&mut self.disk, &mut self.cell, rows, self.capacity, block)
        else {
            return Appended::DiskFailed;
        };
        self.rows = next;
        self.closed = false;
        Appended::Done
    }

    /// Puts all that is staged into the list: an image has the list with all of it or without. However many
    /// payloads that are, it syncs twice; where nothing is staged, it makes no call to the disk. It takes
    /// no memory.
    pub fn commit(&mut self) -> Result<(), DiskFault>
        ensures lasts { SpoolLasts D.state self.old self.new }
        ensures leaves { LeavesImages D.state self.old self.new (λ list staged. list ++ staged) }
        ensures answer { Commits D.state self.old self.new result }
        ensures quiet { self.old.rows.staged ≡ 0 → self.new ≡ self.old }
        ensures front { self.new.front ≡ self.old.front }
    {
        if self.closed {
            return Err(DiskFault);
        }
        if self.rows.staged == 0 {
            return Ok(());
        }
        let rows = self.rows;
        self.closed = true;
        self.rows = rows.unstaged();
        let next = commit_rows(&mut self.disk, rows)?;
        self.rows = next;
        self.closed = false;
        Ok(())
    }

    /// Puts an entry behind the list: it is staged and committed. It takes no memory.
    pub fn append(&mut self, block: &Block) -> Appended
        requires { self.old.rows.staged ≡ 0 }
        ensures lasts { SpoolLasts D.state self.old self.new }
        ensures leaves { LeavesImages D.state self.old self.new (λ list staged. list ++ block.now
            ∷ []) }
        ensures answer { Appends D.state self.old self.new block.now result }
        ensures front { self.new.front ≡ self.old.front }
    {
        match self.stage(block) {
            Appended::Done => {}
            Appended::NoRoom => return Appended::NoRoom,
            Appended::DiskFailed => return Appended::DiskFailed,
        }
        match self.commit() {
            Ok(()) => Appended::Done,
            Err(_) => Appended::DiskFailed,
        }
    }

    /// The first entry. Behind one that answered Item, with no call between but `fits`, `count`, `staged` or `head`,
    /// it reads nothing.
    pub fn front(&mut self, alloc: Global) -> Result<Front, NoMemory>
        requires { self.old.rows.staged ≡ 0 }
        ensures reads { OnlyReadsSpool D.state self.old self.new }
        ensures answer { IfOk result (IsFronted self.old self.new (D.state self.old.disk).faults
            (D.state self.new.disk).faults) }
        ensures first { IfOk result (IsFirstPayload (D.state self.old.disk)) }
        ensures no_memory { OnErr result (self.new.closed ≡ false) }
        ensures unread { OnErr result (self.new.front ≡ self.old.front) }
        ensures again { (payload : List ℕ) → self.old.front ≡ Some payload
            → self.new.disk ≡ self.old.disk }
    {
        if self.closed {
            return Ok(Front::DiskFailed);
        }
        if self.rows.count == 0 {
            return Ok(Front::Empty);
        }
        if let Some(payload) = &self.front {
            return Ok(Front::Item(copy_of(alloc, payload)?));
        }
        let list = self.rows.list;
        match read_entry(alloc, &mut self.disk, list.gate_past(list.head)) {
            Ok(payload) => {
                let copy = copy_of(alloc, &payload)?;
                self.front = Some(payload);
                Ok(Front::Item(copy))
            }
            Err(RewriteRefusal::NoMemory) => Err(AllocError),
            Err(RewriteRefusal::DiskFault) => {
                self.closed = true;
                Ok(Front::DiskFailed)
            }
        }
    }

    /// Takes the first entries off the list, so many: an image has the list with all of them or without
    /// any. Their lengths are read, but for the first one's behind a `front`. It takes no memory.
    pub fn advance(&mut self, n: u64) -> Result<(), DiskFault>
        requires some { 1 ≤ n }
        requires enough { n ≤ self.old.rows.count }
        requires unstaged { self.old.rows.staged ≡ 0 }
        ensures lasts { SpoolLasts D.state self.old self.new }
        ensures leaves { LeavesImages D.state self.old self.new (λ list staged. drop n list) }
        ensures answer { AdvancesSpool D.state self.old self.new n result }
    {
        if self.closed {
            return Err(DiskFault);
        }
        let first = length_of(&self.front);
        match space_of(&mut self.disk, self.rows.list, n, first) {
            Ok(size) => self.advance_over(n, size),
            Err(fault) => {
                self.closed = true;
                Err(fault)
            }
        }
    }

    /// The same of entries that take so many bytes, 5 and its length for each, as whoever put them there
    /// may know. It reads nothing.
    pub fn advance_over(&mut self, n: u64, size: u64) -> Result<(), DiskFault>
        requires some { 1 ≤ n }
        requires enough { n ≤ self.old.rows.count }
        requires unstaged { self.old.rows.staged ≡ 0 }
        requires inside { size ≤ live self.old.rows.list }
        requires sized { self.old.closed ≡ false → WhereTold (content (D.state self.old.disk))
            (λ bytes. (list : Entries) → IsList list bytes → size ≡ space (take n list)) }
        ensures lasts { SpoolLasts D.state self.old self.new }
        ensures leaves { LeavesImages D.state self.old self.new (λ list staged. drop n list) }
        ensures answer { AdvancesSpool D.state self.old self.new n result }
        ensures live { OnOk result (live self.new.rows.list + size ≡ live self.old.rows.list) }
    {
        if self.closed {
            return Err(DiskFault);
        }
        self.closed = true;
        let rows = self.rows;
        let next = advance_past(&mut self.disk, &mut self.cell, rows.list, size)?;
        self.rows = Rows::listed(next, rows.count - n);
        self.front = None;
        self.closed = false;
        Ok(())
    }

    /// The bytes that the entries take, those staged too: 5 and its length for each.
    pub fn live(&self) -> u64
        ensures live { result ≡ live self.now.rows.ahead }
        ensures list { self.now.rows.staged ≡ 0 → result ≡ live self.now.rows.list }
        ensures small { result < 2 ^ 63 }
        ensures space { self.now.closed ≡ false → self.now.rows.staged ≡ 0
            → WhereTold (content (D.state self.now.disk))
            (λ bytes. (list : Entries) → IsList list bytes → result ≡ space list) }
    {
        self.rows.ahead.live()
    }

    /// The number of entries of the list.
    pub fn count(&self) -> u64
        ensures count { result ≡ self.now.rows.count }
        ensures list { self.now.closed ≡ false → EachNow (D.state self.now.disk)
            (λ bytes. (list : Entries) → IsList list bytes → result ≡ length list) }
    {
        self.rows.count
    }

    /// The number of payloads that are staged.
    pub fn staged(&self) -> u64
        ensures { result ≡ self.now.rows.staged }
    {
        self.rows.staged
    }

    /// The place of the first entry's gate, or of the end's where there is no entry.
    pub fn head(&self) -> u64
        ensures head { result ≡ gate_past self.now.rows.list.jump self.now.rows.list.head }
        ensures laid { self.now.closed ≡ false → WhereTold (content (D.state self.now.disk))
            (λ bytes. (entries : Entries) × IsLaid self.now.rows.list.jump self.now.rows.list.head
            self.now.rows.list.end entries bytes) }
        ensures here { self.now.closed ≡ false → WhereTold (content (D.state self.now.disk))
            (λ bytes. (entries : Entries) × IsList entries bytes
            × Remains bytes self.now.rows.list.jump result entries self.now.rows.list.end) }
        ensures remains { self.now.closed ≡ false → EachNow (D.state self.now.disk)
            (λ bytes. (entries : Entries) → IsList entries bytes
            → Remains bytes self.now.rows.list.jump result entries self.now.rows.list.end) }
    {
        self.rows.list.gate_past(self.rows.list.head)
    }

    /// What stands at the gate of an entry of the list, or of its end. Nothing on the disk changes.
    pub fn item(&mut self, alloc: Global, gate: u64) -> Result<Walked, NoMemory>
        requires unstaged { self.old.rows.staged ≡ 0 }
        requires left { self.old.closed ≡ false → WhereTold (content (D.state self.old.disk))
            (λ bytes. (entries : Entries)
            × Remains bytes self.old.rows.list.jump gate entries self.old.rows.list.end) }
        ensures reads { OnlyReadsSpool D.state self.old self.new }
        ensures answer { IfOk result (IsWalked self.old self.new gate (D.state self.old.disk).faults
            (D.state self.new.disk).faults) }
        ensures next { IfOk result (λ walked. WhereTold (content (D.state self.old.disk))
            (λ bytes. (entries : Entries)
            → Remains bytes self.old.rows.list.jump gate entries self.old.rows.list.end
            → IsNextOf self.old gate bytes entries walked)) }
        ensures whole { IfOk result IsWholeItem }
        ensures no_memory { OnErr result (self.new.closed ≡ false) }
        ensures front { self.new.front ≡ self.old.front }
    {
        if self.closed {
            return Ok(Walked::DiskFailed);
        }
        if gate == self.rows.list.end {
            return Ok(Walked::Empty);
        }
        match read_entry(alloc, &mut self.disk, gate) {
            Ok(payload) => {
                let next = behind(gate, &payload);
                Ok(Walked::Item {
                    payload,
                    next: self.rows.list.gate_past(next),
                })
            }
            Err(RewriteRefusal::NoMemory) => Err(AllocError),
            Err(RewriteRefusal::DiskFault) => {
                self.closed = true;
                Ok(Walked::DiskFailed)
            }
        }
    }

    /// Spells each payload anew, behind all that the list uses: an image has the list or the new one. An
    /// empty list makes no call of the disk. Without memory the list is as before.
    pub fn rewrite<M: Recode>(
        &mut self,
        alloc: Global,
        recode: &mut M,
    ) -> Result<(), RewriteRefusal>
        requires { self.old.rows.staged ≡ 0 }
        ensures lasts { SpoolLasts D.state self.old self.new }
        ensures within { (list : Entries) → RingHolds D.state self.old list []
            → Within (D.state self.old.disk) (D.state self.new.disk)
            (IsEitherList list (map (M.meaning recode.old) list)) }
        ensures answer { Respells D.state self.old self.new (M.meaning recode.old) result }
        ensures empty { self.old.rows.count ≡ 0 → self.new ≡ self.old }
    {
        if self.closed {
            return Err(RewriteRefusal::DiskFault);
        }
        if self.rows.count == 0 {
            return Ok(());
        }
        let rows = self.rows;
        match rewrite_list(
            alloc,
            &mut self.disk,
            &mut self.cell,
            recode,
            rows.list,
            rows.count,
        ) {
            Ok(next) => {
                self.rows = Rows::listed(next, rows.count);
                self.front = None;
                Ok(())
            }
            Err(RewriteRefusal::NoMemory) => Err(RewriteRefusal::NoMemory),
            Err(RewriteRefusal::DiskFault) => {
                self.closed = true;
                Err(RewriteRefusal::DiskFault)
            }
        }
    }

    /// Gives the disk back, as it is.
    pub fn into_disk(self) -> D
        ensures { result ≡ self.disk }
    {
        let Spool {
            disk,
            cell: _,
            capacity: _,
            rows: _,
            front: _,
            closed: _,
        } = self;
        disk
    }
}

// The length of the first payload, where it was read.
fn length_of(front: &Option<Vec<u8>>) -> Option<u64>
    ensures { result ≡ option_map length (option_map (λ v. v.items) front.now) }
{
    match front {
        Some(payload) => Some(payload.len() as u64),
        None => None,
    }
}
