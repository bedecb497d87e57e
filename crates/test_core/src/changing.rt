// The first message of a disk-buffer whose store is written over, or gives fewer bytes, while it is open.
ghost use Rattle.std.specs.Prelude.{◌≡◌, false};

use sg_buffer::{first_messages, look};
use sg_device::{Disk, DiskFault};
use sg_msg::Message;
use sg_spool::Spool;
use std::alloc::Global;
use std::test::Fail;

// Behind 64 zeros an open gate, the length of the entry and the entry in format 2.
const ONE: &str =
    "01 0000003d 02 01 00000000 0000000000000004 0d 0000000000000000 0000 0000000000000000 0000 00000000 00000001 00000007 4d455353414745 00000003 6f6e65 00";

// The entry's first byte, which tells its format.
const FORMAT: usize = 69;

// Behind so many reads the byte that tells the entry's format is this one, and a read gives so many bytes
// at most.
#[derive(Clone, Copy)]
struct StoreChange {
    until: u64,
    format: u8,
    most: usize,
}

// A disk that tells nothing.
#[derive(Drop)]
struct ChangingDisk {
    bytes: Vec<u8>,
    reads: u64,
    change: StoreChange,
    faults: u64,
}

impl Disk for ChangingDisk {
    ghost use Rattle.std.specs.Prelude.{None};
    ghost use Rattle.test_core.specs.NothingTold.{nothing_told};

    ghost state = { λ disk. record { told = None; faults = disk.faults } };

    ghost short = { λ disk bytes told. absurd (nothing_told bytes told) };

    fn len(&mut self) -> Result<u64, DiskFault> {
        Ok((self.bytes.len() as u64).min((1 << 63) - 1))
    }

    fn read_at(&mut self, at: u64, into: &mut [u8]) -> Result<usize, DiskFault> {
        self.reads = self.reads.saturating_add(1);
        let size = self.bytes.len();
        let start = if at < size as u64 { at as usize } else { size };
        let late = self.reads > self.change.until;
        let most = if late { self.change.most } else { size };
        let count = into.len().min(size - start).min(most);
        into[..count].copy_from_slice(&self.bytes[start..start + count]);
        if late && FORMAT >= start && FORMAT - start < count {
            into[FORMAT - start] = self.change.format;
        }
        Ok(count)
    }

    fn write_at(&mut self, _at: u64, _from: &[u8]) -> Result<(), DiskFault> {
        self.faults = self.faults.saturating_add(1);
        Err(DiskFault)
    }

    fn sync(&mut self) -> Result<(), DiskFault> {
        Ok(())
    }
}

fn store(alloc: Global) -> Result<Vec<u8>, Fail> {
    let mut bytes = Vec::new(alloc);
    bytes.resize(64, 0)?;
    for word in ONE.split(' ') {
        let part = hex::decode(alloc, word)?;
        bytes.extend_from_slice(&part)?;
    }
    bytes.resize(131, 0)?;
    Ok(bytes)
}

fn says(message: &Message, name: &[u8], text: &[u8]) -> bool {
    match message.get(name) {
        Some(value) => value.starts_with(text),
        None => false,
    }
}

// The payload that spells no entry, in a message of PRI 43.
fn is_unread(message: &Message, text: &[u8]) -> bool {
    message.pri() == 43
        && says(message, b"PROGRAM", b"syslog-ng")
        && says(message, b"MESSAGE", text)
}

fn is_long(message: &Message, length: usize) -> bool {
    match message.get(b"MESSAGE") {
        Some(value) => value.len() == length,
        None => false,
    }
}

// `one` where it is read as it stood, `unread` where it spells no entry any more, `cut` where five of its
// bytes are read.
fn said_by(message: &Message) -> &'static str {
    if says(message, b"MESSAGE", b"one") {
        return "one";
    }
    if is_unread(message, b"Error processing log message: \x09\x01") {
        return "unread";
    }
    let cut = b"Error processing log message: \x02\x01\0\0\0";
    if is_unread(message, cut) && is_long(message, cut.len()) {
        return "cut";
    }
    "another"
}

fn first_of(alloc: Global, spool: &mut Spool<ChangingDisk>) -> Result<&'static str, Fail>
    requires open { spool.old.closed ≡ false }
    requires unstaged { spool.old.rows.staged ≡ 0 }
{
    if look(alloc, spool).is_err() {
        return Ok("damaged");
    }
    if spool.count() != 1 {
        return Ok("another");
    }
    let messages = first_messages(alloc, spool, 1)?;
    match messages.first() {
        Some(message) => Ok(said_by(message)),
        None => Ok("none"),
    }
}

// What is read of a store that changes.
fn reads(alloc: Global, change: StoreChange) -> Result<&'static str, Fail> {
    let disk = ChangingDisk {
        bytes: store(alloc)?,
        reads: 0,
        change,
        faults: 0,
    };
    match Spool::open(disk, 1000) {
        Ok(mut spool) => {
            let said = first_of(alloc, &mut spool);
            let _ = spool.into_disk();
            said
        }
        Err(_) => Ok("damaged"),
    }
}

// How often the first message is as the word says, where the store changes behind ever more reads: before that
// it is damaged, and later it is read as it stood. Memory never lacks for it.
fn count_of(alloc: Global, format: u8, most: usize, word: &str) -> Result<u64, Fail> {
    let mut count: u64 = 0;
    for until in 0..31 {
        let said = reads(
            alloc,
            StoreChange {
                until,
                format,
                most,
            },
        )?;
        if said == word {
            count = count.saturating_add(1);
        } else if said != "one" && (said != "damaged" || count > 0) {
            return Ok(0);
        }
    }
    Ok(count)
}

#[test]
fn changed_while_open(rt: HostRuntime) -> Result<(), Fail> {
    let alloc = rt.alloc();
    assert!(rt; count_of(alloc, 9, 131, "unread")? > 0);
    assert!(rt; count_of(alloc, 2, 5, "cut")? > 0);
    let late = StoreChange {
        until: 30,
        format: 9,
        most: 5,
    };
    assert_eq!(rt; reads(alloc, late)?, "one");
    Ok(())
}
