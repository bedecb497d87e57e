// By what a file is known from one run to the next.
use std::alloc::{AllocError, Global};
use std::fs::File;
use std::io;
use std::os::unix::fs::{FileExt, MetadataExt};

/// So many of a file's first bytes are counted in at most.
pub(crate) const FIRST: usize = 1_024;

/// A file's device, its inode, and a hash of its first bytes.
#[derive(Clone, Copy, PartialEq, Eq, Drop)]
pub(crate) struct Identity {
    device: u64,
    inode: u64,
    /// How many of its first bytes are counted in.
    pub(crate) count: u64,
    hash: u64,
}

impl Identity {
    /// That of an open file, with as many of its first bytes as it has, `most` and 1,024 at most.
    pub(crate) fn of(file: &File, most: u64) -> io::Result<Identity> {
        let about = file.metadata()?;
        let count = about.len().min(most).min(FIRST as u64);
        let mut bytes = [0u8; FIRST];
        let first = &mut bytes[..count as usize];
        file.read_exact_at(first, 0)?;
        Ok(Identity {
            device: about.dev(),
            inode: about.ino(),
            count,
            hash: hash_of(first),
        })
    }

    /// Whether this file has it: the inode, and the same first bytes. The number of a device may be another one
    /// after a restart of the machine, so it counts where there were no bytes alone.
    pub(crate) fn is_of(&self, file: &File) -> io::Result<bool> {
        let found = Identity::of(file, self.count)?;
        let begins = found.count == self.count && found.hash == self.hash;
        let lies = self.count > 0 || found.device == self.device;
        Ok(found.inode == self.inode && begins && lies)
    }

    /// One line: the device, the inode, the number of bytes, and the hash in hexadecimal digits.
    pub(crate) fn text(&self, alloc: Global) -> Result<String, AllocError> {
        let Identity {
            device,
            inode,
            count,
            hash,
        } = *self;
        format!(in alloc; "{device} {inode} {count} {hash:016x}\n")
    }

    /// What a line says. None where it isn't of that form.
    pub(crate) fn read(line: &str) -> Option<Identity> {
        let (device, rest) = line.strip_suffix('\n')?.split_once(' ')?;
        let (inode, rest) = rest.split_once(' ')?;
        let (count, hash) = rest.split_once(' ')?;
        Some(Identity {
            device: number(device)?,
            inode: number(inode)?,
            count: number(count)?,
            hash: u64::from_str_radix(hash, 16).ok()?,
        })
    }
}

fn number(word: &str) -> Option<u64> {
    word.parse::<u64>().ok()
}

// FNV-1a of 64 bits.
fn hash_of(bytes: &[u8]) -> u64 {
    let mut hash: u64 = 0xcbf2_9ce4_8422_2325;
    for byte in bytes {
        hash = (hash ^ u64::from(*byte)).wrapping_mul(0x0000_0100_0000_01b3);
    }
    hash
}
