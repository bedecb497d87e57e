// Entries of 200 bytes in the file of a disk-buffer.
ghost use Rattle.std.specs.Prelude.{◌≡◌, IfOk, length};

use sg_file::FileDisk;
use sg_spool::{Appended, Block, Spool};
use std::alloc::{AllocError, Global};

const CAPACITY: u64 = 1 << 40;

// An entry up to the text of its one pair, MESSAGE, which has 142 bytes.
const FRONT: &[u8; 58] =
    b"\x02\x01\0\0\0\0\0\0\0\0\0\0\0\x04\x0d\0\0\0\0\0\0\0\0\0\0\0\0\0\0\0\0\0\0\0\0\0\0\0\0\0\0\0\x01\0\0\0\x07MESSAGE\0\0\0\x8e";

// An entry of 200 bytes.
fn entry(alloc: Global) -> Result<Vec<u8>, AllocError>
    ensures { IfOk result (λ entry. length entry.items ≡ 200) }
{
    let mut payload = FRONT.to_vec(alloc)?;
    payload.resize(200, b'x')?;
    Ok(payload)
}

// Stages and commits entries. Whether all of them were taken.
fn fill(spool: &mut Spool<FileDisk>, block: &Block, commits: u64, staged: u64) -> bool {
    for _ in 0..commits {
        for _ in 0..staged {
            if spool.stage(block) != Appended::Done {
                return false;
            }
        }
        if spool.commit().is_err() {
            return false;
        }
    }
    true
}

/// Opens the file, or makes it, and fills it. Whether all entries were taken.
pub(crate) fn run(rt: HostRuntime, path: &str, commits: u64, staged: u64) -> bool {
    let alloc = rt.alloc();
    let Ok(disk) = FileDisk::open(alloc, rt, path.as_bytes(), Some(128)) else {
        return false;
    };
    let Ok(payload) = entry(alloc) else {
        return false;
    };
    let Ok(block) = Block::new(alloc, payload) else {
        return false;
    };
    let Ok(mut spool) = Spool::open(disk, CAPACITY) else {
        return false;
    };
    let good = fill(&mut spool, &block, commits, staged);
    let _ = spool.into_disk();
    good
}
