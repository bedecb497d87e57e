// Reads, gone on with where a signal interrupts them, and a whole file within a limit.
ghost use Rattle.std.specs.Prelude.{◌≡◌, ◌≤◌, length, IfOk};
ghost use Rattle.sg_file.specs.Reading.{FileReads};

use crate::Health;
use crate::open::{open_to_read, path_text};
use sg_device::FileRefusal;
use std::alloc::Global;
use std::fs::File;
use std::io::{self, ErrorKind, Read};

const PIECE: usize = 16_384;

/// One read, made again where a signal interrupts it: the number of bytes, 0 at the end.
pub fn read_some<R: Read>(from: &mut R, into: &mut [u8]) -> io::Result<usize>
    ensures bound { IfOk result (λ len. len ≤ length into.new) }
    ensures size { length into.new ≡ length into.old }
{
    for _ in 0..u64::MAX {
        match from.read(into) {
            Ok(len) => return Ok(len),
            Err(error) if error.kind() == ErrorKind::Interrupted => {}
            Err(error) => return Err(error),
        }
    }
    Err(io::Error::from(ErrorKind::Interrupted))
}

/// The whole regular file of this path, which has at most so many bytes. No more than the limit and
/// a piece is read. A reading that fails is counted, and told on standard error.
pub fn read_file(
    alloc: Global,
    rt: HostRuntime,
    faults: &mut u64,
    path: &[u8],
    limit: u64,
) -> Result<Vec<u8>, FileRefusal>
    ensures { FileReads faults.old faults.new limit result }
{
    let mut health = Health::new(alloc, rt, "file", path)?;
    let result = match open_by_name(&rt, path) {
        Ok(mut file) => read_rest(alloc, &mut file, limit, &mut health),
        Err(error) => {
            health.fails("open", &error);
            Err(FileRefusal::Failed)
        }
    };
    if result == Err(FileRefusal::Failed) {
        *faults = faults.saturating_add(1);
    }
    result
}

fn open_by_name(rt: &HostRuntime, path: &[u8]) -> io::Result<File> {
    open_to_read(rt, path_text(path)?)
}

fn read_rest(
    alloc: Global,
    file: &mut File,
    limit: u64,
    health: &mut Health,
) -> Result<Vec<u8>, FileRefusal>
    ensures { IfOk result (λ bytes. length bytes.items ≤ limit) }
{
    let mut bytes = Vec::new(alloc);
    let mut piece = [0u8; PIECE];
    for _ in 0..u64::MAX {
        let len = match read_some(file, &mut piece) {
            Ok(len) => len,
            Err(error) => {
                health.fails("read", &error);
                return Err(FileRefusal::Failed);
            }
        };
        if len == 0 {
            return Ok(bytes);
        }
        if len as u64 > limit - bytes.len() as u64 {
            return Err(FileRefusal::TooLong);
        }
        bytes.extend_from_slice(&piece[..len])?;
    }
    Err(FileRefusal::Failed)
}
