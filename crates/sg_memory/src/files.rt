// Files in memory.
ghost use Rattle.std.specs.Prelude.{◌≡◌, IfOk};
ghost use Rattle.std.specs.Option.{option_map};

use sg_device::{Name, NoMemory};
use std::alloc::Global;

/// A file, which no call changes.
#[derive(Drop)]
pub struct MemoryFile {
    pub name: Name,
    pub bytes: Vec<u8>,
}

impl MemoryFile {
    pub fn new(alloc: Global, name: &[u8], bytes: &[u8]) -> Result<MemoryFile, NoMemory>
        ensures name { IfOk result (λ file. file.name ≡ name.now) }
        ensures bytes { IfOk result (λ file. file.bytes.items ≡ bytes.now) }
    {
        Ok(MemoryFile {
            name: Name::new(alloc, name)?,
            bytes: bytes.to_vec(alloc)?,
        })
    }
}

ghost use Rattle.sg_memory.specs.Files.{file_of};

/// The first file of a name.
pub fn find<'a>(files: &'a [MemoryFile], name: &[u8]) -> Option<&'a MemoryFile>
    ensures { option_map (λ file. file.now.bytes.items) result ≡ file_of files.now name.now }
{
    for file in files {
        if file.name.bytes() == name {
            return Some(file);
        }
    }
    None
}
