// The files of a configuration.
ghost use Rattle.sg_outside.specs.World.{ReadsFile};

use crate::Machine;
use sg_device::FileRefusal;
use std::alloc::Global;

/// Where the files of a configuration are read from. Readings change nothing of the machine but what it tells of
/// those that failed.
pub trait Files: Machine {
    /// The whole file of this name, if it has at most 1,048,576 bytes.
    fn read(&mut self, alloc: Global, name: &[u8]) -> Result<Vec<u8>, FileRefusal>
        ensures { ReadsFile (Self.state self.old) (Self.state self.new) name.now 1048576 result };
}
