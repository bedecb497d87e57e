// What an inlet in memory was opened for.

ghost use Rattle.std.specs.Prelude.{◌+◌, ◌<◌, ◌^◌, length};

use sg_outside::InletSpec;

/// What an inlet was opened for; of a file the place where reading began, and the bytes that were left
/// then.
#[derive(Drop)]
pub struct MemoryOpenedInlet {
    pub(crate) spec: InletSpec,
    pub(crate) from: u64,
    pub(crate) left: Vec<u8>,
    ghost short: { from + length left.items < 2 ^ 63 },
}
