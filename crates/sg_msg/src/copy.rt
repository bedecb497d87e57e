// Bytes in memory of their own.
ghost use Rattle.std.specs.Prelude.{◌≡◌, IfOk};

use bytes::Bytes;
use std::alloc::{AllocError, Global};

/// The same bytes in memory of their own. What keeps a few bytes of a large block for long keeps a
/// copy, so that the block is given back.
pub fn copied(alloc: Global, bytes: &Bytes) -> Result<Bytes, AllocError>
    ensures { IfOk result (λ own. own ≡ bytes.now) }
{
    Bytes::copy_from_slice(alloc, bytes.as_slice())
}
