// Why a file isn't traced to its end.

use crate::Untraced;
use sg_loaded::Unloaded;

/// Why INPUT wasn't traced to its end.
#[derive(Drop)]
pub enum Unshown {
    /// The configuration file wasn't loaded, or has no such source.
    Unloaded(Unloaded),
    Untraced(Untraced),
}
