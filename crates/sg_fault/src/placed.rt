// A fault at a token.
ghost use Rattle.std.specs.Prelude.{◌≡◌};
ghost use Rattle.sg_fault.specs.Faults as spec;

use crate::kind_number;
use sg_lex::{ConfigFault, ConfigKind, Line};

/// A fault, and the token at which it stands.
#[derive(Clone, Copy, Drop)]
pub struct Placed {
    pub kind: ConfigKind,
    pub line: Line,
}

// A fault with a lower rank comes first.
fn rank(placed: Placed) -> u64
    ensures { result ≡ spec.rank placed }
{
    u64::from(placed.line.at) * 32 + kind_number(placed.kind)
}

fn first_of(placed: Placed, other: Placed) -> Placed
    ensures { result ≡ spec.first_of placed other }
{
    if rank(other) < rank(placed) {
        other
    } else {
        placed
    }
}

/// The fault that comes first: the one at the earlier token, and of two at one token the one whose kind
/// has the lower number.
pub fn earlier(found: Option<Placed>, other: Option<Placed>) -> Option<Placed>
    ensures { result ≡ spec.earlier found other }
{
    match (found, other) {
        (Some(placed), Some(next)) => Some(first_of(placed, next)),
        (Some(placed), None) => Some(placed),
        (None, other) => other,
    }
}

/// The fault with the file and the line of its token.
pub fn fault_at(placed: Placed) -> ConfigFault
    ensures { result ≡ spec.fault_at placed }
{
    ConfigFault {
        kind: placed.kind,
        file: placed.line.file,
        line: placed.line.line,
    }
}
