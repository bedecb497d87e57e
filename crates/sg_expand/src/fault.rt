// What an expansion gives, and why there is none.
ghost use Rattle.std.specs.Prelude.{◌≡◌};
ghost use Rattle.sg_expand.specs.declared.fault.ExpandStop.TheVariants.{NoMemory as StopNoMemory};
ghost use Rattle.sg_expand.specs.Faults.{fault_at};

use sg_block::FileLine;
use sg_device::Name;
use sg_lex::{ConfigFault, ConfigKind, Token};
use sg_list::Seq;
use std::alloc::{AllocError, AllocFailed};

/// The tokens of a whole configuration, and the names of its files by number: the main file is 0,
/// and each reading of an included file takes the next number.
#[derive(Drop)]
pub struct Expanded {
    pub tokens: Seq<Token>,
    pub names: Seq<Name>,
}

/// Why a configuration has no expansion.
#[derive(Drop)]
pub enum ExpandRefusal {
    /// A fault, and the names of the files that were numbered so far.
    Bad {
        fault: ConfigFault,
        names: Seq<Name>,
    },
    /// The file of this name couldn't be read, as an `@include` asks.
    ReadFault(Name),
    NoMemory,
}

/// Why an expansion stops.
#[derive(Drop)]
pub enum ExpandStop {
    Fault(ConfigFault),
    ReadFault(Name),
    NoMemory,
}

impl From<AllocError> for ExpandStop {
    ghost from_gives = { λ _ stop. stop ≡ StopNoMemory };

    fn from(_: AllocError) -> Self {
        ExpandStop::NoMemory
    }
}

impl<T: Drop> From<AllocFailed<T>> for ExpandStop {
    ghost from_gives = { λ _ stop. stop ≡ StopNoMemory };

    fn from(_: AllocFailed<T>) -> Self {
        ExpandStop::NoMemory
    }
}

pub fn fault_at(kind: ConfigKind, line: FileLine) -> ConfigFault
    ensures { result ≡ fault_at kind line }
{
    ConfigFault {
        kind,
        file: line.file,
        line: line.line,
    }
}
