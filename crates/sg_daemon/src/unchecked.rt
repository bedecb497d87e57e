// Why a file isn't said to be a configuration.
ghost use Rattle.std.specs.Prelude.{◌≡◌};
ghost use Rattle.sg_daemon.specs.declared.unchecked.Unchecked.TheVariants.{NoMemory as LacksMemory};

use sg_device::Name;
use sg_lex::ConfigFault;
use sg_list::Seq;
use std::alloc::AllocError;

/// Why a file isn't said to be a configuration.
#[derive(Drop)]
pub enum Unchecked {
    /// What is wrong, and the names of the files by number: the main file is 0.
    Bad(ConfigFault, Seq<Name>),
    /// The file of this name couldn't be read.
    Unread(Name),
    /// That it is one couldn't be said.
    SayFault,
    NoMemory,
}

impl From<AllocError> for Unchecked {
    ghost from_gives = { λ _ unchecked. unchecked ≡ LacksMemory };

    fn from(_: AllocError) -> Self {
        Unchecked::NoMemory
    }
}
