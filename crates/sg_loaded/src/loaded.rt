// What a file comes to.

use sg_config::Config;
use sg_device::Name;
use sg_lex::ConfigFault;
use sg_list::Seq;
use sg_table::Table;

/// A configuration, and its log paths compiled.
#[derive(Drop)]
pub struct Loaded {
    pub config: Config,
    pub table: Table,
}

/// Why a file wasn't loaded.
#[derive(Drop)]
pub enum Unloaded {
    /// What is wrong, and the names of the files by number: the main file is 0.
    Bad(ConfigFault, Seq<Name>),
    /// The file of this name couldn't be read: the main one, or one that an `@include` asks for.
    Unread(Name),
    NoMemory,
}
