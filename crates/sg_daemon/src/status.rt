// How a command ends.
ghost use Rattle.std.specs.Prelude.{◌≡◌};
ghost use Rattle.sg_daemon.specs.Status.{code_of};

use sg_lex::ConfigFault;
use sg_run::End;

/// The answer of a command.
#[derive(Clone, Copy, PartialEq, Eq, Drop)]
pub enum Status {
    /// All was done that the words ask for, or how a run or a look at a store ended else.
    Ended(End),
    /// The words ask for nothing that is known.
    Usage,
    /// The configuration isn't valid.
    BadConfig(ConfigFault),
    /// A file of the configuration couldn't be read.
    ReadFault,
    /// What was to be said couldn't be said.
    SayFault,
    /// Memory ran out.
    NoMemory,
}

impl Status {
    /// The exit status of the process, 0 to 11.
    pub fn code(&self) -> u8
        ensures { result ≡ code_of self.now }
    {
        match self {
            Status::Ended(end) => end.code(),
            Status::Usage => 1,
            Status::BadConfig(_) => 2,
            Status::ReadFault => 3,
            Status::SayFault => 10,
            Status::NoMemory => 11,
        }
    }
}
