// How a run ended.
ghost use Rattle.std.specs.Prelude.{◌≡◌};
ghost use Rattle.sg_run.specs.Ends.{code_of, quiet_end, end_after, early_end};

use sg_serve::{Device, Early, Ended, Fault};

/// How a run of a configuration ended. A device goes by its number in the order of the configuration.
#[derive(Clone, Copy, PartialEq, Eq, Drop)]
pub enum End {
    /// Nothing failed, and nothing was left to do.
    Clean,
    /// A device couldn't be opened.
    OpenFault(Device),
    /// The bytes of a store can't be read from this place on.
    Damage { store: u32, at: u64 },
    /// A destination was given up, as its outlet failed.
    SinkFault(u32),
    /// A store failed.
    DiskFault(u32),
    /// A pull of an inlet failed.
    InletFault(u32),
    /// All rounds were run, and the last one did something.
    RoundsSpent,
}

/// How a run ended, and the text that is to be said of it: the report, or else the line of what kept the
/// rounds from beginning.
#[derive(Drop)]
pub struct Outcome {
    pub end: End,
    pub text: Vec<u8>,
}

impl End {
    /// The exit status of the process, 0 or 4 to 9.
    pub fn code(&self) -> u8
        ensures { result ≡ code_of self.now }
    {
        match self {
            End::Clean => 0,
            End::OpenFault(_) => 4,
            End::Damage { .. } => 5,
            End::SinkFault(_) => 6,
            End::DiskFault(_) => 7,
            End::InletFault(_) => 8,
            End::RoundsSpent => 9,
        }
    }
}

fn quiet(fault: Option<Fault>) -> End
    ensures { result ≡ quiet_end fault }
{
    match fault {
        Some(Fault::Sink(d)) => End::SinkFault(d),
        Some(Fault::Disk(s)) => End::DiskFault(s),
        Some(Fault::Inlet(i)) => End::InletFault(i),
        None => End::Clean,
    }
}

/// How a run ended whose rounds ended so, and in which this failed first; none where memory ran out.
pub(crate) fn after_rounds(ended: Ended, fault: Option<Fault>) -> Option<End>
    ensures { result ≡ end_after ended fault }
{
    match ended {
        Ended::Quiet => Some(quiet(fault)),
        Ended::RoundsSpent => Some(End::RoundsSpent),
        Ended::NoMemory => None,
    }
}

/// How a run ended whose rounds didn't begin; none where memory ran out.
pub(crate) fn before_rounds(early: Early) -> Option<End>
    ensures { result ≡ early_end early }
{
    match early {
        Early::OpenFault(device) => Some(End::OpenFault(device)),
        Early::Damage { store, at } => Some(End::Damage { store, at }),
        Early::DiskFault(s) => Some(End::DiskFault(s)),
        Early::NoMemory => None,
    }
}
