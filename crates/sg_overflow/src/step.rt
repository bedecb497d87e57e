// How the forwarding of held frames ends.
ghost use Rattle.std.specs.Prelude.{◌≡◌};

use sg_device::SendRefusal;

/// Why no more frames are forwarded for now.
#[derive(Clone, Copy, PartialEq, Eq, Drop)]
pub enum Stop {
    /// Nothing stops it.
    Open,
    /// The outlet failed.
    Outlet,
    /// It was too early for the outlet.
    Later,
    /// The store failed.
    Store,
    /// Memory ran out.
    NoMemory,
}

impl Stop {
    ghost use Rattle.sg_overflow.specs.Stops.{stop_of, refusal_of, is_open, is_store, is_refused};

    // Whether it goes on.
    pub(crate) fn is_open(self) -> bool
        ensures { result ≡ is_open self }
    {
        matches!(self, Stop::Open)
    }

    // Whether the store failed.
    pub(crate) fn is_store(self) -> bool
        ensures { result ≡ is_store self }
    {
        matches!(self, Stop::Store)
    }

    // Whether the outlet failed, or it was too early for it.
    pub(crate) fn is_refused(self) -> bool
        ensures { result ≡ is_refused self }
    {
        matches!(self, Stop::Outlet | Stop::Later)
    }

    // What an outlet's answer to a send means for the next one.
    pub(crate) fn of(answer: Result<(), SendRefusal>) -> Stop
        ensures { result ≡ stop_of answer }
    {
        match answer {
            Ok(()) => Stop::Open,
            Err(SendRefusal::Fault) => Stop::Outlet,
            Err(SendRefusal::Later) => Stop::Later,
            Err(SendRefusal::NoMemory) => Stop::NoMemory,
        }
    }

    // Why a frame isn't taken that can't be kept either.
    pub(crate) fn refusal(self) -> SendRefusal
        ensures { result ≡ refusal_of self }
    {
        match self {
            Stop::Outlet | Stop::Store => SendRefusal::Fault,
            Stop::Later => SendRefusal::Later,
            Stop::Open | Stop::NoMemory => SendRefusal::NoMemory,
        }
    }
}
