// What a destination knows of its outlet's failures.
ghost use Rattle.std.specs.Prelude.{◌≡◌, ◌≢◌, ◌≤◌, false, None, [], length};
ghost use Rattle.sg_actor.specs.Rendering.{most_entries};
ghost use Rattle.sg_actor.specs.Outages.{HasFailures, failed, with_taken, broken, is_idle, BeginsTurn, SendComesTo};

use crate::GivenUp;
use sg_device::{Frames, Outlet, Reopened, SendRefusal};

/// So many failures in a row end a destination that gives up.
const FAILURES: u8 = 3;

/// What a destination knows of its outlet's failures, and whether it is given up.
#[derive(Clone, Copy, PartialEq, Eq, Drop)]
pub struct Outage {
    /// The last send or reopening failed: the next turn begins with a reopening. That it was too
    /// early for a send is no failure.
    pub(crate) reopens: bool,
    /// The sends and reopenings that failed since a frame was taken, at most three.
    pub(crate) failures: u8,
    pub(crate) given_up: Option<GivenUp>,
}

impl Outage {
    /// Takes note of a send or reopening that failed.
    fn fail(&mut self, gives_up: bool)
        requires { self.old.failures ≤ 3 }
        ensures { self.new ≡ failed gives_up self.old }
    {
        self.reopens = true;
        self.failures = (self.failures + 1).min(FAILURES);
        if gives_up && self.failures == FAILURES {
            self.given_up = Some(GivenUp::Outlet);
        }
    }

    /// Takes note of so many frames that were taken.
    fn take(&mut self, taken: u32)
        ensures { self.new ≡ with_taken taken self.old }
    {
        if taken != 0 {
            self.failures = 0;
        }
    }

    /// Takes note of a disk-buffer whose store has failed.
    pub(crate) fn break_store(&mut self)
        ensures { self.new ≡ broken self.old }
    {
        if self.given_up.is_none() {
            self.given_up = Some(GivenUp::Store);
        }
    }
}

/// How a turn begins.
#[derive(Clone, Copy, PartialEq, Eq, Drop)]
pub(crate) enum BegunTurn {
    /// The outlet didn't fail last.
    Open,
    Reopened,
    Later,
    Failed,
}

/// Reopens an outlet that failed last.
pub(crate) fn reopen<O: Outlet>(outlet: &mut O, outage: &mut Outage, gives_up: bool) -> BegunTurn
    requires { HasFailures outage.old (O.state outlet.old) }
    ensures { BeginsTurn gives_up outage.old outage.new
        (O.state outlet.old) (O.state outlet.new) result }
{
    if !outage.reopens {
        return BegunTurn::Open;
    }
    match outlet.reopen() {
        Ok(Reopened::Ready) => {
            outage.reopens = false;
            BegunTurn::Reopened
        }
        Ok(Reopened::Later) => BegunTurn::Later,
        Err(_) => {
            outage.fail(gives_up);
            BegunTurn::Failed
        }
    }
}

/// What became of a send.
#[derive(Clone, Copy, PartialEq, Eq, Drop)]
pub(crate) struct Sent {
    /// So many of the first frames were taken.
    pub(crate) taken: u32,
    /// Memory ran out.
    pub(crate) starved: bool,
    /// It was too early for the rest.
    pub(crate) later: bool,
}

impl Sent {
    /// It was too early for all frames.
    pub(crate) fn idle(&self) -> bool
        ensures { result ≡ is_idle self.now.later self.now.taken }
    {
        self.later && self.taken == 0
    }
}

/// Sends the frames of a turn.
pub(crate) fn send<O: Outlet>(
    outlet: &mut O,
    frames: &Frames,
    outage: &mut Outage,
    gives_up: bool,
) -> Sent
    requires some { frames.now ≢ [] }
    requires few { length frames.now ≤ most_entries }
    requires failures { HasFailures outage.old (O.state outlet.old) }
    ensures { SendComesTo gives_up frames.now outage.old outage.new (O.state outlet.old)
        (O.state outlet.new) result }
{
    let before = outlet.taken();
    let result = outlet.send(frames);
    let taken = (outlet.taken() - before) as u32;
    outage.take(taken);
    match result {
        Ok(()) => Sent {
            taken,
            starved: false,
            later: false,
        },
        Err(SendRefusal::Fault) => {
            outage.fail(gives_up);
            Sent {
                taken,
                starved: false,
                later: false,
            }
        }
        Err(SendRefusal::Later) => Sent {
            taken,
            starved: false,
            later: true,
        },
        Err(SendRefusal::NoMemory) => Sent {
            taken,
            starved: true,
            later: false,
        },
    }
}
