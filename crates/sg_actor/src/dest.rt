// A destination and its turns.
ghost use Rattle.std.specs.Prelude.{◌≡◌, ◌≤◌, ◌<◌, ◌+◌, IfOk, IfErr, length, None, false};
ghost use Rattle.sg_device.specs.Outlet.{IsUnusedOutlet};
ghost use Rattle.sg_actor.specs.Outages.{HasFailures};
ghost use Rattle.sg_actor.specs.DestTurns.{SendsTurn, IsNewDest};

use crate::delivering::deliver_front;
use crate::outage::{BegunTurn, Outage, reopen};
use crate::rendering::DestSpec;
use crate::{GivenUp, Turned};
use sg_counter::Settler;
use sg_device::{Frames, NoMemory, Outlet};
use sg_outfmt::Shape;
use sg_template::Env;
use std::alloc::Global;
use std::sync::Wait;

/// Takes the entries of a destination of the flow core to an outlet, a turn at a time.
pub struct DestActor<O> {
    outlet: O,
    spec: DestSpec,
    /// The frames that were sent last, for their memory.
    frames: Frames,
    /// It was too early for all of them.
    waits: bool,
    outage: Outage,
}

impl<O: Outlet> DestActor<O> {
    /// A destination over an outlet that took nothing yet. Where it gives up, it does at the third
    /// send or reopening that fails with no frame taken between them; else it goes on for ever.
    /// Takes no memory.
    pub fn new(
        alloc: Global,
        outlet: O,
        shape: Shape,
        env: Env,
        dest: u32,
        gives_up: bool,
    ) -> Result<DestActor<O>, (O, NoMemory)>
        requires { IsUnusedOutlet (O.state outlet) }
        ensures new { IfOk result
            (λ made. IsNewDest dest gives_up shape env made.spec made.outage (O.state outlet)) }
        ensures outlet { IfOk result (λ made. made.outlet ≡ outlet) }
        ensures back { IfErr result (λ e. e.0 ≡ outlet) }
    {
        Ok(DestActor {
            outlet,
            spec: DestSpec {
                dest,
                shape,
                env,
                gives_up,
            },
            frames: Frames::new(alloc),
            waits: false,
            outage: Outage {
                reopens: false,
                failures: 0,
                given_up: None,
            },
        })
    }

    /// A turn: where the outlet failed last it is reopened; then the destination asks for its first
    /// entries, sends their frames in one call, settles as many entries as frames were taken, and
    /// refills. Without memory those that were taken are settled all the same. Where it was too early
    /// for the rest the next turn sends again, without a reopening; where it was for all, the turn was
    /// idle.
    pub fn turn<T: Wait, C: Settler<O>>(
        &mut self,
        rt: &T,
        alloc: Global,
        counter: &mut C,
    ) -> Result<Turned, NoMemory>
        requires left { 4 ≤ C.left counter.old }
        requires dest { self.old.spec.dest < length (C.setup counter.old).dests }
        requires failures { HasFailures self.old.outage (O.state self.old.outlet) }
        ensures turn { SendsTurn self.old.spec C.step counter.old counter.new self.old.outage
            self.new.outage (O.state self.old.outlet) (O.state self.new.outlet) result }
        ensures spec { self.new.spec ≡ self.old.spec }
        ensures failures { HasFailures self.new.outage (O.state self.new.outlet) }
        ensures setup { C.setup counter.new ≡ C.setup counter.old }
        ensures left { C.left counter.old ≤ C.left counter.new + 4 }
    {
        if self.outage.given_up.is_some() {
            return Ok(Turned {
                did: false,
                idle: false,
            });
        }
        match reopen(&mut self.outlet, &mut self.outage, self.spec.gives_up) {
            BegunTurn::Later => Ok(Turned {
                did: false,
                idle: true,
            }),
            BegunTurn::Failed => Ok(Turned {
                did: true,
                idle: false,
            }),
            BegunTurn::Reopened => {
                let given = deliver_front(
                    rt,
                    alloc,
                    counter,
                    &self.spec,
                    &mut self.outlet,
                    &mut self.frames,
                    &mut self.waits,
                    &mut self.outage,
                )?;
                Ok(Turned {
                    did: !given.idle,
                    idle: given.idle,
                })
            }
            BegunTurn::Open => {
                let given = deliver_front(
                    rt,
                    alloc,
                    counter,
                    &self.spec,
                    &mut self.outlet,
                    &mut self.frames,
                    &mut self.waits,
                    &mut self.outage,
                )?;
                Ok(given)
            }
        }
    }

    /// Whether the outlet failed last, and is to be reopened.
    pub fn fails(&self) -> bool
        ensures { result ≡ self.now.outage.reopens }
    {
        self.outage.reopens
    }

    /// Why the destination is given up, where it is.
    pub fn given_up(&self) -> Option<GivenUp>
        ensures { result ≡ self.now.outage.given_up }
    {
        self.outage.given_up
    }

    /// Gives the outlet back, as the last turn left it. Takes no memory.
    pub fn into_outlet(self) -> O
        ensures { result ≡ self.outlet }
    {
        let DestActor {
            outlet,
            spec: _,
            frames: _,
            waits: _,
            outage: _,
        } = self;
        outlet
    }
}
