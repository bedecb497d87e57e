// A source and its turns.
ghost use Rattle.std.specs.Prelude.{◌≡◌, ◌≤◌, ◌<◌, ◌+◌, ◌&&◌, IfOk, IfErr, length};
ghost use Rattle.sg_device.specs.Inlet.{IsFresh};
ghost use Rattle.sg_route.specs.Offers.{SameRouter};
ghost use Rattle.sg_actor.specs.Sources.{source, IsReady};
ghost use Rattle.sg_actor.specs.Bringing.{is_nothing};
ghost use Rattle.sg_actor.specs.SourceTurns.{actor, FitsSource, TakesTurn, IsNewSource, bad_after};
ghost use Rattle.sg_actor.specs.Reading.{one_if};

use crate::position::{Position, store_position};
use crate::reader::{Reader, make_buffer, make_reader};
use crate::reading::{Doings, read_on};
use crate::{SourceSpec, Turned};
use sg_counter::Counter;
use sg_device::{Inlet, NoMemory};
use sg_route::Router;
use std::alloc::Global;
use std::sync::Wait;

/// Takes the records of an inlet into the flow core, a turn at a time.
pub struct SourceActor<R, I> {
    inlet: I,
    router: R,
    spec: SourceSpec,
    reader: Reader,
    buffer: Vec<u8>,
    position: Position,
    /// The parts given up for a bad count, 2^64 - 1 where there were more.
    bad_frames: u64,
}

/// Whether a turn rests, that is, did nothing with its inlet, and the credit is that of the turn
/// before.
fn is_resting(same: bool, doings: Doings) -> bool
    ensures { result ≡ (same && is_nothing doings) }
{
    same && !doings.pulled && !doings.admitted && !doings.gave_up
}

/// Counts a part that was given up. The count stands still at its end.
fn count_up(count: u64, gave_up: bool) -> u64
    ensures { result ≡ bad_after count (one_if gave_up) }
{
    if gave_up {
        count.saturating_add(1)
    } else {
        count
    }
}

impl<R: Router + Drop, I: Inlet> SourceActor<R, I> {
    /// A source over an inlet that gave nothing yet. Without memory the inlet comes back.
    pub fn new(
        alloc: Global,
        inlet: I,
        router: R,
        spec: SourceSpec,
    ) -> Result<SourceActor<R, I>, (I, NoMemory)>
        requires fresh { IsFresh (I.state inlet) }
        requires from { spec.from ≡ (I.state inlet).from }
        requires limit { 0 < spec.limit }
        requires some { 0 < spec.fetch }
        requires most { spec.fetch ≤ 1000 }
        ensures new { IfOk result
            (λ made. IsNewSource (R.offers router) (R.dests router) spec
            (actor (I.state inlet) made.reader made.buffer.items made.position made.bad_frames)) }
        ensures inlet { IfOk result (λ made. made.inlet ≡ inlet) }
        ensures router { IfOk result (λ made. made.router ≡ router) }
        ensures spec { IfOk result (λ made. made.spec ≡ spec) }
        ensures back { IfErr result (λ e. e.0 ≡ inlet) }
    {
        let buffer = match make_buffer(alloc, spec.stored) {
            Ok(buffer) => buffer,
            Err(e) => return Err((inlet, e)),
        };
        let reader = match make_reader(alloc, spec.kind, spec.limit, spec.from) {
            Ok(reader) => reader,
            Err(e) => return Err((inlet, e)),
        };
        Ok(SourceActor {
            inlet,
            router,
            spec,
            reader,
            buffer,
            position: Position {
                credit: None,
                asked: spec.from,
                broken: false,
            },
            bad_frames: 0,
        })
    }

    /// The number of parts given up for a bad count, 2^64 - 1 where there were more.
    pub fn bad_frames(&self) -> u64
        ensures { result ≡ self.now.bad_frames }
    {
        self.bad_frames
    }

    /// Whether a pull failed.
    pub fn failed(&self) -> bool
        ensures { result ≡ self.now.reader.failed }
    {
        self.reader.failed
    }

    /// Gives the inlet back, as the last turn left it. Takes no memory.
    pub fn into_inlet(self) -> I
        ensures { result ≡ self.inlet }
    {
        let SourceActor {
            inlet,
            router: _,
            spec: _,
            reader: _,
            buffer: _,
            position: _,
            bad_frames: _,
        } = self;
        inlet
    }
}

impl<R: Router, I: Inlet> SourceActor<R, I> {
    /// A turn: the source asks for its credit, takes records of its inlet into the core, and stores
    /// its position. It pulls once at most. Without memory all that was pulled and not admitted is
    /// kept.
    pub fn turn<T: Wait, C: Counter>(
        &mut self,
        rt: &T,
        alloc: Global,
        counter: &mut C,
    ) -> Result<Turned, NoMemory>
        requires left { 4 ≤ C.left counter.old }
        requires fits { FitsSource (C.setup counter.old) self.old.spec (R.inlets self.old.router)
            (R.dests self.old.router) }
        requires ready { IsReady (R.dests self.old.router) self.old.spec
            (source (I.state self.old.inlet) self.old.reader self.old.buffer.items) }
        ensures turn { TakesTurn (R.offers self.old.router) (R.dests self.old.router) self.old.spec
            C.step counter.old counter.new
            (actor (I.state self.old.inlet) self.old.reader self.old.buffer.items
            self.old.position self.old.bad_frames)
            (actor (I.state self.new.inlet) self.new.reader self.new.buffer.items
            self.new.position self.new.bad_frames) result }
        ensures router { SameRouter (R.offers self.old.router) (R.offers self.new.router)
            (R.inlets self.old.router) (R.inlets self.new.router) (R.dests self.old.router)
            (R.dests self.new.router) }
        ensures spec { self.new.spec ≡ self.old.spec }
        ensures setup { C.setup counter.new ≡ C.setup counter.old }
        ensures left { C.left counter.old ≤ C.left counter.new + 4 }
    {
        let credit = counter.credit(rt, self.spec.inlet);
        let same = self.position.note(credit);
        let doings = read_on(
            rt,
            alloc,
            counter,
            &self.spec,
            &mut self.router,
            &mut self.inlet,
            &mut self.reader,
            &mut self.buffer,
            credit,
        )?;
        self.bad_frames = count_up(self.bad_frames, doings.gave_up);
        let rests = is_resting(same, doings);
        let stored = store_position(
            rt,
            counter,
            &self.spec,
            &mut self.position,
            rests,
            self.reader.end,
        );
        Ok(Turned {
            did: !rests || stored,
            idle: doings.idle,
        })
    }
}
