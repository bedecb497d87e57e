// The hub.
ghost use Rattle.std.specs.Prelude.{◌≡◌, ◌<◌, ◌-◌, ◌^◌, IfOk, IfErr};
ghost use Rattle.sg_booth.specs.Desks.{IsDeskOf, ArePlacesOrdered, first_desk, HasTurned, fresh_desk, receipt_of, without_calls, HasJoined, HasClosed};
ghost use Rattle.sg_core.specs.Calls.{Serves};
ghost use Rattle.sg_hub.specs.Offices.{MayServe};

use crate::office::CoreOffice;
use sg_booth::{Booth, Desk};
use sg_core::Core;
use sg_counter::{CoreCall, CoreReply};
use sg_device::Disk;
use std::alloc::{AllocError, Global};
use std::marker::Model;
use std::sync::Wait;

/// A handle to a hub: how many calls it has left, and what it has seen of the history.
pub type Seat<D> = Desk<CoreOffice<D>>;

/// A flow core behind a lock.
pub struct Hub<D: Disk> {
    booth: Booth<CoreOffice<D>>,
    alloc: Global,
}

impl<D: Disk> Model for Hub<D> {
    ghost use Rattle.sg_hub.specs.Seats.{HubState};

    ghost Value = { HubState };

    ghost view = { λ hub. hub.booth };
}

impl<D: Disk> Hub<D> {
    /// A hub, and its first seat, which has a turn for each call that the core has left. Without memory
    /// the core comes back.
    pub fn new(alloc: Global, core: Core<D>) -> Result<(Hub<D>, Seat<D>), (Core<D>, AllocError)>
        requires room { core.calls < 2 ^ 54 }
        ensures made { IfOk result (λ r. r.0.made ≡ core) }
        ensures turns { IfOk result (λ r. r.0.turns ≡ 2 ^ 54 - 1 - core.calls) }
        ensures seat { IfOk result (λ r. r.1 ≡ first_desk r.0) }
        ensures back { IfErr result (λ r. r.0 ≡ core) }
    {
        let turns = (1 << 54) - 1 - core.calls();
        match Booth::new(alloc, CoreOffice::new(core), turns) {
            Ok((booth, seat)) => Ok((Hub { booth, alloc }, seat)),
            Err((office, e)) => Err((office.into_core(), e)),
        }
    }

    /// A seat with so many of the seat's turns, which has seen what that has seen. Takes no memory.
    pub fn split(&self, seat: &mut Seat<D>, turns: u64) -> Seat<D>
        requires seat { IsDeskOf self.now seat.old }
        requires left { turns < seat.old.left }
        ensures old { seat.new ≡ record seat.old { left = seat.old.left - turns } }
        ensures new { result ≡ fresh_desk seat.old turns }
    {
        self.booth.split(seat, turns)
    }

    /// A receipt of the seat's calls so far: a seat without turns, which has them and has seen what the seat
    /// has. Where it is joined into another seat, the history of the hub's close has these calls, whatever
    /// becomes of the seat itself, by the law `receipts_stand`. Takes no memory.
    pub fn receipt(&self, seat: &mut Seat<D>) -> Seat<D>
        requires seat { IsDeskOf self.now seat.old }
        ensures old { seat.new ≡ without_calls seat.old }
        ensures new { result ≡ receipt_of seat.old }
        ensures ordered { ArePlacesOrdered result }
    {
        self.booth.receipt(seat)
    }

    /// The seat takes over the other one's turns and calls, and has seen what both had.
    pub fn join(&self, seat: &mut Seat<D>, other: Seat<D>)
        requires seat { IsDeskOf self.now seat.old }
        requires other { IsDeskOf self.now other }
        ensures { HasJoined seat.old other seat.new }
    {
        self.booth.join(seat, other);
    }

    /// The core, as its history left it. It may wait.
    pub fn close<R: Wait>(self, rt: &R, seat: Seat<D>) -> Core<D>
        requires seat { IsDeskOf self seat }
        requires left { 0 < seat.left }
        ensures { HasClosed Serves self seat result }
    {
        let Hub { booth, alloc: _ } = self;
        booth.close(rt, seat).into_core()
    }

    // A call of the seat. It may wait.
    pub(crate) fn turn<R: Wait>(&self, rt: &R, seat: &mut Seat<D>, call: CoreCall) -> CoreReply
        requires seat { IsDeskOf self.now seat.old }
        requires left { 0 < seat.old.left }
        requires may { MayServe self.now.made call }
        ensures turned { HasTurned Serves self.now.made seat.old call result seat.new }
    {
        self.booth.turn(rt, self.alloc, seat, call)
    }
}
