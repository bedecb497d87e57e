// A seat lends the calls of its hub's core.
ghost use Rattle.std.specs.Prelude.{◌≡◌, ◌≤◌, ◌<◌, ◌+◌, Ok, Err, MatchResult, IfErr, length};
ghost use Rattle.sg_booth.specs.Desks.{IsDeskOf};
ghost use Rattle.sg_device.specs.Outlet.{count_of};
ghost use Rattle.sg_standing.specs.States.{setup_of};
ghost use Rattle.sg_counter.specs.Bringing.{records_back};
ghost use Rattle.sg_counter.specs.declared.calls.CoreCall.{CoreCall as ACall};
ghost use Rattle.sg_counter.specs.declared.calls.CoreReply.{CoreReply as AReply};
ghost use Rattle.sg_hub.specs.Counts.{CountsSettled};
ghost use Rattle.sg_hub.specs.Offices.{MayServe};
ghost use Rattle.sg_hub.specs.Seats.{SeatStep};

use crate::hub::{Hub, Seat};
use crate::passed::SeatCounts;
use sg_counter::{
    CoreCall, CoreFront, CoreReply, Counter, Refill, Refused, Settled, Settler, Stored,
};
use sg_device::{Disk, NoMemory, Outlet, Taken};
use sg_list::Seq;
use sg_machine::{Admission, Verdict};
use std::alloc::Global;
use std::sync::Wait;

/// A seat at its hub, which counts what passes it.
#[derive(Drop)]
pub struct HubSeat<'a, D: Disk> {
    pub hub: &'a Hub<D>,
    pub seat: &'a mut Seat<D>,
    pub passed: &'a mut SeatCounts,
    pub ghost of_hub: { IsDeskOf hub.now seat.now },
}

fn credit_at<T: Wait, D: Disk>(hub: &Hub<D>, rt: &T, seat: &mut Seat<D>, i: u32) -> u64
    requires seat { IsDeskOf hub.now seat.old }
    requires left { 0 < seat.old.left }
    requires may { MayServe hub.now.made (ACall.Credit i) }
    ensures step { SeatStep hub.entry.now seat.old (ACall.Credit i) (AReply.Credit result)
        seat.new }
{
    match hub.turn(rt, seat, CoreCall::Credit(i)) {
        CoreReply::Credit(credit) => credit,
        _ => unreachable!(),
    }
}

fn admit_at<T: Wait, D: Disk>(
    hub: &Hub<D>,
    rt: &T,
    seat: &mut Seat<D>,
    inlet: u32,
    records: Vec<Admission>,
) -> Result<Vec<Verdict>, Refused>
    requires seat { IsDeskOf hub.now seat.old }
    requires left { 0 < seat.old.left }
    requires may { MayServe hub.now.made (ACall.Admit inlet records.items) }
    ensures step { MatchResult result (λ verdicts. SeatStep hub.entry.now seat.old
        (ACall.Admit inlet records.items) (AReply.Admitted (Ok verdicts.items)) seat.new)
        (λ refused. SeatStep hub.entry.now seat.old (ACall.Admit inlet records.items)
        (AReply.Admitted (Err refused)) seat.new) }
    ensures back { IfErr result (λ refused. records_back refused ≡ records.items) }
{
    let call = CoreCall::Admit {
        inlet,
        records: Seq::new(records),
    };
    match hub.turn(rt, seat, call) {
        CoreReply::Admitted(Ok(verdicts)) => Ok(verdicts.into_vec()),
        CoreReply::Admitted(Err(refused)) => Err(refused),
        _ => unreachable!(),
    }
}

fn front_at<T: Wait, D: Disk>(
    hub: &Hub<D>,
    rt: &T,
    seat: &mut Seat<D>,
    dest: u32,
    most: u32,
) -> Result<CoreFront, NoMemory>
    requires seat { IsDeskOf hub.now seat.old }
    requires left { 0 < seat.old.left }
    requires may { MayServe hub.now.made (ACall.Front dest most) }
    ensures step { SeatStep hub.entry.now seat.old (ACall.Front dest most) (AReply.Front result)
        seat.new }
{
    match hub.turn(rt, seat, CoreCall::Front { dest, most }) {
        CoreReply::Front(front) => front,
        _ => unreachable!(),
    }
}

fn settle_at<T: Wait, D: Disk, O: Outlet>(
    hub: &Hub<D>,
    rt: &T,
    seat: &mut Seat<D>,
    dest: u32,
    place: u64,
    n: u32,
    taken: Taken<O>,
) -> Settled
    requires seat { IsDeskOf hub.now seat.old }
    requires left { 0 < seat.old.left }
    requires may { MayServe hub.now.made (ACall.Settle dest place n (count_of taken)) }
    ensures step { SeatStep hub.entry.now seat.old
        (ACall.Settle dest place n (count_of taken)) (AReply.Settled result) seat.new }
{
    let call = CoreCall::Settle {
        dest,
        place,
        n,
        count: taken.count(),
    };
    match hub.turn(rt, seat, call) {
        CoreReply::Settled(settled) => settled,
        _ => unreachable!(),
    }
}

fn refill_at<T: Wait, D: Disk>(hub: &Hub<D>, rt: &T, seat: &mut Seat<D>, d: u32) -> Refill
    requires seat { IsDeskOf hub.now seat.old }
    requires left { 0 < seat.old.left }
    requires may { MayServe hub.now.made (ACall.Refill d) }
    ensures step { SeatStep hub.entry.now seat.old (ACall.Refill d) (AReply.Refilled result)
        seat.new }
{
    match hub.turn(rt, seat, CoreCall::Refill(d)) {
        CoreReply::Refilled(refill) => refill,
        _ => unreachable!(),
    }
}

fn store_at<T: Wait, D: Disk>(hub: &Hub<D>, rt: &T, seat: &mut Seat<D>, i: u32) -> Stored
    requires seat { IsDeskOf hub.now seat.old }
    requires left { 0 < seat.old.left }
    requires may { MayServe hub.now.made (ACall.Store i) }
    ensures step { SeatStep hub.entry.now seat.old (ACall.Store i) (AReply.Stored result) seat.new }
{
    match hub.turn(rt, seat, CoreCall::Store(i)) {
        CoreReply::Stored(stored) => stored,
        _ => unreachable!(),
    }
}

impl<'a, D: Disk> Counter for HubSeat<'a, D> {
    ghost use Rattle.std.specs.Prelude.{◌≡◌};
    ghost use Rattle.sg_standing.specs.States.{setup_of};
    ghost use Rattle.sg_hub.specs.Counts.{CountsCall};
    ghost use Rattle.sg_hub.specs.Seats.{SeatStep};

    ghost setup = { λ s. setup_of s.hub.now.made };

    ghost left = { λ s. s.seat.now.left };

    ghost step = { λ old call reply new. (new.seat.ghost_name ≡ old.seat.ghost_name)
        × (new.passed.ghost_name ≡ old.passed.ghost_name) × (new.hub ≡ old.hub)
        × SeatStep old.hub.now old.seat.now call reply new.seat.now
        × CountsCall call reply old.passed.now new.passed.now };

    fn credit<T: Wait>(&mut self, rt: &T, i: u32) -> u64 {
        let credit = credit_at(self.hub, rt, self.seat, i);
        self.passed.ask(credit);
        credit
    }

    fn admit<T: Wait>(
        &mut self,
        rt: &T,
        _alloc: Global,
        i: u32,
        records: Vec<Admission>,
    ) -> Result<Vec<Verdict>, Refused> {
        self.passed.begin(&records);
        match admit_at(self.hub, rt, self.seat, i, records) {
            Ok(verdicts) => {
                self.passed.end(&verdicts);
                Ok(verdicts)
            }
            Err(refused) => Err(refused),
        }
    }

    fn front<T: Wait>(
        &mut self,
        rt: &T,
        _alloc: Global,
        d: u32,
        most: u32,
    ) -> Result<CoreFront, NoMemory> {
        let front = front_at(self.hub, rt, self.seat, d, most);
        self.passed.show(&front);
        front
    }

    fn refill<T: Wait>(&mut self, rt: &T, d: u32) -> Refill {
        refill_at(self.hub, rt, self.seat, d)
    }

    fn store<T: Wait>(&mut self, rt: &T, i: u32) -> Stored {
        let stored = store_at(self.hub, rt, self.seat, i);
        self.passed.store(stored);
        stored
    }
}

/// It settles what any outlet has taken.
impl<'a, D: Disk, O: Outlet> Settler<O> for HubSeat<'a, D> {
    fn settle<T: Wait>(&mut self, rt: &T, d: u32, place: u64, n: u32, taken: Taken<O>) -> Settled
        requires left { 0 < self.old.seat.now.left }
        requires dest { d < length (setup_of self.old.hub.now.made).dests }
        requires some { 0 < n }
        ensures step { (self.new.seat.ghost_name ≡ self.old.seat.ghost_name)
            × (self.new.passed.ghost_name ≡ self.old.passed.ghost_name)
            × (self.new.hub ≡ self.old.hub)
            × SeatStep self.old.hub.now self.old.seat.now
            (ACall.Settle d place n (count_of taken)) (AReply.Settled result) self.new.seat.now
            × CountsSettled result n self.old.passed.now self.new.passed.now }
        ensures setup { setup_of self.new.hub.now.made ≡ setup_of self.old.hub.now.made }
        ensures left { self.old.seat.now.left ≤ self.new.seat.now.left + 1 }
    {
        let settled = settle_at(self.hub, rt, self.seat, d, place, n, taken);
        self.passed.settle(n, settled);
        settled
    }
}
