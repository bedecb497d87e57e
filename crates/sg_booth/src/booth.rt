// The lock.
ghost use Rattle.std.specs.Prelude.{◌≡◌, ◌≤◌, ◌<◌, ◌-◌, ◌^◌, Some, IfOk, IfErr};
ghost use Rattle.sg_booth.specs.Rule.{IsOneSlot, office_of};
ghost use Rattle.sg_booth.specs.Desks.{IsDeskOf, ArePlacesOrdered, first_desk, HasTurned, fresh_desk, receipt_of, without_calls, HasJoined, HasClosed};

use crate::desk::Desk;
use crate::office::Office;
use crate::steps::{cut, end, glue, hand_over, hold, serve_at};
use crate::table::{About, Lock, OfficeSlot, ServedOffice};
use atomic_table::{Badge, Refused, Table};
use std::alloc::{AllocError, Global};
use std::marker::{Brand, Model};
use std::mem;
use std::snapshot::Snapshot;
use std::sync::Wait;

/// A ticket lock round an office. Who comes first is served first.
pub struct Booth<V: Office> {
    lock: Lock<V>,
}

impl<V: Office> Model for Booth<V> {
    ghost use Rattle.std.specs.Prelude.{◌≡◌};
    ghost use Rattle.sg_booth.specs.Desks.{BoothState};
    ghost use Rattle.sg_booth.specs.Rule.{IsTableSized};

    ghost Value = { BoothState V };

    ghost view = { λ b. record {
      id = b.lock.shared.table_id;
      made = b.lock.shared.key.made.value;
      turns = b.lock.shared.key.turns;
    } };

    ghost invariant = { λ b. IsTableSized b.lock.shared.table_id };
}

impl<V: Office> Booth<V> {
    /// Puts the office into a booth, for so many turns, at most 2^54. The first desk has all of them. A
    /// refusal, for lack of memory, gives the office back.
    pub fn new(alloc: Global, value: V, turns: u64) -> Result<(Booth<V>, Desk<V>), (V, AllocError)>
        requires few { turns ≤ 2 ^ 54 }
        requires room { turns ≤ V.room value }
        ensures booth { IfOk result (λ r. (r.0.made ≡ value) × (r.0.turns ≡ turns)) }
        ensures desk { IfOk result (λ r. r.1 ≡ first_desk r.0) }
        ensures back { IfErr result (λ r. r.0 ≡ value) }
    {
        let about = About {
            made: Snapshot::of(&value),
            turns,
        };
        let mut slots = match Vec::with_capacity(alloc, 1) {
            Ok(slots) => slots,
            Err(failed) => return Err((value, failed)),
        };
        slots.push_reserved(Some(ServedOffice {
            office: value,
            said: None,
        }));
        match Table::new(alloc, &[0, 0], slots, &about) {
            Ok((lock, place)) => {
                let badge = place.into_badge();
                Ok((Booth { lock }, Desk { badge, left: turns }))
            }
            Err(Refused { slots }) => Err((only_office(slots), AllocError)),
        }
    }

    /// Waits for a turn, in which the office serves the call. It may wait for ever where another desk's
    /// turn doesn't end.
    pub fn turn<R: Wait>(
        &self,
        rt: &R,
        alloc: Global,
        desk: &mut Desk<V>,
        call: V::Call,
    ) -> V::Reply
        requires desk { IsDeskOf self.now desk.old }
        requires left { 0 < desk.old.left }
        requires may { V.may self.now.made call }
        ensures turned { HasTurned V.step self.now.made desk.old call result desk.new }
    {
        let badge = mem::replace(&mut desk.badge, Badge::blank());
        let mut place = badge.into_seat();
        let reply = serve_at(rt, alloc, &self.lock, &mut place, call);
        desk.badge = place.into_badge();
        desk.left -= 1;
        reply
    }

    /// Splits off a desk with so many of the turns. It has seen as much. Takes no memory.
    pub fn split(&self, desk: &mut Desk<V>, turns: u64) -> Desk<V>
        requires desk { IsDeskOf self.now desk.old }
        requires left { turns < desk.old.left }
        ensures old { desk.new ≡ record desk.old { left = desk.old.left - turns } }
        ensures new { result ≡ fresh_desk desk.old turns }
    {
        let badge = mem::replace(&mut desk.badge, Badge::blank());
        let mut place = badge.into_seat();
        let cut_off = cut::<V, Brand>(&self.lock, &mut place, turns);
        desk.badge = place.into_badge();
        desk.left -= turns;
        Desk {
            badge: cut_off.into_badge(),
            left: turns,
        }
    }

    /// A receipt of the desk's calls so far: a desk without turns, which has them and has seen what the
    /// desk has. Where it is joined into another desk, `receipts_stand` says where these calls stand,
    /// whatever becomes of the desk itself, which goes on without them. Takes no memory.
    pub fn receipt(&self, desk: &mut Desk<V>) -> Desk<V>
        requires desk { IsDeskOf self.now desk.old }
        ensures old { desk.new ≡ without_calls desk.old }
        ensures new { result ≡ receipt_of desk.old }
        ensures ordered { ArePlacesOrdered result }
    {
        let badge = mem::replace(&mut desk.badge, Badge::blank());
        let mut place = badge.into_seat();
        let receipt = hand_over(&self.lock, &mut place);
        desk.badge = place.into_badge();
        Desk {
            badge: receipt.into_badge(),
            left: 0,
        }
    }

    /// Makes two desks one, which has seen what both had. Takes no memory.
    pub fn join(&self, desk: &mut Desk<V>, other: Desk<V>)
        requires desk { IsDeskOf self.now desk.old }
        requires other { IsDeskOf self.now other }
        ensures { HasJoined desk.old other desk.new }
    {
        let Desk {
            badge: theirs,
            left,
        } = other;
        let badge = mem::replace(&mut desk.badge, Badge::blank());
        let mut place = badge.into_seat();
        glue(&self.lock, &mut place, theirs.into_seat());
        desk.badge = place.into_badge();
        desk.left += left;
    }

    /// Waits for a turn, and ends the booth in it. The office is what the history gives. A desk that was
    /// dropped takes its turns with it: its calls stand in the history among those of others, each of them
    /// of which a receipt was joined at its place, by `receipts_stand`.
    pub fn close<R: Wait>(self, rt: &R, desk: Desk<V>) -> V
        requires desk { IsDeskOf self desk }
        requires left { 0 < desk.left }
        ensures { HasClosed V.step self desk result }
    {
        let Booth { lock } = self;
        let Desk { badge, left: _ } = desk;
        let mut place = badge.into_seat();
        hold(rt, &lock, &mut place);
        end(lock, place)
    }
}

// The office in the one slot.
fn only_office<V: Office>(mut slots: Vec<OfficeSlot<V>>) -> V
    requires { IsOneSlot slots.items }
    ensures { office_of slots.items ≡ Some result }
{
    let Some(Some(ServedOffice { office, said: _ })) = slots.pop() else {
        unreachable!()
    };
    slots.destroy_empty();
    office
}
