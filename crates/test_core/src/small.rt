// A small core, and a router that gives each record to one destination.
ghost use Rattle.std.specs.Prelude.{◌≡◌, ◌≤◌, ◌+◌, codes, IfOk, Some};
ghost use Rattle.sg_msg.specs.Message.{value_of};

use bytes::Bytes;
use sg_actor::Turned;
use sg_counter::{CoreFront, Counter, Refill, Refused, Settled, Settler, Stored};
use sg_device::{NoMemory, Outlet, Taken};
use sg_list::Seq;
use sg_machine::{Admission, Setup, Verdict};
use sg_msg::{Message, Offer};
use sg_route::Router;
use sg_time::Stamp;
use std::alloc::{AllocError, Global};
use std::sync::Wait;

// It counts the records that come in, has entries to give, and writes down its calls: c for a question
// for the credit, a2@8 for two records of which the last ends at 8, n where these were refused, s for a
// position, f for a question for the front, t2 for two entries that are settled, and r for a refill.
#[derive(Drop)]
pub struct Small {
    pub setup: Setup,
    pub window: u64,
    pub records: u64,
    pub end: u64,
    pub stored: u64,
    pub broken: bool,
    // The next records are refused.
    pub refuses: bool,
    pub messages: Vec<Message>,
    pub settled: u64,
    pub log: Vec<u8>,
}

fn note(log: &mut Vec<u8>, text: &[u8]) {
    let _noted = log.extend_from_slice(text);
}

// What a turn came to.
pub fn note_turn(log: &mut Vec<u8>, turned: Turned) {
    if turned.did {
        note(log, b"+");
    } else if !turned.idle {
        note(log, b"-");
    }
    if turned.idle {
        note(log, b"~");
    }
    note(log, b" ");
}

fn digit(n: u64) -> u8 {
    b'0' + (n % 10) as u8
}

impl Counter for Small {
    ghost setup = { λ c. c.setup };

    ghost left = { λ _. 4 };

    ghost step = { λ _ _ _ _. Unit {0} };

    fn credit<T: Wait>(&mut self, _rt: &T, _i: u32) -> u64 {
        note(&mut self.log, b"c");
        self.window.saturating_sub(self.records)
    }

    fn admit<T: Wait>(
        &mut self,
        _rt: &T,
        alloc: Global,
        _i: u32,
        records: Vec<Admission>,
    ) -> Result<Vec<Verdict>, Refused> {
        if self.refuses {
            self.refuses = false;
            note(&mut self.log, b"n");
            return Err(Refused::NoCredit(Seq::new(records)));
        }
        let count = records.len() as u64;
        if let Some(last) = records.last() {
            self.end = last.end;
        }
        self.records = self.records.saturating_add(count);
        note(&mut self.log, &[b'a', digit(count), b'@', digit(self.end)]);
        Ok(Vec::new(alloc))
    }

    fn front<T: Wait>(
        &mut self,
        _rt: &T,
        alloc: Global,
        _d: u32,
        most: u32,
    ) -> Result<CoreFront, NoMemory> {
        note(&mut self.log, b"f");
        if self.broken {
            return Ok(CoreFront::Broken);
        }
        if self.messages.is_empty() {
            return Ok(CoreFront::Empty);
        }
        let mut messages = Seq::empty(alloc);
        for message in self.messages.iter().take(most as usize) {
            messages.push(message.share()?)?;
        }
        Ok(CoreFront::Entries {
            place: self.settled,
            messages,
        })
    }

    fn refill<T: Wait>(&mut self, _rt: &T, _d: u32) -> Refill {
        note(&mut self.log, b"r");
        Refill::NoneWaits
    }

    fn store<T: Wait>(&mut self, _rt: &T, _i: u32) -> Stored {
        note(&mut self.log, b"s");
        if self.broken {
            return Stored::Broken;
        }
        if self.stored == self.end {
            return Stored::Unchanged;
        }
        self.stored = self.end;
        Stored::Wrote(self.end)
    }
}

impl<O: Outlet> Settler<O> for Small {
    fn settle<T: Wait>(&mut self, _rt: &T, _d: u32, place: u64, n: u32, _taken: Taken<O>) -> Settled
        ensures step { Unit {0} }
        ensures setup { self.new.setup ≡ self.old.setup }
        ensures left { 4 ≤ 4 + 1 }
    {
        note(&mut self.log, &[b't', digit(u64::from(n))]);
        if place != self.settled || self.messages.len() < n as usize {
            return Settled::NotFront;
        }
        self.settled = self.settled.saturating_add(u64::from(n));
        self.messages.drain(..n as usize);
        Settled::Done
    }
}

const STAMP: Stamp = Stamp { at: 0, offset: 0 };

// A message of this text.
pub fn message(alloc: Global, text: &[u8]) -> Result<Message, AllocError>
    ensures { IfOk result (λ message. value_of (codes "MESSAGE") message.pairs ≡ Some text.now) }
{
    let mut message = Message::new(alloc, 13, STAMP, STAMP)?;
    match message.set(b"MESSAGE", text) {
        Ok(()) => Ok(message),
        Err(_) => Err(AllocError),
    }
}

// Each record goes to destination 0, as it is.
#[derive(Drop)]
pub struct Plain {
    pub routed: u64,
}

impl Router for Plain {
    ghost inlets = { λ _. 1 };

    ghost dests = { λ _. 1 };

    ghost offers = { λ _ _ _ _. Unit {0} };

    fn route(
        &mut self,
        alloc: Global,
        _inlet: u32,
        item: Bytes,
        _at: i64,
        _peer: &[u8],
    ) -> Result<Vec<Offer>, AllocError> {
        self.routed = self.routed.saturating_add(1);
        let message = message(alloc, item.as_slice())?;
        let mut offers = Vec::new(alloc);
        offers.push(Offer {
            dest: 0,
            message,
            flow: true,
        })?;
        Ok(offers)
    }
}
