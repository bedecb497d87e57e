// A framer: bytes in, items out.
ghost use Rattle.std.specs.Prelude.{◌≡◌, ◌<◌, ◌≤◌, ◌+◌, ◌^◌, ℕ, ℤ, List, [], ◌∷◌, ◌++◌, length, drop, slice_range, OnOk, OnErr, IfOk};
ghost use Rattle.sg_device.specs.Inlet.{Stamped, stamped};
ghost use Rattle.sg_frame.specs.Items.{Item};
ghost use Rattle.sg_frame.specs.Framing.{fresh, with_bytes, fed, HasFramed, NextTells, GoesOnFraming};
ghost use Rattle.sg_frame.specs.Kept.{moments, runs_end, Cuts};

use crate::FrameKind;
use crate::block::KeptBytes;
use crate::moments::{TimedRun, moment_at};
use crate::scan::{ItemSpan, Seen, find_item};
use bytes::Bytes;
use sg_device::NoMemory;
use std::alloc::Global;
use std::collections::VecDeque;
use std::marker::Model;

/// What `next` finds.
#[derive(Drop)]
pub enum Framed {
    /// An item: its text, the place behind it, counted from where the framer was new, and the moment
    /// of the byte that made it whole, in microseconds since 1970-01-01T00:00:00Z. The text shares
    /// the memory of the bytes fed.
    Item { bytes: Bytes, end: u64, at: i64 },
    /// No item is whole yet.
    More,
    /// The byte at this place can't stand in a count or behind it. Nothing behind it is an item.
    BadFrame(u64),
}

/// Takes a stream's bytes in pieces of any size, and gives its items.
pub struct Framer {
    kind: FrameKind,
    limit: u32,
    /// The place of the first byte kept.
    place: u64,
    /// So many bytes from it on have no line feed.
    scanned: usize,
    kept: KeptBytes,
    runs: VecDeque<TimedRun>,
}

impl Drop for Framer {
    fn drop(self) {
        let Framer {
            kind: _kind,
            limit: _limit,
            place: _place,
            scanned: _scanned,
            kept: _kept,
            runs: _runs,
        } = self;
    }
}

impl Model for Framer {
    ghost use Rattle.sg_frame.specs.Framing.{Framing};
    ghost use Rattle.sg_frame.specs.Kept.{AreRunsKept, moments};
    ghost use Rattle.std.specs.List.{zip};

    ghost Value = { Framing };

    ghost view = { λ f. record {
      kind = f.kind;
      limit = f.limit;
      place = f.place;
      held = zip f.kept (moments f.place f.runs.items);
    } };

    ghost invariant = { λ f. AreRunsKept f.limit f.place f.scanned f.kept f.runs.items };
}

/// Takes an item off the front of the bytes kept: its text and moment. `NoMemory` leaves both.
fn cut(
    kept: &mut KeptBytes,
    runs: &mut VecDeque<TimedRun>,
    place: u64,
    span: ItemSpan,
) -> Result<(Bytes, i64), NoMemory>
    requires range { place + length kept.old < 2 ^ 63 }
    requires covers { runs_end place runs.old.items ≡ place + length kept.old }
    requires from { span.from ≤ span.to }
    requires to { span.to ≤ span.taken }
    requires last { span.last < length kept.old }
    requires taken { (span.last ≤ span.taken) × (span.taken ≤ length kept.old) }
    ensures cut { IfOk result
        (λ r. Cuts place span kept.old kept.new runs.old.items runs.new.items r.0 r.1) }
    ensures refused { OnErr result ((kept.new ≡ kept.old) × (runs.new ≡ runs.old)) }
{
    let mut bytes = kept.freeze_to(span.taken)?;
    bytes.truncate(span.to);
    bytes.advance(span.from);
    Ok((bytes, moment_at(runs, place + span.last as u64)))
}

impl Framer {
    /// A framer for items of at most `limit` bytes.
    pub fn new(alloc: Global, kind: FrameKind, limit: u32) -> Result<Framer, NoMemory>
        requires { 0 < limit }
        ensures new { IfOk result (λ framer. framer ≡ fresh kind limit) }
        ensures history { IfOk result (λ framer. HasFramed [] [] framer) }
    {
        Ok(Framer {
            kind,
            limit,
            place: 0,
            scanned: 0,
            kept: KeptBytes::new(alloc),
            runs: VecDeque::with_capacity(alloc, 4)?,
        })
    }

    /// Takes bytes, all with this moment: microseconds since 1970-01-01T00:00:00Z. `NoMemory` leaves
    /// the framer as it was.
    pub fn feed(&mut self, piece: &[u8], at: i64) -> Result<(), NoMemory>
        requires { fed self.old + length piece.now < 2 ^ 63 }
        ensures fed { OnOk result (self.new ≡ with_bytes self.old (stamped piece.now at)) }
        ensures history { OnOk result (GoesOnFraming self.old self.new (stamped piece.now at) []) }
        ensures refused { OnErr result (self.new ≡ self.old) }
    {
        let end = self.place + (self.kept.len() + piece.len()) as u64;
        self.runs.push_back(TimedRun { end, at })?;
        if let Err(e) = self.kept.extend_from_slice(piece) {
            self.runs.pop_back();
            return Err(e);
        }
        Ok(())
    }

    /// The next item, where it is whole. `NoMemory` leaves the framer as it was, and so do `More` and
    /// `BadFrame`.
    pub fn next(&mut self) -> Result<Framed, NoMemory>
        ensures { NextTells self.old self.new result }
    {
        let kept = self.kept.as_slice();
        match find_item(self.kind, kept, self.limit, self.scanned) {
            Seen::Whole(span) => {
                let (bytes, at) = cut(&mut self.kept, &mut self.runs, self.place, span)?;
                self.place += span.taken as u64;
                self.scanned = 0;
                Ok(Framed::Item {
                    bytes,
                    end: self.place,
                    at,
                })
            }
            Seen::Open(scanned) => {
                self.scanned = scanned;
                Ok(Framed::More)
            }
            Seen::Bad(ahead) => Ok(Framed::BadFrame(self.place + ahead as u64)),
        }
    }

    /// Lets go of all bytes: the framer is as new.
    pub fn restart(&mut self)
        ensures { self.new ≡ fresh self.old.kind self.old.limit }
    {
        self.kept.clear();
        self.runs.clear();
        self.place = 0;
        self.scanned = 0;
    }
}

// A framer may be handed to another thread.
fn is_send<T: Send>() {}

fn framer_is_send() {
    is_send::<Framer>();
}
