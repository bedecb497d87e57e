// Records that go into the core.
ghost use Rattle.std.specs.Prelude.{◌≡◌, ◌<◌, ◌≤◌, ◌+◌, ℕ, List, length};
ghost use Rattle.sg_counter.specs.Bringing.{AllMayEnter};
ghost use Rattle.sg_actor.specs.Sources.{source, IsReady};
ghost use Rattle.sg_actor.specs.Steps.{IsSafe};
ghost use Rattle.sg_actor.specs.Bringing.{last_end, Admits, HandsIn};

use crate::SourceSpec;
use crate::pulling::give_up;
use crate::reader::{Reader, look};
use sg_counter::{Counter, Refused};
use sg_device::{Inlet, NoMemory};
use sg_list::Seq;
use sg_machine::Admission;
use std::alloc::{AllocError, Global};
use std::mem::replace;
use std::sync::Wait;

fn last_end(records: &Seq<Admission>) -> u64
    requires { 0 < length records.now }
    ensures { result ≡ last_end 0 records.now }
{
    records.at(records.len() - 1).end
}

/// Admits the records that are held, all in one call. Tells whether the source had credit for them;
/// where it hasn't, and without memory, they are still held.
fn admit<T: Wait, C: Counter>(
    rt: &T,
    alloc: Global,
    counter: &mut C,
    i: u32,
    reader: &mut Reader,
) -> Result<bool, NoMemory>
    requires left { 0 < C.left counter.old }
    requires inlet { i < length (C.setup counter.old).sources }
    requires some { 0 < length reader.old.held }
    requires few { length reader.old.held ≤ 1000 }
    requires held { AllMayEnter (length (C.setup counter.old).dests) reader.old.held }
    ensures admits { Admits C.step counter.old counter.new i reader.old reader.new result }
    ensures setup { C.setup counter.new ≡ C.setup counter.old }
    ensures left { C.left counter.old ≤ C.left counter.new + 1 }
{
    let end = last_end(&reader.held);
    let records = replace(&mut reader.held, Seq::empty(alloc));
    match counter.admit(rt, alloc, i, records.into_vec()) {
        Ok(_verdicts) => {
            reader.end = end;
            Ok(true)
        }
        Err(Refused::NoCredit(records)) => {
            reader.held = records;
            Ok(false)
        }
        Err(Refused::NoMemory(records)) => {
            reader.held = records;
            Err(AllocError)
        }
    }
}

/// What became of what was read.
#[derive(Clone, Copy, PartialEq, Eq, Drop)]
pub(crate) struct Handed {
    pub(crate) admitted: bool,
    pub(crate) gave_up: bool,
}

/// Admits the records that are held, and then gives the part up where a bad count follows.
pub(crate) fn hand_in<T: Wait, C: Counter, I: Inlet>(
    rt: &T,
    alloc: Global,
    counter: &mut C,
    spec: &SourceSpec,
    inlet: &mut I,
    reader: &mut Reader,
) -> Result<Handed, NoMemory>
    requires left { 0 < C.left counter.old }
    requires inlet { spec.now.inlet < length (C.setup counter.old).sources }
    requires fetch { spec.now.fetch ≤ 1000 }
    requires ready { IsSafe (length (C.setup counter.old).dests) spec.now
        (I.state inlet.old) reader.old }
    ensures hands { (buffer : List ℕ)
        → IsReady (length (C.setup counter.old).dests) spec.now
        (source (I.state inlet.old) reader.old buffer)
        → HandsIn (length (C.setup counter.old).dests) spec.now C.step counter.old counter.new
        (source (I.state inlet.old) reader.old buffer)
        (source (I.state inlet.new) reader.new buffer) result }
    ensures setup { C.setup counter.new ≡ C.setup counter.old }
    ensures left { C.left counter.old ≤ C.left counter.new + 1 }
{
    if reader.held.is_empty() {
        let gave_up = give_up(reader, inlet);
        return Ok(Handed {
            admitted: false,
            gave_up,
        });
    }
    if !admit(rt, alloc, counter, spec.inlet, reader)? {
        return Ok(Handed {
            admitted: false,
            gave_up: false,
        });
    }
    look(reader)?;
    let gave_up = give_up(reader, inlet);
    Ok(Handed {
        admitted: true,
        gave_up,
    })
}
