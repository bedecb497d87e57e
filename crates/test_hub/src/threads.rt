// Calls at two seats, on two threads.
ghost use Rattle.std.specs.Prelude.{◌≡◌, ◌≤◌, ◌<◌, ◌+◌, ◌^◌, IfOk, IfSome, length};
ghost use Rattle.sg_booth.specs.Desks.{IsDeskOf};
ghost use Rattle.sg_standing.specs.States.{setup_of};
ghost use Rattle.test_hub.specs.Cores.{IsTriedSetup, MayAsk};

use crate::cores::{add_record, open};
use crate::seats::ask_at;
use sg_core::Core;
use sg_counter::{CoreCall, CoreReply};
use sg_hub::{Hub, Seat};
use sg_list::Seq;
use sg_machine::Tally;
use sg_memory_disk::MemoryDisk;
use std::alloc::{AllocError, Global};
use std::sync::Wait;
use std::thread::{Threads, join};
use test_replies::{ReplyText, put_number};

// An admit of one record without offers.
fn one_record(alloc: Global, inlet: u32, end: u64) -> Result<CoreCall, AllocError>
    requires inlet { inlet < 2 }
    requires end { end < 2 ^ 63 }
    ensures { IfOk result MayAsk }
{
    let mut records = Vec::new(alloc);
    add_record(&mut records, end, Vec::new(alloc))?;
    Ok(CoreCall::Admit {
        inlet,
        records: Seq::new(records),
    })
}

// How many of so many records were admitted at a seat.
fn admit_all<T: Wait>(
    rt: &T,
    alloc: Global,
    hub: &Hub<MemoryDisk>,
    mut seat: Seat<MemoryDisk>,
    inlet: u32,
    count: u64,
) -> Seat<MemoryDisk>
    requires seat { IsDeskOf hub.now seat }
    requires left { count ≤ seat.left }
    requires count { count < 2 ^ 32 }
    requires inlet { inlet < 2 }
    requires tried { IsTriedSetup (setup_of hub.now.made) }
    ensures seat { IsDeskOf hub.entry.now result }
    ensures left { seat.left ≤ result.left + count }
{
    for n in 0..count {
        if let Ok(call) = one_record(alloc, inlet, n + 1) {
            let _reply = ask_at(rt, alloc, hub, &mut seat, call);
        }
    }
    seat
}

fn admit_both<R: Threads + Wait + Sync>(
    rt: &R,
    alloc: Global,
    hub: &Hub<MemoryDisk>,
    mut seat: Seat<MemoryDisk>,
    count: u64,
) -> Seat<MemoryDisk>
    requires seat { IsDeskOf hub.now seat }
    requires left { count + count < seat.left }
    requires count { count < 2 ^ 32 }
    requires tried { IsTriedSetup (setup_of hub.now.made) }
    ensures seat { IsDeskOf hub.entry.now result }
    ensures left { 0 < result.left }
{
    let other = hub.split(&mut seat, count);
    let (mut one, two) = join(
        rt,
        || -> Seat<MemoryDisk>
            requires { IsDeskOf hub.now seat × (count < seat.left) × (count < 2 ^ 32)
                × IsTriedSetup (setup_of hub.now.made) }
            ensures { IsDeskOf hub.entry.now result × (0 < result.left) }
        { admit_all(rt, alloc, hub, seat, 0, count) },
        || -> Seat<MemoryDisk>
            requires { IsDeskOf hub.now other × (count ≤ other.left) × (count < 2 ^ 32)
                × IsTriedSetup (setup_of hub.now.made) }
            ensures { IsDeskOf hub.entry.now result }
        { admit_all(rt, alloc, hub, other, 1, count) },
    );
    hub.join(&mut one, two);
    one
}

// The core, once two threads have made so many calls each.
fn filled<R: Threads + Wait + Sync>(
    rt: &R,
    alloc: Global,
    core: Core<MemoryDisk>,
    count: u64,
) -> Core<MemoryDisk>
    requires calls { core.calls ≡ 0 }
    requires count { count < 2 ^ 32 }
    requires tried { IsTriedSetup (setup_of core) }
{
    match Hub::new(alloc, core) {
        Ok((hub, seat)) => {
            let seat = admit_both(rt, alloc, &hub, seat, count);
            hub.close(rt, seat)
        }
        Err((core, _)) => core,
    }
}

fn put_tally(out: &mut ReplyText, tally: &Tally) {
    for source in tally.sources.as_slice() {
        put_number(out, source.records);
    }
}

/// How many records each source has brought in, and the calls of the core.
pub(crate) fn said<R: Threads + Wait + Sync>(
    rt: &R,
    alloc: Global,
    row: &str,
) -> Result<Vec<u8>, AllocError> {
    let Ok(count) = row.trim().parse::<u32>() else {
        return Vec::from_slice(alloc, b"no such count");
    };
    let core = filled(rt, alloc, open(alloc, 100, 0, 400)?, u64::from(count));
    let tally = core.tally(alloc);
    let calls = core.calls();
    let _disks = core.into_stores();
    let mut out = ReplyText::new(alloc);
    put_tally(&mut out, &tally?);
    put_number(&mut out, calls);
    out.done()
}
