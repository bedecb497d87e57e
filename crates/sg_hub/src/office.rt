// The flow core as what lies in a booth.
ghost use Rattle.std.specs.Prelude.{◌≡◌, ◌≤◌, ◌<◌, ◌+◌, ◌-◌, ◌^◌};
ghost use Rattle.sg_standing.specs.States.{setup_of};
ghost use Rattle.sg_core.specs.Calls.{Serves};
ghost use Rattle.sg_counter.specs.declared.calls.CoreCall.{CoreCall as ACall};
ghost use Rattle.sg_hub.specs.Offices.{MayServe, room_of};

use sg_booth::Office;
use sg_core::Core;
use sg_counter::{CoreCall, CoreReply};
use sg_device::Disk;
use sg_list::Seq;
use sg_machine::Admission;
use std::alloc::Global;
use std::marker::Model;

/// The flow core, whose calls and replies are values.
pub struct CoreOffice<D: Disk> {
    core: Core<D>,
}

impl<D: Disk> Model for CoreOffice<D> {
    ghost use Rattle.sg_standing.specs.States.{CoreState};

    ghost Value = { CoreState };

    ghost view = { λ office. office.core };
}

impl<D: Disk> CoreOffice<D> {
    pub fn new(core: Core<D>) -> CoreOffice<D>
        ensures { result ≡ core }
    {
        CoreOffice { core }
    }

    pub fn into_core(self) -> Core<D>
        ensures { result ≡ self }
    {
        let CoreOffice { core } = self;
        core
    }
}

fn admit<D: Disk>(
    core: &mut Core<D>,
    alloc: Global,
    inlet: u32,
    records: Seq<Admission>,
) -> CoreReply
    requires may { MayServe core.old (ACall.Admit inlet records) }
    requires room { core.old.calls + 1 < 2 ^ 54 }
    ensures serves { Serves core.old (ACall.Admit inlet records) result core.new }
    ensures calls { core.new.calls ≤ core.old.calls + 1 }
    ensures setup { setup_of core.new ≡ setup_of core.old }
{
    match core.admit(alloc, inlet, records.into_vec()) {
        Ok(verdicts) => CoreReply::Admitted(Ok(Seq::new(verdicts))),
        Err(refused) => CoreReply::Admitted(Err(refused)),
    }
}

fn serve<D: Disk>(core: &mut Core<D>, alloc: Global, call: CoreCall) -> CoreReply
    requires may { MayServe core.old call }
    requires room { core.old.calls + 1 < 2 ^ 54 }
    ensures serves { Serves core.old call result core.new }
    ensures calls { core.new.calls ≤ core.old.calls + 1 }
    ensures setup { setup_of core.new ≡ setup_of core.old }
{
    match call {
        CoreCall::Credit(i) => CoreReply::Credit(core.credit(i)),
        CoreCall::Admit { inlet, records } => admit(core, alloc, inlet, records),
        CoreCall::Front { dest, most } => CoreReply::Front(core.front(alloc, dest, most)),
        CoreCall::Settle {
            dest,
            place,
            n,
            count: _,
        } => CoreReply::Settled(core.settle(dest, place, n)),
        CoreCall::Refill(d) => CoreReply::Refilled(core.refill(d)),
        CoreCall::Store(i) => CoreReply::Stored(core.store(i)),
    }
}

impl<D: Disk> Office for CoreOffice<D> {
    type Call = CoreCall;

    type Reply = CoreReply;

    ghost step = { Serves };

    ghost may = { MayServe };

    ghost room = { room_of };

    fn serve(&mut self, alloc: Global, call: CoreCall) -> CoreReply {
        serve(&mut self.core, alloc, call)
    }
}
