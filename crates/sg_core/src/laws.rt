// Which stores of a core have failed. The functions here do nothing: their contracts are laws.
ghost use Rattle.std.specs.Prelude.{List};
ghost use Rattle.sg_device.specs.Disk.{DiskState};
ghost use Rattle.sg_machine.specs.declared.setup.Setup.{Setup};
ghost use Rattle.sg_machine.specs.declared.state.State.{State};
ghost use Rattle.sg_counter.specs.Exchanges.{Exchange, Makes};
ghost use Rattle.sg_counter.specs.declared.calls.CoreCall.{CoreCall};
ghost use Rattle.sg_counter.specs.declared.calls.CoreReply.{CoreReply};
ghost use Rattle.sg_stores.specs.Opening.{AllFailByFaults};
ghost use Rattle.sg_stores.specs.Stores.{AllGo};
ghost use Rattle.sg_standing.specs.States.{CoreState};
ghost use Rattle.sg_standing.specs.Standing.{IsAt};
ghost use Rattle.sg_core.specs.Calls.{Serves};
ghost use Rattle.sg_core.specs.Failing.{TellsFaults};
ghost use Rattle.sg_core.specs.Opening.{IsOpen};

/// At any state that an opened core comes to, each of its stores has failed exactly where a call on the
/// store's disk has answered a fault, from before the opening on. Any calls lead to such a state.
pub fn stores_fail_by_faults()
    ensures stores { (setup : Setup) (disks : List DiskState) (first now : CoreState)
        → IsOpen setup disks first → AllGo first.stores now.stores
        → AllFailByFaults disks now.stores }
    ensures calls { (old new : CoreState) (made : List Exchange) → Makes Serves old made new
        → AllGo old.stores new.stores }
{}

/// A reply tells that the store has failed exactly where a call on the store's disk has answered a fault,
/// from before the opening on.
pub fn replies_tell_faults()
    ensures { (setup : Setup) (disks : List DiskState) (first old new : CoreState) (state : State)
        (call : CoreCall) (reply : CoreReply) → IsOpen setup disks first
        → AllGo first.stores old.stores → IsAt old state → Serves old call reply new
        → TellsFaults disks old call reply new }
{}
