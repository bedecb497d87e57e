// What lies in a booth.
ghost use Rattle.std.specs.Prelude.{◌≤◌, ◌<◌, ◌+◌, ℕ};

use std::alloc::Global;

/// An object of one thread, whose calls are steps.
pub trait Office {
    type Call;

    type Reply;

    /// From the first value the call gets this reply, and leaves the second value.
    ghost step: { Self → Self.Call → Self.Reply → Self → Type 0 };

    /// The call may be made. It speaks of what no call changes.
    ghost may: { Self → Self.Call → Type 0 };

    /// How many calls are left.
    ghost room: { Self → ℕ };

    /// Makes the call, which takes at most one of those that are left.
    fn serve(&mut self, alloc: Global, call: Self::Call) -> Self::Reply
        requires room { 0 < room self.old }
        requires may { may self.old call }
        ensures step { step self.old call result self.new }
        ensures room { room self.old ≤ room self.new + 1 }
        ensures may { (c : Self.Call) → may self.old c → may self.new c };
}

/// A call with its reply.
pub struct OfficeExchange<C, R> {
    pub call: C,
    pub reply: R,
}
