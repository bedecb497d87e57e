// The first entries of a destination.
ghost use Rattle.std.specs.Prelude.{◌≡◌, ◌≢◌, ◌≤◌, ◌<◌, ◌+◌, ◌^◌, ◌∷◌, [], None, Some, IfOk, OnOk, OnErr, ◌++◌, option_map, length, slice_get, map, take, min};
ghost use Rattle.sg_offers.specs.Rooms.{seen_in};
ghost use Rattle.sg_machine.specs.declared.event.Act.{Act};
ghost use Rattle.sg_machine.specs.declared.state.Dest.{Dest};
ghost use Rattle.sg_machine.specs.declared.state.State.{State};
ghost use Rattle.sg_standing.specs.States.{counted};
ghost use Rattle.sg_standing.specs.Standing.{IsAt, DoesAct};
ghost use Rattle.sg_core.specs.Answers.{AnswersFront, AnswersFrontAt, ShowsLeft, buffer_at, is_front_broken};
ghost use Rattle.std.specs.Prelude.{false};

use crate::flow::Core;
use crate::parts::break_at;
use sg_counter::CoreFront;
use sg_device::{Disk, NoMemory};
use sg_list::Seq;
use sg_msg::Message;
use sg_sinks::Sink;
use sg_spool::RewriteRefusal;
use std::alloc::{AllocError, Global};

// The message of the entry at a place among those that wait, shared and not copied.
fn waiting_message(sink: &Sink, k: usize) -> Result<Message, NoMemory>
    requires { k < length sink.now.seen.entries }
    ensures { IfOk result (
        λ message. option_map (λ e. e.message) (slice_get sink.now.seen.entries k) ≡ Some message) }
{
    let Some(entry) = sink.get(k) else {
        unreachable!()
    };
    Ok(entry.message.share()?)
}

fn push(messages: &mut Vec<Message>, message: Message) -> Result<(), AllocError>
    ensures { OnOk result (messages.new.items ≡ messages.old.items ++ message ∷ []) }
{
    messages.push(message)?;
    Ok(())
}

// The messages of the first n entries that wait.
fn waiting_messages(alloc: Global, sink: &Sink, n: usize) -> Result<Vec<Message>, NoMemory>
    requires { n ≤ length sink.now.seen.entries }
    ensures { IfOk result
        (λ messages. messages.items ≡ map (λ e. e.message) (take n sink.now.seen.entries)) }
{
    let mut messages = Vec::with_capacity(alloc, n)?;
    for k in 0..n {
        let message = waiting_message(sink, k)?;
        push(&mut messages, message)?;
    }
    Ok(messages)
}

// Those that wait, where none stands on the disk.
fn waiting_front(alloc: Global, sink: &Sink, most: u32) -> Result<CoreFront, NoMemory>
    requires works { sink.now.seen.broken ≡ false }
    requires none { sink.now.seen.lengths ≡ [] }
    requires some { 0 < most }
    ensures { IfOk result (AnswersFront sink.now.seen sink.now.seen most) }
{
    let n = sink.waiting().min(most as usize);
    if n == 0 {
        return Ok(CoreFront::Empty);
    }
    let messages = waiting_messages(alloc, sink, n)?;
    Ok(CoreFront::Entries {
        place: sink.taken(),
        messages: Seq::new(messages),
    })
}

impl<D: Disk> Core<D> {
    /// The first entries that are left: of those on the destination's disk as many as were asked for, of
    /// which all but the first take at most 1,048,576 bytes; where there is none, those that wait.
    pub fn front(&mut self, alloc: Global, d: u32, most: u32) -> Result<CoreFront, NoMemory>
        requires dest { d < length self.old.sinks }
        requires some { 0 < most }
        requires few { self.old.calls + 1 < 2 ^ 54 }
        ensures does { DoesAct self.old self.new Act.Look }
        ensures front { IfOk result
            (AnswersFrontAt (slice_get self.old.sinks d) (slice_get self.new.sinks d) most) }
        ensures shows { IfOk result (λ front. (state : State) (dest : Dest) → IsAt self.old state
            → slice_get state.dests d ≡ Some dest → ShowsLeft self.old.stores dest front) }
        ensures err { OnErr result (self.new.sinks ≡ self.old.sinks) }
        ensures queue { buffer_at self.old.sinks d ≡ None → self.new ≡ counted self.old }
        ensures unbroken { buffer_at self.old.sinks d ≡ None
            → IfOk result (λ front. is_front_broken front ≡ false) }
    {
        self.calls += 1;
        let sink = self.sinks.at(d as usize);
        if sink.is_broken() {
            return Ok(CoreFront::Broken);
        }
        if sink.spooled() == 0 {
            return waiting_front(alloc, sink, most);
        }
        let place = sink.taken();
        let n = sink.run(most);
        let Some(buffer) = sink.setup().buffer else {
            unreachable!()
        };
        match self.stores.messages(alloc, buffer.store, n as u64) {
            Ok(messages) => Ok(CoreFront::Entries { place, messages }),
            Err(RewriteRefusal::NoMemory) => Err(AllocError),
            Err(RewriteRefusal::DiskFault) => {
                break_at(&mut self.sinks, d);
                Ok(CoreFront::Broken)
            }
        }
    }
}
