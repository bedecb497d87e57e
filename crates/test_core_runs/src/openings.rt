// Cores that open over stores that hold something, in the words of a replay, which begins with fresh ones.
ghost use Rattle.std.specs.Prelude.{◌<◌};

use crate::cores::offer;
use crate::entries::MadeOffer;
use crate::lines::DestLine;
use sg_list::Seq;
use sg_machine::{Act, Admission, Event, Verdict};
use sg_msg::Offer;
use std::alloc::{AllocError, Global};

/// What a core finds in its stores: the positions of its sources, and the entries of each destination.
#[derive(Drop)]
pub(crate) struct OpenedCore {
    pub(crate) positions: [u64; 3],
    pub(crate) lines: [DestLine; 3],
}

fn event(alloc: Global, act: Act) -> Event {
    Event {
        act,
        failed: Seq::empty(alloc),
    }
}

fn add_event(alloc: Global, events: &mut Vec<Event>, act: Act) -> Result<(), AllocError> {
    events.push(event(alloc, act))?;
    Ok(())
}

fn add_offer(
    alloc: Global,
    offers: &mut Vec<Offer>,
    number: u32,
    made: &MadeOffer,
) -> Result<(), AllocError> {
    offers.push(offer(alloc, made.dest, number, made.size, false)?)?;
    Ok(())
}

// Offers without flow-control, which the disk-buffer takes.
fn add_line(
    alloc: Global,
    made: &[MadeOffer],
    numbers: &[u32],
    offers: &mut Vec<Offer>,
    verdicts: &mut Vec<Verdict>,
) -> Result<(), AllocError> {
    for number in numbers {
        if let Some(made) = made.get(*number as usize) {
            add_offer(alloc, offers, *number, made)?;
            verdicts.push(Verdict::Spooled)?;
        }
    }
    Ok(())
}

fn admit(
    alloc: Global,
    inlet: u32,
    end: u64,
    offers: Vec<Offer>,
    verdicts: Vec<Verdict>,
) -> Result<Act, AllocError> {
    let mut records = Seq::empty(alloc);
    records.push(Admission {
        end,
        offers: Seq::new(offers),
    })?;
    Ok(Act::Admit {
        inlet,
        records,
        verdicts: Seq::new(verdicts),
    })
}

// A record of source 0 brings the entries that are found.
fn add_entries(
    alloc: Global,
    made: &[MadeOffer],
    lines: &[DestLine; 3],
    events: &mut Vec<Event>,
) -> Result<(), AllocError> {
    let mut offers = Vec::new(alloc);
    let mut verdicts = Vec::new(alloc);
    for d in 0..3usize {
        let numbers = lines[d].on_disk();
        add_line(alloc, made, numbers, &mut offers, &mut verdicts)?;
    }
    let act = admit(alloc, 0, 0, offers, verdicts)?;
    add_event(alloc, events, act)
}

// A record of the source ends at the position that is found, and that is stored.
fn add_place(
    alloc: Global,
    inlet: u32,
    position: u64,
    events: &mut Vec<Event>,
) -> Result<(), AllocError> {
    if position == 0 {
        add_event(alloc, events, Act::Look)?;
        return add_event(alloc, events, Act::Look);
    }
    let act = admit(alloc, inlet, position, Vec::new(alloc), Vec::new(alloc))?;
    add_event(alloc, events, act)?;
    add_event(alloc, events, Act::Store(inlet, position))
}

/// The events over fresh stores that lead to what is found: one for the entries, and two for each source.
pub(crate) fn events_of(
    alloc: Global,
    made: &[MadeOffer],
    found: &OpenedCore,
) -> Result<Vec<Event>, AllocError> {
    let mut events = Vec::new(alloc);
    add_entries(alloc, made, &found.lines, &mut events)?;
    for i in 0..3u32 {
        add_place(alloc, i, found.positions[i as usize], &mut events)?;
    }
    Ok(events)
}

// The event of that number is none any more.
fn forget(alloc: Global, events: &mut [Event], number: usize) {
    if number < events.len() {
        events[number] = event(alloc, Act::Look);
    }
}

/// The source begins anew at place 0: nothing is found at it any more.
pub(crate) fn forget_place(alloc: Global, events: &mut [Event], i: u32)
    requires { i < 3 }
{
    let first = 1 + 2 * i as usize;
    forget(alloc, events, first);
    forget(alloc, events, first + 1);
}
