// A queue from end to end.
use sg_msg::Message;
use sg_queue::{Entry, Queue};
use sg_time::Stamp;
use std::alloc::{AllocError, Global};
use std::test::Fail;

const STAMP: Stamp = Stamp { at: 0, offset: 0 };

fn push(alloc: Global, queue: &mut Queue, place: u64, flow: bool) -> Result<(), AllocError> {
    let message = Message::new(alloc, 13, STAMP, STAMP)?;
    queue.reserve(1)?;
    queue.push(Entry {
        place,
        inlet: 0,
        number: place,
        flow,
        message,
    });
    Ok(())
}

fn filled(alloc: Global) -> Result<Queue, AllocError> {
    let mut queue = Queue::new(alloc);
    push(alloc, &mut queue, 4, true)?;
    push(alloc, &mut queue, 5, false)?;
    push(alloc, &mut queue, 6, false)?;
    Ok(queue)
}

fn place_of(entry: Option<&Entry>) -> Option<u64> {
    match entry {
        Some(entry) => Some(entry.place),
        None => None,
    }
}

// The place of the entry that is popped, and how many without flow-control are left.
fn popped(queue: &mut Queue) -> (Option<u64>, u64) {
    match queue.pop() {
        Some(entry) => (Some(entry.place), queue.unflowed()),
        None => (None, queue.unflowed()),
    }
}

#[test]
fn first_in_first_out(rt: HostRuntime) -> Result<(), Fail> {
    let mut queue = filled(rt.alloc())?;
    assert_eq!(rt; (queue.len(), queue.unflowed()), (3, 2));
    assert_eq!(rt; place_of(queue.front()), Some(4));
    assert_eq!(rt; place_of(queue.get(2)), Some(6));
    assert!(rt; queue.get(3).is_none());
    for (place, unflowed) in [(4, 2), (5, 1), (6, 0)] {
        assert_eq!(rt; popped(&mut queue), (Some(place), unflowed));
    }
    assert!(rt; queue.is_empty());
    Ok(())
}
