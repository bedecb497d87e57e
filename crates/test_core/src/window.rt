use sg_window::Tracker;
use std::test::Fail;

#[test]
fn acknowledges_out_of_order(rt: HostRuntime) -> Result<(), Fail> {
    let mut tracker = Tracker::new(rt.alloc(), 2, 0)?;
    let first = tracker.begin(4, 1);
    let second = tracker.begin(9, 1);
    assert_eq!(rt; (first, second), (0, 1));
    tracker.ack(1);
    assert_eq!(rt; (tracker.mark(), tracker.credit()), (0, 0));
    tracker.ack(0);
    assert_eq!(rt; (tracker.mark(), tracker.credit()), (9, 2));
    assert_eq!(rt; tracker.begun(), 2);
    Ok(())
}
