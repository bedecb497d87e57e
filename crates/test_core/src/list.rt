use sg_list::Seq;
use std::test::Fail;

#[test]
fn lists(rt: HostRuntime) -> Result<(), Fail> {
    let mut list = Seq::empty(rt.alloc());
    assert!(rt; list.is_empty());
    list.push(3u8)?;
    list.extend_from_slice(&[5, 7])?;
    let whole = Seq::new(list.copy()?.into_vec());
    assert_eq!(rt; whole.as_slice(), [3, 5, 7].as_slice());
    assert_eq!(rt; list.len(), 3);
    *list.at_mut(1) += 1;
    assert_eq!(rt; list.remove_first(), 3);
    assert_eq!(rt; list.get(0).copied(), Some(6));
    assert_eq!(rt; list.get(2).copied(), None);
    assert_eq!(rt; *list.at(1), 7);
    Ok(())
}
