//! Sets of numbers.
use search_set::LeastSet;
use std::test::Fail;

#[test]
fn the_least_member_is_found(rt: HostRuntime) -> Result<(), Fail> {
    let mut set = LeastSet::new(rt.alloc(), 3)?;
    assert_eq!(rt; set.first(), None);
    set.set(5, true);
    set.set(2, true);
    assert_eq!(rt; set.first(), Some(2));
    set.set(2, false);
    assert_eq!(rt; set.first(), Some(5));
    Ok(())
}
