//! Tables of terms, and lists.
use graph_terms::{Name, Numbers, TableFault, TermRow, TermRows, TermTable};
use std::test::Fail;

#[test]
fn terms_stand_once(rt: HostRuntime) -> Result<(), Fail> {
    let mut table = TermTable::new(rt.alloc(), 3)?;
    assert_eq!(rt; table.add(7, &[])?, 2);
    assert_eq!(rt; table.add(7, &[])?, 2);
    assert_eq!(rt; table.add(8, &[]), Err(TableFault::Full));
    assert_eq!(rt; table.len(), table.limit());
    let row = table.row(2).copy(rt.alloc())?;
    assert_eq!(rt; row.symbol, 7);
    table.cut(2);
    assert!(rt; table.find(7, &[]).is_none());
    Ok(())
}

#[test]
fn lists_keep_their_items(rt: HostRuntime) -> Result<(), Fail> {
    let alloc = rt.alloc();
    let numbers = Numbers::from_slice(alloc, &[4, 2])?.copy(alloc)?;
    assert_eq!(rt; numbers.len(), 2);
    assert_eq!(rt; numbers.get(1), 2);
    let name = Name::from_slice(alloc, b"ab")?;
    assert_eq!(rt; name.len(), 2);
    assert_eq!(rt; name.get(1), b'b');
    assert_eq!(rt; name.as_slice(), b"ab".as_slice());
    let mut rows = TermRows::new(alloc);
    rows.push(TermRow {
        symbol: 9,
        args: numbers,
    })?;
    assert_eq!(rt; rows.len(), 1);
    assert_eq!(rt; rows.get(0).symbol, 9);
    Ok(())
}
