//! Operations that were done.
use graph_meaning::{Done, Op};
use graph_terms::Numbers;
use graph_trigger::{PatternRow, PatternRows, Trigger};
use std::test::Fail;

#[test]
fn operations_are_told(rt: HostRuntime) -> Result<(), Fail> {
    let alloc = rt.alloc();
    let mut rows = PatternRows::new(alloc);
    rows.push(PatternRow::Var { index: 0 })?;
    rows.push(PatternRow::App {
        symbol: 5,
        args: Numbers::from_slice(alloc, &[0])?,
    })?;
    let op = Op::Live {
        trigger: Trigger {
            forall: 0,
            place: 0,
            variables: 1,
            rows,
            roots: Numbers::from_slice(alloc, &[1])?,
        },
    };
    let done = Done {
        serial: 0,
        op: op.copy(alloc)?,
    };
    assert!(rt; done.live_trigger().is_some());
    assert!(rt; done.merged_ends().is_none());
    assert!(rt; !done.is_push());
    assert_eq!(rt; done.terms_added(), 0);
    Ok(())
}
