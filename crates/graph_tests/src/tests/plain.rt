//! The plain graph.
use graph_meaning::{ClassGraph, Op};
use graph_plain::{PlainGraph, list_matches};
use graph_terms::{Memory, Numbers, TableFault};
use graph_trigger::{PatternRow, PatternRows, Trigger};
use std::alloc::Global;
use std::test::Fail;
use std::thread::join;

fn add(alloc: Global, symbol: u32, args: &[u32]) -> Result<Op, Memory> {
    let args = Numbers::from_slice(alloc, args)?;
    Ok(Op::Add { symbol, args })
}

/// The trigger `f(x)`.
fn live(alloc: Global) -> Result<Op, Memory> {
    let mut rows = PatternRows::new(alloc);
    rows.push(PatternRow::Var { index: 0 })?;
    rows.push(PatternRow::App {
        symbol: 4,
        args: Numbers::from_slice(alloc, &[0])?,
    })?;
    let trigger = Trigger {
        forall: 0,
        place: 0,
        variables: 1,
        rows,
        roots: Numbers::from_slice(alloc, &[1])?,
    };
    Ok(Op::Live { trigger })
}

/// Does the operation where it is lawful.
fn try_op(graph: &mut PlainGraph, op: Op) -> Result<bool, TableFault> {
    if !graph.lawful(&op) {
        return Ok(false);
    }
    graph.apply(op)?;
    Ok(true)
}

/// The terms 2 to 5 are `a`, `b`, `f(b)` and `f(a)`, and the trigger is live.
fn example(alloc: Global) -> Result<PlainGraph, TableFault> {
    let mut graph = PlainGraph::new(alloc, 6)?;
    for (symbol, args) in [(2, [].as_slice()), (3, &[]), (4, &[3]), (4, &[2])] {
        let op = add(alloc, symbol, args)?;
        let _lawful = try_op(&mut graph, op)?;
    }
    let op = live(alloc)?;
    let _lawful = try_op(&mut graph, op)?;
    Ok(graph)
}

#[test]
fn lawful_operations_are_told(rt: HostRuntime) -> Result<(), Fail> {
    let alloc = rt.alloc();
    let mut graph = example(alloc)?;
    let old = add(alloc, 4, &[2])?;
    assert!(rt; !graph.lawful(&old) && !graph.lawful(&Op::Pop));
    assert!(rt; !graph.lawful(&Op::Merge { left: 0, right: 6 }));
    assert!(rt; graph.lawful(&Op::Differ { left: 0, right: 5 }));
    let new = add(alloc, 5, &[])?;
    assert_eq!(rt; try_op(&mut graph, new), Err(TableFault::Full));
    assert_eq!(rt; (graph.limit(), graph.version()), (6, 5));
    Ok(())
}

#[test]
fn equal_terms_are_one_class(rt: HostRuntime) -> Result<(), Fail> {
    let mut graph = example(rt.alloc())?;
    assert!(rt; try_op(&mut graph, Op::Merge { left: 3, right: 2 })?);
    assert_eq!(rt; graph.len(), 6);
    assert!(rt; graph.same(4, 5));
    assert_eq!(rt; (graph.leader(5), graph.row(5).symbol), (4, 4));
    assert_eq!(rt;
        (graph.find(4, &[3]), graph.with_symbol(4, 1)),
        (Some(4), Some(5))
    );
    assert_eq!(rt;
        (graph.in_class(5, 4, 0), graph.parent(2, 4, 0, 2)),
        (Some(4), None)
    );
    Ok(())
}

#[test]
fn a_pop_takes_its_level_away(rt: HostRuntime) -> Result<(), Fail> {
    let mut graph = example(rt.alloc())?;
    let before = graph.front();
    assert!(rt; try_op(&mut graph, Op::Push)?);
    let within = graph.front();
    assert!(rt; try_op(&mut graph, Op::Pop)?);
    assert_eq!(rt; (within.length, within.last, graph.version()), (6, 5, 7));
    assert_eq!(rt; graph.front(), before);
    assert!(rt; graph.still_front(&before) && !graph.still_front(&within));
    Ok(())
}

#[test]
fn matches_are_listed_in_order(rt: HostRuntime) -> Result<(), Fail> {
    let graph = example(rt.alloc())?;
    assert_eq!(rt; graph.triggers(), 1);
    let tuples = list_matches(rt.alloc(), &graph, graph.trigger(0))?;
    assert_eq!(rt; tuples.len(), 2);
    assert_eq!(rt; tuples[0].as_slice(), [2].as_slice());
    assert_eq!(rt; tuples[1].as_slice(), [3].as_slice());
    Ok(())
}

#[test]
fn two_threads_may_read(rt: HostRuntime) -> Result<(), Fail> {
    let graph = example(rt.alloc())?;
    let (terms, triggers) = join(&rt, || graph.len(), || graph.triggers());
    assert_eq!(rt; (terms, triggers), (6, 1));
    Ok(())
}
