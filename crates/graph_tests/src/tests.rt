//! Both graphs on the same operations.
mod agreement;
mod calls;
mod deed;
mod draw;
mod fact;
mod labels;
mod operations;
mod pair;
mod plain;
mod step;
mod tables;
mod trail;
mod triggers;

use deed::Deed::{Add, Differ, Live, Merge, Pop, Push};
use draw::draw_list;
use fact::Fact::{Apart, Clashes, Depth, Equal, Fixed, Fresh, Led, Limit, NoClash, Terms, Version};
use graph_congruence::{Clash, Graph};
use graph_meaning::ClassGraph;
use pair::Pair;
use std::alloc::Global;
use std::process::Abort;
use std::test::Fail;
use std::thread::{Threads, join};
use step::Step::{Call, Do, Falls, Find, Full, Mark, Refuse, See, Stands, TakeBack};
use step::{Step, passes};

/// Does the steps in order.
fn run(rt: &impl Abort, alloc: Global, pair: &mut Pair, steps: &[Step]) -> Result<(), Fail> {
    for step in steps {
        let passed = passes(pair, alloc, *step)?;
        assert!(rt; passed, "at {step:?}");
    }
    Ok(())
}

const EXAMPLE: &[Step<'static>] = &[
    Do(Add(2, &[])),
    Do(Add(3, &[])),
    Do(Add(4, &[2])),
    Do(Add(4, &[3])),
    Do(Add(4, &[4])),
    Do(Add(5, &[2, 3])),
];

/// The terms 2 to 7 are `a`, `b`, `f(a)`, `f(b)`, `f(f(a))` and `g(a, b)`.
fn example(rt: &impl Abort, alloc: Global) -> Result<Pair, Fail> {
    let mut pair = Pair::new(alloc, 40)?;
    run(rt, alloc, &mut pair, EXAMPLE)?;
    Ok(pair)
}

const CHAIN: &[Step<'static>] = &[
    Call(Add(2, &[]), &[]),
    Call(Add(4, &[2]), &[]),
    Call(Add(4, &[3]), &[]),
    Call(Add(4, &[4]), &[]),
    Call(Add(4, &[5]), &[]),
    Call(Add(4, &[6]), &[]),
    Call(Add(4, &[7]), &[]),
    Call(Add(4, &[8]), &[]),
    Call(Merge(5, 2), &[(2, 5), (3, 6), (4, 7), (2, 8), (3, 9)]),
    See(Apart(2, 3)),
    See(Apart(3, 4)),
    Call(Merge(2, 7), &[(2, 4), (2, 3)]),
    See(Terms(10)),
    See(Led(2, 2)),
];

#[test]
fn a_chain_collapses_to_one_class(rt: HostRuntime) -> Result<(), Fail> {
    let alloc = rt.alloc();
    let mut pair = Pair::new(alloc, 40)?;
    run(&rt, alloc, &mut pair, CHAIN)
}

const LEVELS: &[Step<'static>] = &[
    Mark,
    Do(Push),
    Do(Merge(2, 3)),
    Do(Live(0, &[1])),
    Mark,
    Do(Push),
    Do(Add(4, &[6])),
    Do(Merge(8, 2)),
    Do(Differ(4, 5)),
    Mark,
    See(Depth(2)),
    See(Terms(9)),
    Do(Pop),
    See(Depth(1)),
    See(Terms(8)),
    Stands(1),
    Falls(2),
    Do(Pop),
    See(Depth(0)),
    See(Version(15)),
    Stands(0),
    Falls(1),
    Falls(2),
];

#[test]
fn a_pop_gives_the_graph_at_its_push(rt: HostRuntime) -> Result<(), Fail> {
    let alloc = rt.alloc();
    let mut pair = example(&rt, alloc)?;
    run(&rt, alloc, &mut pair, LEVELS)
}

const SCOPES: &[Step<'static>] = &[
    Do(Push),
    Do(Merge(2, 3)),
    See(Equal(4, 5)),
    Do(Push),
    Do(Merge(4, 2)),
    See(Equal(6, 3)),
    Do(Pop),
    See(Apart(6, 3)),
    See(Apart(4, 2)),
    See(Equal(4, 5)),
    Do(Pop),
    See(Apart(2, 3)),
    See(Apart(4, 5)),
];

#[test]
fn terms_that_a_level_made_equal_are_apart_after_it(rt: HostRuntime) -> Result<(), Fail> {
    let alloc = rt.alloc();
    let mut pair = example(&rt, alloc)?;
    run(&rt, alloc, &mut pair, SCOPES)
}

const CLASHES: &[Step<'static>] = &[
    Do(Differ(0, 7)),
    Do(Differ(4, 5)),
    Do(Differ(2, 3)),
    Do(Push),
    See(NoClash),
    Do(Merge(3, 2)),
    See(Clashes(4, 5)),
    Do(Merge(1, 0)),
    See(Clashes(0, 1)),
    Do(Pop),
    See(NoClash),
];

#[test]
fn the_first_clash_is_told(rt: HostRuntime) -> Result<(), Fail> {
    let alloc = rt.alloc();
    let mut pair = example(&rt, alloc)?;
    run(&rt, alloc, &mut pair, CLASHES)
}

const TAKEN_BACK: &[Step<'static>] = &[
    TakeBack(Add(4, &[6])),
    TakeBack(Merge(2, 3)),
    TakeBack(Differ(2, 3)),
    TakeBack(Live(0, &[1])),
    See(Fresh),
    Do(Push),
    See(Fixed),
    Do(Merge(2, 3)),
    See(Fresh),
    Do(Pop),
    See(Fixed),
];

#[test]
fn the_last_operation_is_taken_back(rt: HostRuntime) -> Result<(), Fail> {
    let alloc = rt.alloc();
    let mut pair = example(&rt, alloc)?;
    run(&rt, alloc, &mut pair, TAKEN_BACK)
}

const CALLS: &[Step<'static>] = &[
    Call(Add(2, &[]), &[]),
    Call(Add(3, &[]), &[]),
    Find(2, &[], 2),
    Call(Add(4, &[2]), &[]),
    Call(Push, &[]),
    Call(Merge(3, 2), &[(2, 3)]),
    Call(Add(4, &[3]), &[(4, 5)]),
    Find(4, &[3], 5),
    Full(5, &[2, 3]),
    Call(Differ(4, 5), &[]),
    Call(Live(7, &[1]), &[]),
    Refuse(Add(4, &[2])),
    Refuse(Add(4, &[6])),
    Refuse(Merge(0, 6)),
    Refuse(Differ(6, 0)),
    Refuse(Live(7, &[])),
    See(Limit(6)),
    See(Version(8)),
    See(Clashes(4, 5)),
    Call(Pop, &[]),
    See(NoClash),
    Refuse(Pop),
    See(Version(9)),
    See(Terms(5)),
];

#[test]
fn each_call_answers_and_refuses(rt: HostRuntime) -> Result<(), Fail> {
    let alloc = rt.alloc();
    let mut pair = Pair::new(alloc, 6)?;
    run(&rt, alloc, &mut pair, CALLS)
}

#[test]
fn lists_of_operations_are_done_alike(rt: HostRuntime) -> Result<(), Fail> {
    let alloc = rt.alloc();
    for first in 0..8 {
        let alike = draw_list(alloc, first, 24)?;
        assert!(rt; alike, "in list {first}");
    }
    Ok(())
}

/// The first clash and how many operations were done, each asked by a thread of its own.
fn asked_at_once(rt: &impl Threads, graph: &Graph) -> (Option<Clash>, u64) {
    join(rt, || graph.clash(), || graph.version())
}

/// Whether two threads find at the same time that the graphs answer each call alike.
fn agree_at_once(rt: &impl Threads, pair: &Pair) -> bool {
    let (one, other) = join(rt, || pair.agrees(), || pair.agrees());
    one && other
}

/// Whether two threads that read the graphs at the same time get each answer.
fn read_at_once(rt: &impl Threads, pair: &Pair) -> bool {
    let (clash, version) = asked_at_once(rt, &pair.graph);
    let told = clash == Some(Clash { left: 4, right: 5 });
    told && version == 8 && agree_at_once(rt, pair)
}

const TWO_EQUAL: &[Step<'static>] = &[Do(Differ(4, 5)), Do(Merge(2, 3))];

/// The example where `f(a)` and `f(b)` are kept apart and `a` and `b` are equal.
fn clashing(rt: &impl Abort, alloc: Global) -> Result<Pair, Fail> {
    let mut pair = example(rt, alloc)?;
    run(rt, alloc, &mut pair, TWO_EQUAL)?;
    Ok(pair)
}

#[test]
fn two_threads_read_one_graph(rt: HostRuntime) -> Result<(), Fail> {
    let pair = clashing(&rt, rt.alloc())?;
    assert!(rt; read_at_once(&rt, &pair));
    Ok(())
}
