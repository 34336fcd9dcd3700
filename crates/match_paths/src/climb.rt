//! Climbs from a class up inverted paths.
ghost use Rattle.std.specs.Prelude.{◌≡◌, ℕ, ◌<◌, ◌↔◌, length, slice_get, Some, IfOk, OnOk, IsTrue};
ghost use Rattle.graph_meaning.specs.Standing.{terms_of};
ghost use Rattle.match_paths.specs.Climbing.{AreFirst, ClimbsAll, FindsAll, FindsAt, IsAboveTask, IsParentAt, IsParentBy, IsThis, PutsRoot};
ghost use Rattle.match_paths.specs.Inverted.{Begins};

use crate::claims::Claims;
use crate::link::Link;
use crate::step::Step;
use crate::task::Task;
use crate::task_list::TaskList;
use graph_meaning::{Claim, ClassGraph};
use graph_terms::Memory;
use match_trees::laws::path_law;
use match_trees::{EntryTable, NodeTable};
use std::alloc::Global;

/// Whether the class has what a path begins with.
fn begins<G: ClassGraph>(graph: &G, link: Link, class: u32) -> bool
    requires { class < length (terms_of (G.standing graph.now)) }
    ensures { IsTrue result ↔ Begins (G.standing graph.now) link class }
{
    match link {
        Link::Member { symbol } => graph.in_class(class, symbol, 0).is_some(),
        Link::Argument { symbol, place } => graph.parent(class, symbol, place, 0).is_some(),
        Link::Above { .. } => false,
    }
}

/// Finds the claims of a root at a node.
fn find_at(entries: &EntryTable, node: u32, root: u32, claims: &mut Claims) -> Result<(), Memory>
    ensures { OnOk result (FindsAt entries.now node root claims.old claims.new) }
{
    let _entries = entries.len();
    for number in entries.ends_at(node) {
        let entry = entries.entry(*number);
        claims.put(Claim {
            trigger: entry.trigger,
            start: entry.start,
            root,
        })?;
    }
    Ok(())
}

/// Finds the claims of a parent at a node, and notes the task above it.
fn climb_to<G: ClassGraph>(
    graph: &G,
    entries: &EntryTable,
    node: u32,
    parent: u32,
    tasks: &mut TaskList,
    claims: &mut Claims,
) -> Result<(), Memory>
    requires { parent < length (terms_of (G.standing graph.now)) }
    ensures { OnOk result (ClimbsAll (G.standing graph.now) entries.now (IsThis node parent) tasks.old tasks.new claims.old claims.new) }
{
    find_at(entries, node, parent, claims)?;
    let class = graph.leader(parent);
    tasks.put(Task { node, class })?;
    Ok(())
}

/// Climbs by one step to each parent of a class.
fn climb_link<G: ClassGraph>(
    graph: &G,
    entries: &EntryTable,
    class: u32,
    step: Step,
    tasks: &mut TaskList,
    claims: &mut Claims,
) -> Result<(), Memory>
    requires { class < length (terms_of (G.standing graph.now)) }
    ensures { OnOk result (ClimbsAll (G.standing graph.now) entries.now (IsParentAt (G.standing graph.now) class step.symbol step.place step.node) tasks.old tasks.new claims.old claims.new) }
{
    let _terms = graph.len();
    for k in 0..u32::MAX {
        match graph.parent(class, step.symbol, step.place, k) {
            Some(parent) => climb_to(graph, entries, step.node, parent, tasks, claims)?,
            None => return Ok(()),
        }
    }
    Err(Memory)
}

/// Climbs along the link of one node to each parent of a class.
fn climb_next<G: ClassGraph>(
    graph: &G,
    nodes: &NodeTable<Link>,
    entries: &EntryTable,
    class: u32,
    node: u32,
    tasks: &mut TaskList,
    claims: &mut Claims,
) -> Result<(), Memory>
    requires class { class < length (terms_of (G.standing graph.now)) }
    requires node { node < length nodes.now.labels }
    ensures { OnOk result (ClimbsAll (G.standing graph.now) entries.now (IsParentBy (G.standing graph.now) nodes.now class node) tasks.old tasks.new claims.old claims.new) }
{
    match *nodes.label(node) {
        Link::Above { symbol, place } => {
            let step = Step {
                symbol,
                place,
                node,
            };
            climb_link(graph, entries, class, step, tasks, claims)?;
            Ok(())
        }
        Link::Member { .. } => Ok(()),
        Link::Argument { .. } => Ok(()),
    }
}

/// Climbs from one task.
fn climb_task<G: ClassGraph>(
    graph: &G,
    nodes: &NodeTable<Link>,
    entries: &EntryTable,
    task: Task,
    tasks: &mut TaskList,
    claims: &mut Claims,
) -> Result<(), Memory>
    requires class { task.class < length (terms_of (G.standing graph.now)) }
    requires node { task.node < length nodes.now.labels }
    ensures { OnOk result (ClimbsAll (G.standing graph.now) entries.now (IsAboveTask (G.standing graph.now) nodes.now task) tasks.old tasks.new claims.old claims.new) }
{
    let _nodes = nodes.len();
    for node in nodes.nexts(Some(task.node)) {
        climb_next(graph, nodes, entries, task.class, *node, tasks, claims)?;
    }
    Ok(())
}

/// The task of a root, if the class has what its paths begin with.
fn put_root<G: ClassGraph>(
    graph: &G,
    nodes: &NodeTable<Link>,
    class: u32,
    root: u32,
    tasks: &mut TaskList,
) -> Result<(), Memory>
    requires class { class < length (terms_of (G.standing graph.now)) }
    requires root { root < length nodes.now.labels }
    ensures { OnOk result (PutsRoot (G.standing graph.now) nodes.now class root tasks.old tasks.new) }
{
    if begins(graph, *nodes.label(root), class) {
        tasks.put(Task { node: root, class })?;
    }
    Ok(())
}

/// The tasks with which a climb from the class begins.
fn first_tasks<G: ClassGraph>(
    alloc: Global,
    graph: &G,
    nodes: &NodeTable<Link>,
    class: u32,
) -> Result<TaskList, Memory>
    requires { class < length (terms_of (G.standing graph.now)) }
    ensures { IfOk result (λ tasks. AreFirst (G.standing graph.now) nodes.now class tasks) }
{
    let _nodes = nodes.len();
    let mut tasks = TaskList::new(alloc);
    for root in nodes.nexts(None) {
        put_root(graph, nodes, class, *root, &mut tasks)?;
    }
    Ok(tasks)
}

/// All claims to which inverted paths lead up from the class, each once.
pub fn climb<G: ClassGraph>(
    alloc: Global,
    graph: &G,
    nodes: &NodeTable<Link>,
    entries: &EntryTable,
    class: u32,
) -> Result<Claims, Memory>
    requires { class < length (terms_of (G.standing graph.now)) }
    ensures { IfOk result (λ claims. FindsAll (G.standing graph.now) nodes.now entries.now class claims) }
{
    path_law::<Link>();
    let _terms = graph.len();
    let _nodes = nodes.len();
    let mut tasks = first_tasks(alloc, graph, nodes, class)?;
    let mut claims = Claims::new(alloc);
    for turn in 0..u64::MAX {
        match tasks.get(turn as usize) {
            Some(task) => climb_task(graph, nodes, entries, task, &mut tasks, &mut claims)?,
            None => return Ok(claims),
        }
    }
    Err(Memory)
}
