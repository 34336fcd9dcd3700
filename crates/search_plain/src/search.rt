//! The plain search: whole states, of which those that are left wait in a list.
use crate::draft::Draft;
use crate::known::{Known, is_live};
use crate::marks::is_marked;
use crate::matching::new_instances;
use crate::node::{Node, Parts};
use crate::world::{Instance, Struck, World};
use std::alloc::{AllocError, Global};

/// How a search ends.
#[derive(Clone, Copy, PartialEq, Eq)]
pub(crate) enum Verdict {
    Unsat,
    Sat,
    Incomplete,
    Rounds,
}

/// What is to be done next in a state.
enum Next {
    Conflict,
    Assert(usize),
    Split(Struck, usize),
    Nothing,
}

/// The parts of an asserted disjunction.
fn asserted_parts(world: &World, node: usize) -> Option<Parts> {
    match world.nodes.get(node) {
        Some(Node::Either(parts)) if is_marked(world.asserted.as_slice(), node) => Some(*parts),
        _ => None,
    }
}

/// The parts of a disjunction that are left over, the others struck out.
fn left_over(world: &World, known: &Known, node: usize, parts: &Parts) -> Parts {
    let mut left = *parts;
    for (place, part) in left.iter_mut().enumerate() {
        if let Some(number) = *part {
            let is_struck = world.struck.contains(&Struck { node, place });
            if is_struck || known.is_known(number, false) {
                *part = None;
            }
        }
    }
    left
}

/// How many parts there are.
fn count(parts: &Parts) -> usize {
    let mut many: usize = 0;
    for part in parts {
        if part.is_some() {
            many = many.saturating_add(1);
        }
    }
    many
}

/// The first part, and its place.
fn first_part(parts: &Parts) -> Option<(usize, usize)> {
    for (place, part) in parts.iter().enumerate() {
        if let Some(number) = *part {
            return Some((place, number));
        }
    }
    None
}

/// Whether no part is known to be true.
fn is_open(known: &Known, parts: &Parts) -> bool {
    for part in parts {
        if let Some(number) = *part {
            if known.is_known(number, true) {
                return false;
            }
        }
    }
    true
}

/// Whether terms are equal that cannot be.
fn terms_clash(known: &Known) -> bool {
    for (left, right) in known.apart.iter() {
        if known.same(*left, *right) {
            return true;
        }
    }
    known.same(0, 1)
}

/// Whether nothing is left over of an asserted disjunction.
fn nothing_is_left(world: &World, known: &Known) -> bool {
    for node in 0..world.nodes.len() {
        if let Some(parts) = asserted_parts(world, node) {
            if count(&left_over(world, known, node, &parts)) == 0 {
                return true;
            }
        }
    }
    false
}

/// The one part left over of the first disjunction that has one and that is open, if it is not asserted.
fn first_unit(world: &World, known: &Known) -> Option<usize> {
    for node in 0..world.nodes.len() {
        let Some(parts) = asserted_parts(world, node) else {
            continue;
        };
        let left = left_over(world, known, node, &parts);
        if count(&left) != 1 || !is_open(known, &parts) {
            continue;
        }
        if let Some((_, part)) = first_part(&left) {
            if !is_marked(world.asserted.as_slice(), part) {
                return Some(part);
            }
        }
    }
    None
}

/// The first open disjunction, at its first place left over.
fn first_split(world: &World, known: &Known) -> Option<(Struck, usize)> {
    for node in 0..world.nodes.len() {
        let Some(parts) = asserted_parts(world, node) else {
            continue;
        };
        if is_open(known, &parts) {
            let (place, part) = first_part(&left_over(world, known, node, &parts))?;
            return Some((Struck { node, place }, part));
        }
    }
    None
}

/// What is to be done next.
fn find_next(world: &World, known: &Known) -> Next {
    if terms_clash(known) || nothing_is_left(world, known) {
        return Next::Conflict;
    }
    if let Some(part) = first_unit(world, known) {
        return Next::Assert(part);
    }
    match first_split(world, known) {
        Some((struck, part)) => Next::Split(struck, part),
        None => Next::Nothing,
    }
}

/// The body of the forall over the tuple is entered and asserted.
fn enter_instance(
    alloc: Global,
    drafts: &[Draft],
    world: &mut World,
    instance: Instance,
) -> Result<(), AllocError> {
    let Some(name) = world.foralls.get(instance.forall).copied() else {
        return Ok(());
    };
    let Some(draft) = drafts.get(name.draft) else {
        return Ok(());
    };
    let Some(quantified) = draft.foralls.get(name.index) else {
        return Ok(());
    };
    let root = world.enter(alloc, name.draft, draft, quantified.body, &instance.tuple)?;
    world.assert(root);
    world.done.push(instance)?;
    Ok(())
}

/// A round where nothing is left to split: how the search ends, or the instances are entered.
fn round(
    alloc: Global,
    drafts: &[Draft],
    world: &mut World,
    known: &Known,
    rounds: usize,
) -> Result<Option<Verdict>, AllocError> {
    let mut some_live = false;
    for forall in 0..world.foralls.len() {
        some_live = some_live || is_live(world, forall);
    }
    if !some_live {
        return Ok(Some(Verdict::Sat));
    }
    let new = new_instances(alloc, drafts, world, known)?;
    if new.is_empty() {
        return Ok(Some(Verdict::Incomplete));
    }
    if world.rounds >= rounds {
        return Ok(Some(Verdict::Rounds));
    }
    for instance in new.iter() {
        enter_instance(alloc, drafts, world, *instance)?;
    }
    world.rounds = world.rounds.saturating_add(1);
    Ok(None)
}

/// One step of a state, after which what it became waits on top of those that are left.
fn step(
    alloc: Global,
    drafts: &[Draft],
    mut world: World,
    rounds: usize,
    left: &mut Vec<World>,
) -> Result<Option<Verdict>, AllocError> {
    let known = Known::of_world(alloc, &world)?;
    match find_next(&world, &known) {
        Next::Conflict => return Ok(None),
        Next::Assert(part) => world.assert(part),
        Next::Split(struck, part) => {
            let mut second = world.copy()?;
            second.strike(struck, part)?;
            left.push(second)?;
            world.assert(part);
        }
        Next::Nothing => {
            let ending = round(alloc, drafts, &mut world, &known, rounds)?;
            if ending.is_some() {
                return Ok(ending);
            }
        }
    }
    left.push(world)?;
    Ok(None)
}

/// How the search of a state ends, if it does within so many steps and no state has more than so many terms.
pub(crate) fn search(
    alloc: Global,
    drafts: &[Draft],
    world: World,
    rounds: usize,
    steps: usize,
    terms: usize,
) -> Result<Option<Verdict>, AllocError> {
    let mut left = Vec::new(alloc);
    left.push(world)?;
    for _ in 0..steps {
        let Some(world) = left.pop() else {
            return Ok(Some(Verdict::Unsat));
        };
        if world.rows.len() > terms {
            return Ok(None);
        }
        let ending = step(alloc, drafts, world, rounds, &mut left)?;
        if ending.is_some() {
            return Ok(ending);
        }
    }
    Ok(None)
}
