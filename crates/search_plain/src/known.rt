//! What is known of terms and formulas, by passes over all of them.
use crate::node::{Node, Parts};
use crate::row::Row;
use crate::world::{World, at};
use std::alloc::{AllocError, Global};

/// Of each term the least term that is equal, and of each formula whether it is known to be true or false.
#[derive(Drop)]
pub(crate) struct Known {
    pub(crate) leaders: Vec<usize>,
    pub(crate) apart: Vec<(usize, usize)>,
    pub(crate) values: Vec<Option<bool>>,
}

/// Two classes become one: whether they were two.
fn join(leaders: &mut Vec<usize>, left: usize, right: usize) -> bool {
    let (one, other) = (at(leaders.as_slice(), left), at(leaders.as_slice(), right));
    for leader in leaders.iter_mut() {
        if *leader == one.max(other) {
            *leader = one.min(other);
        }
    }
    one != other
}

/// The leader of an argument, where there is one.
pub(crate) fn led(leaders: &[usize], arg: Option<usize>) -> Option<usize> {
    match arg {
        Some(term) => Some(at(leaders, term)),
        None => None,
    }
}

/// Whether two terms have one head and equal arguments.
fn are_alike(leaders: &[usize], one: &Row, other: &Row) -> bool {
    one.head == other.head
        && led(leaders, one.args[0]) == led(leaders, other.args[0])
        && led(leaders, one.args[1]) == led(leaders, other.args[1])
}

/// Joins a term with each that is alike: whether two classes became one.
fn join_alike(rows: &[Row], leaders: &mut Vec<usize>, term: usize) -> bool {
    let mut changed = false;
    for other in 0..rows.len() {
        if let (Some(row), Some(next)) = (rows.get(term), rows.get(other)) {
            if are_alike(leaders.as_slice(), row, next) && join(leaders, term, other) {
                changed = true;
            }
        }
    }
    changed
}

/// Joins terms that are alike, all pairs once: whether two classes became one.
fn join_pairs(rows: &[Row], leaders: &mut Vec<usize>) -> bool {
    let mut changed = false;
    for term in 0..rows.len() {
        if join_alike(rows, leaders, term) {
            changed = true;
        }
    }
    changed
}

/// What a literal says, or what its negation does: two terms are equal, or two are not.
fn told(
    node: &Node,
    holds: bool,
    leaders: &mut Vec<usize>,
    apart: &mut Vec<(usize, usize)>,
) -> Result<(), AllocError> {
    match node {
        Node::Equal {
            positive,
            left,
            right,
        } => {
            if *positive == holds {
                join(leaders, *left, *right);
            } else {
                apart.push((*left, *right))?;
            }
        }
        Node::Atom { positive, term } => {
            join(leaders, *term, if *positive == holds { 0 } else { 1 });
        }
        _ => {}
    }
    Ok(())
}

/// The value of a literal that has this value where it is positive.
fn turned(positive: bool, value: Option<bool>) -> Option<bool> {
    match value {
        Some(holds) => Some(holds == positive),
        None => None,
    }
}

/// The value of a part that is there.
fn value_at(values: &[Option<bool>], part: usize) -> Option<bool> {
    values.get(part).copied().unwrap_or(None)
}

/// The value of a disjunction, or of a conjunction if truth and falsity are exchanged.
fn joined_value(values: &[Option<bool>], parts: &Parts, deciding: bool) -> Option<bool> {
    let mut value = Some(!deciding);
    for part in parts {
        if let Some(number) = *part {
            match value_at(values, number) {
                Some(holds) if holds == deciding => return Some(deciding),
                Some(_) => {}
                None => value = None,
            }
        }
    }
    value
}

impl Known {
    /// What the asserted formulas and those that were given up say of terms.
    fn of_terms(alloc: Global, world: &World) -> Result<Known, AllocError> {
        let mut leaders = Vec::new(alloc);
        for term in 0..world.rows.len() {
            leaders.push(term)?;
        }
        let mut apart = Vec::new(alloc);
        for (node, asserted) in world.nodes.iter().zip(world.asserted.iter()) {
            if *asserted {
                told(node, true, &mut leaders, &mut apart)?;
            }
        }
        for number in world.refuted.iter() {
            if let Some(node) = world.nodes.get(*number) {
                told(node, false, &mut leaders, &mut apart)?;
            }
        }
        for _ in 0..world.rows.len() {
            if !join_pairs(world.rows.as_slice(), &mut leaders) {
                break;
            }
        }
        Ok(Known {
            leaders,
            apart,
            values: Vec::new(alloc),
        })
    }

    /// Whether two terms are equal.
    pub(crate) fn same(&self, left: usize, right: usize) -> bool {
        at(self.leaders.as_slice(), left) == at(self.leaders.as_slice(), right)
    }

    /// Whether two terms are kept apart.
    fn are_apart(&self, left: usize, right: usize) -> bool {
        for (one, other) in self.apart.iter() {
            if self.same(left, *one) && self.same(right, *other) {
                return true;
            }
            if self.same(left, *other) && self.same(right, *one) {
                return true;
            }
        }
        false
    }

    /// The value of a leaf, or of a formula over those before it.
    fn value_of(&self, world: &World, node: &Node) -> Option<bool> {
        match node {
            Node::Equal {
                positive,
                left,
                right,
            } => {
                if self.same(*left, *right) {
                    Some(*positive)
                } else if self.are_apart(*left, *right) {
                    Some(!*positive)
                } else {
                    None
                }
            }
            Node::Atom { positive, term } => {
                if self.same(*term, 0) {
                    turned(*positive, Some(true))
                } else if self.same(*term, 1) {
                    turned(*positive, Some(false))
                } else {
                    None
                }
            }
            Node::Each(parts) => joined_value(self.values.as_slice(), parts, false),
            Node::Either(parts) => joined_value(self.values.as_slice(), parts, true),
            Node::Forall(forall) => {
                if is_live(world, *forall) {
                    Some(true)
                } else {
                    None
                }
            }
        }
    }

    /// What is known of all terms and formulas.
    pub(crate) fn of_world(alloc: Global, world: &World) -> Result<Known, AllocError> {
        let mut known = Known::of_terms(alloc, world)?;
        for node in world.nodes.iter() {
            let value = known.value_of(world, node);
            known.values.push(value)?;
        }
        Ok(known)
    }

    /// Whether a formula is known to have this value.
    pub(crate) fn is_known(&self, node: usize, value: bool) -> bool {
        value_at(self.values.as_slice(), node) == Some(value)
    }
}

/// Whether the forall is asserted.
pub(crate) fn is_live(world: &World, forall: usize) -> bool {
    for (node, asserted) in world.nodes.iter().zip(world.asserted.iter()) {
        if *asserted && *node == Node::Forall(forall) {
            return true;
        }
    }
    false
}
