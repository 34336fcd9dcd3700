//! What is kept of a way out.
ghost use Rattle.std.specs.Prelude.{◌≡◌, ◌++◌, ◌∷◌, [], IfOk, OnOk};
ghost use Rattle.formula_assert.specs.Assertions.{held_of};
ghost use Rattle.search_laws.specs.Kept.{AreLeaders};
ghost use Rattle.search_check.specs.Verdicts.{IsKept};

use crate::outcome::Kept;
use formula_assert::AssertionStack;
use graph_meaning::ClassGraph;
use graph_terms::{Memory, Numbers};
use match_graph::MatchingGraph;
use std::alloc::Global;

/// Puts a number last.
fn push_number(numbers: &mut Vec<u32>, number: u32) -> Result<(), Memory>
    ensures { OnOk result (numbers.new.items ≡ numbers.old.items ++ number ∷ []) }
{
    numbers.push(number)?;
    Ok(())
}

/// The leader of each term, by number.
fn leaders_of(alloc: Global, graph: &MatchingGraph) -> Result<Numbers, Memory>
    ensures { IfOk result (AreLeaders graph.now.standing) }
{
    let mut leaders = Vec::new(alloc);
    for term in 0..graph.len() {
        push_number(&mut leaders, graph.leader(term))?;
    }
    let numbers = Numbers::from_slice(alloc, &leaders)?;
    Ok(numbers)
}

/// The leaders and the asserted nodes of what the stack holds, and how many instances each round entered.
pub(crate) fn kept_of(alloc: Global, stack: &AssertionStack, spent: &[u32]) -> Result<Kept, Memory>
    ensures { IfOk result (IsKept (held_of stack.now) spent.now) }
{
    let leaders = leaders_of(alloc, stack.graph())?;
    let asserted = Numbers::from_slice(alloc, stack.asserted())?;
    let rounds = Numbers::from_slice(alloc, spent)?;
    Ok(Kept {
        leaders,
        asserted,
        rounds,
    })
}
