//! Decides what stands.
ghost use Rattle.std.specs.Prelude.{◌≡◌, ℕ, IfOk, IfErr};
ghost use Rattle.formula_assert.specs.Assertions.{held_of};
ghost use Rattle.formula_assert.specs.Exactly.{HoldsExactly};
ghost use Rattle.formula_assert.specs.InLevel.{KeepsLevels};
ghost use Rattle.search_check.specs.Verdicts.{IsVerdictOf, IsPastLimit, TellsOfAssignments};

use crate::outcome::Outcome;
use crate::search::Search;
use formula_assert::AssertionStack;
use formula_assert::laws::over_law;
use formula_table::EnterFault;
use match_graph::Matchers;
use search_laws::laws::{sat_law, unsat_law};
use std::alloc::Global;

/// Searches what the stack holds, with so many rounds. More is held after it, in the same levels.
fn search<M: Matchers>(
    alloc: Global,
    matchers: &M,
    stack: &mut AssertionStack,
    rounds: u32,
) -> Result<Outcome, EnterFault>
    requires { HoldsExactly stack.old.formulas (held_of stack.old) }
    ensures verdict { IfOk result (IsVerdictOf rounds stack.old.formulas (held_of stack.old)) }
    ensures limit { IfErr result (IsPastLimit rounds stack.old.formulas (held_of stack.old)) }
    ensures levels { KeepsLevels stack.old stack.new }
{
    over_law();
    let mut search = Search::new(alloc, stack)?;
    for _step in 0..u64::MAX {
        if let Some(outcome) = search.advance(alloc, matchers, stack, rounds)? {
            return Ok(outcome);
        }
    }
    Err(EnterFault::Memory)
}

/// Decides what the stack holds by the plain search, with so many rounds of instances, for which the matchers find the
/// matches: each clause holds whoever they are. What is held is to be exactly what the asserted nodes stand for. Whatever
/// is answered, the stack is as before.
///
/// `Unsat` tells that finitely many instances of foralls refute what is asserted, and the leaders that come with `Sat` make
/// an assignment that satisfies it.
///
/// `TermsFull` and `NodesFull` come where the search comes to an instance for which there is no room. `Memory` comes where
/// memory is refused, or a count would have passed the greatest number of its type.
pub fn check<M: Matchers>(
    alloc: Global,
    matchers: &M,
    stack: &mut AssertionStack,
    rounds: u32,
) -> Result<Outcome, EnterFault>
    requires exact { HoldsExactly stack.old.formulas (held_of stack.old) }
    ensures verdict { IfOk result (IsVerdictOf rounds stack.old.formulas (held_of stack.old)) }
    ensures limit { IfErr result (IsPastLimit rounds stack.old.formulas (held_of stack.old)) }
    ensures tells { IfOk result (TellsOfAssignments stack.old.formulas (held_of stack.old)) }
    ensures same { stack.new ≡ stack.old }
{
    let _rules = stack.depth();
    unsat_law();
    sat_law();
    let mark = stack.mark();
    let outcome = search(alloc, matchers, stack, rounds);
    stack.back_to(mark);
    outcome
}
