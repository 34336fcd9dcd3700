//! What a search answers.
ghost use Rattle.std.specs.Prelude.{◌≡◌, IfOk, IfErr};
ghost use Rattle.formula_assert.specs.Assertions.{held_of};
ghost use Rattle.formula_assert.specs.Exactly.{HoldsExactly};
ghost use Rattle.search_check.specs.Verdicts.{IsPastLimit};
ghost use Rattle.ematch_cli.specs.Response.{IsSearched};
ghost use Rattle.ematch_cli.specs.Reply.{outcome_line, outcome_why};

use formula_assert::AssertionStack;
use formula_table::EnterFault;
use match_graph::Matchers;
use search_check::{Outcome, Why, check};
use std::alloc::{AllocError, Global};

/// What is answered to a check, and why it is `unknown`, where it is.
#[derive(Debug, Drop)]
pub(crate) struct Checked {
    pub(crate) text: Vec<u8>,
    pub(crate) why: Option<Why>,
}

/// The line of how a search ended.
fn outcome_line(outcome: &Outcome) -> &'static [u8]
    ensures { result.now ≡ outcome_line outcome.now }
{
    match outcome {
        Outcome::Unsat => b"unsat\n",
        Outcome::Sat { .. } => b"sat\n",
        Outcome::Unknown { .. } => b"unknown\n",
    }
}

/// Why a search ended open, where it did.
fn outcome_why(outcome: &Outcome) -> Option<Why>
    ensures { result ≡ outcome_why outcome.now }
{
    match outcome {
        Outcome::Unsat | Outcome::Sat { .. } => None,
        Outcome::Unknown { why, .. } => Some(*why),
    }
}

/// Searches what is asserted, with so many rounds at most, and gives the line of how that ended, and why where it ended
/// open. The assertions are as before.
///
/// It fails as the search does, and for want of memory.
pub(crate) fn verdict<M: Matchers>(
    alloc: Global,
    matchers: &M,
    stack: &mut AssertionStack,
    rounds: u32,
) -> Result<Checked, EnterFault>
    requires { HoldsExactly stack.old.formulas (held_of stack.old) }
    ensures value { IfOk result (λ checked. IsSearched rounds stack.old checked.text.items checked.why) }
    ensures limit { IfErr result (IsPastLimit rounds stack.old.formulas (held_of stack.old)) }
    ensures same { stack.new ≡ stack.old }
{
    let outcome = check(alloc, matchers, stack, rounds)?;
    let why = outcome_why(&outcome);
    match Vec::from_slice(alloc, outcome_line(&outcome)) {
        Ok(text) => Ok(Checked { text, why }),
        Err(AllocError) => Err(EnterFault::Memory),
    }
}
