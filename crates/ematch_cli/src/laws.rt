//! Laws of the definitions, on functions that do nothing.
ghost use Rattle.std.specs.Prelude.{◌≡◌, ℕ, true, false, List};
ghost use Rattle.em_outside.specs.declared.limits.Limits.{Limits};
ghost use Rattle.ematch_cli.specs.Output.{Answer, BeginsWith, IsOutput, IsOutputSoFar, IsFrontOf};
ghost use Rattle.ematch_cli.specs.Refuted.{UnsatIsRight};
ghost use Rattle.ematch_cli.specs.Satisfied.{SatIsRight};
ghost use Rattle.ematch_cli.specs.RunLaws.{RunLaws};
ghost use Rattle.em_words.specs.declared.task.Task.{Task};

use formula_assert::laws::{exactly_law, one_answer_law, tables_law};
use search_laws::laws::{one_verdict_law, sat_law, unsat_law};
use smt_commands::laws::session_law;

/// The laws of the crates below that a run stands on.
pub(crate) fn run_law()
    ensures { RunLaws }
{
    session_law();
    tables_law();
    exactly_law();
    one_answer_law();
    one_verdict_law();
}

/// A script has one answer at most, and so have the bytes of a script so far.
pub fn one_answer()
    ensures output { (task : Task) (limits : Limits) (bytes : List ℕ) (a b : Answer) → IsOutput task limits bytes a → IsOutput task limits bytes b → a ≡ b }
    ensures so_far { (task : Task) (limits : Limits) (bytes : List ℕ) (a b : Answer) → IsOutputSoFar task limits bytes a → IsOutputSoFar task limits bytes b → a ≡ b }
{
    run_law();
}

/// Where bytes are a front of what is answered to a script, or to its bytes so far, the answer begins with them.
pub fn front_law()
    ensures output { (task : Task) (limits : Limits) (bytes front : List ℕ) (answer : Answer)
        → IsFrontOf task limits true bytes front → IsOutput task limits bytes answer → BeginsWith front answer.bytes }
    ensures so_far { (task : Task) (limits : Limits) (bytes front : List ℕ) (answer : Answer)
        → IsFrontOf task limits false bytes front → IsOutputSoFar task limits bytes answer → BeginsWith front answer.bytes }
{
    run_law();
}

/// Where a check is answered by `unsat`, finitely many instances of foralls refute all that is asserted.
pub fn unsat_is_right()
    ensures { UnsatIsRight }
{
    run_law();
    unsat_law();
}

/// Where a check is answered by `sat`, the search ends in a branch whose leaders make an assignment that satisfies all that is
/// asserted, whichever symbols are the predicates, if the sorts are kept to.
pub fn sat_is_right()
    ensures { SatIsRight }
{
    run_law();
    sat_law();
}
