//! What a run knows between two commands.

use formula_assert::AssertionStack;
use search_check::Why;
use smt_commands::Session;
use std::marker::Model;

/// The session, the standing assertions, and why the last check was answered by `unknown`, if it was.
#[derive(Drop)]
pub(crate) struct Situation {
    pub(crate) session: Session,
    pub(crate) stack: AssertionStack,
    pub(crate) why: Option<Why>,
}

impl Model for Situation {
    ghost use Rattle.ematch_cli.specs.RunState.{RunState, run_state};

    ghost Value = { RunState };

    ghost view = { λ s. run_state s.session s.stack s.why };
}
