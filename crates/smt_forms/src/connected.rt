//! What a connective puts.
ghost use Rattle.std.specs.Prelude.{◌≡◌};
ghost use Rattle.smt_names.specs.Makes.{Makes};
ghost use Rattle.smt_forms.specs.Nodes.{connected, not_form};

use crate::chains::{put_distinct, put_equal, put_xor};
use crate::forms::{put_and, put_implies, put_or, put_true};
use crate::ite::put_ite;
use formula_draft::FormulaDraft;
use smt_names::{Connective, Refusal, Stop, Value};
use smt_text::Place;
use std::alloc::Global;

/// `not`.
fn put_not(
    alloc: Global,
    draft: &mut FormulaDraft,
    at: Place,
    parts: &[Value],
) -> Result<Value, Stop>
    ensures { Makes result draft.old draft.new (not_form at parts.now) }
{
    let _rows = draft.rows();
    match parts {
        [a] => Ok(a.swapped()),
        _ => Err(Stop::at(alloc, Refusal::BadForm, at)),
    }
}

/// What a connective puts for its parts.
#[tactic(auto, unfolding(crate::specs::Nodes::connected))]
pub(crate) fn put_connected(
    alloc: Global,
    draft: &mut FormulaDraft,
    at: Place,
    connective: Connective,
    parts: &[Value],
) -> Result<Value, Stop>
    ensures { Makes result draft.old draft.new (connected at connective parts.now) }
{
    match connective {
        Connective::True => put_true(alloc, draft, at),
        Connective::False => {
            let truth = put_true(alloc, draft, at)?;
            Ok(truth.swapped())
        }
        Connective::Not => put_not(alloc, draft, at, parts),
        Connective::And => put_and(alloc, draft, at, parts),
        Connective::Or => put_or(alloc, draft, at, parts),
        Connective::Implies => put_implies(alloc, draft, at, parts),
        Connective::Xor => put_xor(alloc, draft, at, parts),
        Connective::Equals => put_equal(alloc, draft, at, parts),
        Connective::Distinct => put_distinct(alloc, draft, at, parts),
        Connective::Ite => put_ite(alloc, draft, at, parts),
    }
}
