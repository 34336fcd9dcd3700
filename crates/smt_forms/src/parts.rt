//! The nodes and rows of the parts of a form.
ghost use Rattle.std.specs.Prelude.{◌≡◌, map, IfOk};
ghost use Rattle.smt_names.specs.Value.{row_of, other};
ghost use Rattle.smt_forms.specs.Nodes.{selves, all_have_complements, complements};
ghost use Rattle.smt_forms.specs.Applied.{values_of};

use graph_terms::{Memory, Numbers};
use smt_names::{Arg, Value};
use std::alloc::Global;

/// What the arguments stand for.
pub(crate) fn values_of(alloc: Global, args: &[Arg]) -> Result<Vec<Value>, Memory>
    ensures { IfOk result (λ values. values.items ≡ values_of args.now) }
{
    let mut values = Vec::new(alloc);
    for arg in args {
        values.push(arg.value)?;
    }
    Ok(values)
}

/// The nodes of the parts.
pub(crate) fn selves_of(alloc: Global, parts: &[Value]) -> Result<Numbers, Memory>
    ensures { IfOk result (λ numbers. numbers ≡ selves parts.now) }
{
    let mut numbers = Vec::new(alloc);
    for part in parts {
        numbers.push(part.node())?;
    }
    Numbers::from_slice(alloc, &numbers)
}

/// The nodes of the complements of the parts, of which each has one.
pub(crate) fn others_of(alloc: Global, parts: &[Value]) -> Result<Numbers, Memory>
    ensures { IfOk result (λ numbers. numbers ≡ map other parts.now) }
{
    let mut numbers = Vec::new(alloc);
    for part in parts {
        numbers.push(part.other())?;
    }
    Numbers::from_slice(alloc, &numbers)
}

/// The rows of the parts.
pub(crate) fn rows_of(alloc: Global, parts: &[Value]) -> Result<Numbers, Memory>
    ensures { IfOk result (λ numbers. numbers ≡ map row_of parts.now) }
{
    let mut numbers = Vec::new(alloc);
    for part in parts {
        numbers.push(part.row())?;
    }
    Numbers::from_slice(alloc, &numbers)
}

/// Whether each part has a complement.
fn have_complements(parts: &[Value]) -> bool
    ensures { result ≡ all_have_complements parts.now }
{
    for part in parts {
        if part.complement().is_none() {
            return false;
        }
    }
    true
}

/// The nodes of the complements of the parts, where each has one.
pub(crate) fn complements_of(alloc: Global, parts: &[Value]) -> Result<Option<Numbers>, Memory>
    ensures { IfOk result (λ found. found ≡ complements parts.now) }
{
    if have_complements(parts) {
        let others = others_of(alloc, parts)?;
        Ok(Some(others))
    } else {
        Ok(None)
    }
}
