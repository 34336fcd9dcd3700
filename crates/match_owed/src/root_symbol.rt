//! The symbols of patterns.
ghost use Rattle.std.specs.Prelude.{[], ℕ, IfSome, IfNone};
ghost use Rattle.graph_meaning.specs.Justified.{AppliesAt};

use graph_trigger::{PatternRow, Trigger};

/// The symbol of the trigger's pattern at the place, if there is one.
pub fn root_symbol(trigger: &Trigger, start: u32) -> Option<u32>
    ensures some { IfSome result (λ symbol. AppliesAt trigger.now start [] symbol) }
    ensures none { IfNone result ((symbol : ℕ) → AppliesAt trigger.now start [] symbol → ⊥) }
{
    if start >= trigger.roots.len() {
        return None;
    }
    let root = trigger.roots.get(start);
    if root >= trigger.rows.len() {
        return None;
    }
    match trigger.rows.get(root) {
        PatternRow::Var { .. } => None,
        PatternRow::App { symbol, .. } => Some(*symbol),
    }
}
