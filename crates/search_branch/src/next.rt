//! The next step by the values of nodes.
ghost use Rattle.std.specs.Prelude.{length};
ghost use Rattle.formula_table.specs.Formulas.{Formulas, IsFormulaTable};
ghost use Rattle.search_values.specs.Kept.{given_of};
ghost use Rattle.search_watch.specs.Service.{HasClash};
ghost use Rattle.search_branch.specs.Given.{IsGivenBy};
ghost use Rattle.search_branch.specs.Steps.{IsStep, IsWithin};
ghost use Rattle.search_laws.specs.Branch.{Branch};

use crate::step::Step;
use search_values::NodeValues;

/// The next step of a search, by the values of nodes, where there is no clash.
pub(crate) fn next_of(values: &NodeValues) -> Step
    ensures step { (formulas : Formulas) (branch : Branch) → IsFormulaTable formulas → IsGivenBy formulas branch.held branch.struck (given_of values.now) → (HasClash branch.held.graph.standing → ⊥) → IsStep formulas branch result }
    ensures within { (formulas : Formulas) (branch : Branch) → IsFormulaTable formulas → IsGivenBy formulas branch.held branch.struck (given_of values.now) → IsWithin (length formulas.nodes) result }
{
    if let Some(_stuck) = values.first_stuck() {
        return Step::Lost;
    }
    if let Some(unit) = values.first_unit() {
        let part = values.part(unit.node, unit.place);
        return Step::Assert { part };
    }
    match values.first_open() {
        Some(split) => {
            let part = values.part(split.node, split.place);
            Step::Split {
                node: split.node,
                place: split.place,
                part,
            }
        }
        None => Step::WayOut,
    }
}
