//! Laws of the definitions, on functions that do nothing.
ghost use Rattle.std.specs.Prelude.{◌≡◌, ℕ, ◌<◌, ◌++◌, List, length, All};
ghost use Rattle.graph_terms.specs.declared.term_row.TermRow.{TermRow};
ghost use Rattle.formula_draft.specs.Draft.{Formula, IsFormula};
ghost use Rattle.formula_table.specs.Body.{IsFormulaOver};
ghost use Rattle.formula_table.specs.Formulas.{Formulas, IsFormulaTable};
ghost use Rattle.formula_table.specs.Entry.{Enters};
ghost use Rattle.formula_table.specs.Instance.{HasVariables, EntersInstance};
ghost use Rattle.formula_table.specs.EntryLaw.{StandsAfterEntry};

/// After a formula was entered over a tuple of terms that stand, and after an instance of a forall was, terms and formulas
/// are tables where they were, and nodes are over terms that stand where they were. A formula is one over no variables.
pub fn entry_law()
    ensures closed { (formula : Formula) → IsFormula formula → IsFormulaOver 0 formula }
    ensures entered { (formula : Formula) (tuple : List ℕ) (rows later : List TermRow) (limit : ℕ) (old new : Formulas) (number : ℕ)
        → IsFormulaOver (length tuple) formula → All (λ term. term < length rows) tuple
        → Enters (λ added. later ≡ rows ++ added) formula tuple rows limit old new number
        → StandsAfterEntry rows later old new number }
    ensures of_forall { (forall : ℕ) (tuple : List ℕ) (rows later : List TermRow) (limit : ℕ) (old new : Formulas) (number : ℕ)
        → IsFormulaTable old → HasVariables old forall (length tuple) → All (λ term. term < length rows) tuple
        → EntersInstance (λ added. later ≡ rows ++ added) forall tuple rows limit old new number
        → StandsAfterEntry rows later old new number }
{}
