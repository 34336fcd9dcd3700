//! Laws of the definitions, each on a function that does nothing.
ghost use Rattle.std.specs.Prelude.{◌≡◌, ◌≢◌, ◌++◌, ℕ, ◌<◌, List, length};
ghost use Rattle.graph_meaning.specs.declared.done.Done.{Done};
ghost use Rattle.formula_draft.specs.Draft.{Formula, IsFormula};
ghost use Rattle.formula_table.specs.declared.enter_fault.EnterFault.{EnterFault as Fault};
ghost use Rattle.formula_table.specs.declared.enter_fault.EnterFault.TheVariants.{Memory};
ghost use Rattle.formula_table.specs.Formulas.{Formulas};
ghost use Rattle.formula_table.specs.Instance.{HasVariables};
ghost use Rattle.formula_assert.specs.Held.{Held};
ghost use Rattle.formula_assert.specs.Asserts.{Asserts};
ghost use Rattle.formula_assert.specs.Assertions.{Assertions, held_of, no_assertions, pushed, popped};
ghost use Rattle.formula_assert.specs.AssertFormula.{AssertsFormula, StopsAssert};
ghost use Rattle.formula_assert.specs.AssertInstance.{TermsStand, EntersBody, AssertsInstance, StopsAssertInstance};
ghost use Rattle.formula_assert.specs.Tables.{AreTables};
ghost use Rattle.formula_assert.specs.Exactly.{AreExact};
ghost use Rattle.formula_assert.specs.Stands.{AreAssertions};
ghost use Rattle.formula_assert.specs.InLevel.{HoldsMoreOver, KeepsLevels, StandAlike};

/// To assert a node has one outcome at most.
pub fn asserts_law()
    ensures once { (formulas : Formulas) (n : ℕ) (before one other : Held) → Asserts formulas n before one → Asserts formulas n before other → one ≡ other }
{}

/// The levels are kept where nothing comes, where more is held over the same formulas, and where they are kept and then kept
/// again; and what stood is the beginning of what stands then.
pub fn over_law()
    ensures same { (now : Assertions) → KeepsLevels now now }
    ensures over { (before after : Assertions) → HoldsMoreOver before after → KeepsLevels before after }
    ensures both { (first second third : Assertions) → KeepsLevels first second → KeepsLevels second third → KeepsLevels first third }
    ensures stands { (before after : Assertions) → KeepsLevels before after → (more : List Done) × (after.graph.standing ≡ before.graph.standing ++ more) }
{}

/// An instance is asserted where it was entered and then its root was asserted.
pub fn instance_law()
    ensures { (forall root : ℕ) (tuple : List ℕ) (before entered after : Assertions) → EntersBody forall tuple before entered root → HoldsMoreOver entered after → Asserts entered.formulas root (held_of entered) (held_of after) → AssertsInstance forall tuple before after }
{}

/// What came in a level goes with it, and a level that ends gives back what stood when it was opened.
pub fn pop_law()
    ensures gone { (before after : Assertions) → 0 < length before.saved → KeepsLevels before after → StandAlike (popped before) (popped after) }
    ensures back { (before after : Assertions) → KeepsLevels (pushed before) after → StandAlike before (popped after) }
{}

/// The terms and the formulas are tables in what a stack holds, and they are at the start, after a level was opened or ended,
/// and after a formula or an instance of a forall was asserted.
pub fn tables_law()
    ensures start { (terms nodes : ℕ) → AreTables (no_assertions terms nodes) }
    ensures opened { (now : Assertions) → AreTables now → AreTables (pushed now) }
    ensures ended { (now : Assertions) → AreTables now → AreTables (popped now) }
    ensures asserted { (formula : Formula) (before after : Assertions) → IsFormula formula → AreTables before → AssertsFormula formula before after → AreTables after }
    ensures asserted_instance { (forall : ℕ) (tuple : List ℕ) (before after : Assertions) → HasVariables before.formulas forall (length tuple) → TermsStand before tuple → AreTables before → AssertsInstance forall tuple before after → AreTables after }
    ensures held { (now : Assertions) → AreAssertions now → AreTables now }
{}

/// What is held is exactly what the asserted nodes stand for, now and as it stood when each level was opened: so it is at the
/// start, after a level was opened or ended, after a formula or an instance of a forall was asserted, and after one was refused.
pub fn exactly_law()
    ensures start { (terms nodes : ℕ) → AreExact (no_assertions terms nodes) }
    ensures opened { (now : Assertions) → AreExact now → AreExact (pushed now) }
    ensures ended { (now : Assertions) → AreExact now → AreExact (popped now) }
    ensures asserted { (formula : Formula) (before after : Assertions) → AreTables before → AreExact before → AssertsFormula formula before after → AreExact after }
    ensures stopped { (formula : Formula) (before after : Assertions) (fault : Fault) → AreExact before → StopsAssert formula before after fault → AreExact after }
    ensures asserted_instance { (forall : ℕ) (tuple : List ℕ) (before after : Assertions) → AreTables before → AreExact before → AssertsInstance forall tuple before after → AreExact after }
    ensures stopped_instance { (forall : ℕ) (tuple : List ℕ) (before after : Assertions) (fault : Fault) → AreExact before → StopsAssertInstance forall tuple before after fault → AreExact after }
{}

/// Over tables a formula is asserted in one way, and then not refused, and it is refused in one way, each but for want of memory;
/// and so is an instance of a forall, over a tuple of terms that stand, one for each variable.
pub fn one_answer_law()
    ensures once { (formula : Formula) (before one other : Assertions) → IsFormula formula → AreTables before → AssertsFormula formula before one → AssertsFormula formula before other → one ≡ other }
    ensures not_both { (formula : Formula) (before one other : Assertions) (fault : Fault) → IsFormula formula → AreTables before → (fault ≢ Memory) → AssertsFormula formula before one → StopsAssert formula before other fault → ⊥ }
    ensures alike { (formula : Formula) (before one other : Assertions) (fault also : Fault) → IsFormula formula → AreTables before → (fault ≢ Memory) → (also ≢ Memory) → StopsAssert formula before one fault → StopsAssert formula before other also → (fault ≡ also) × (one ≡ other) }
    ensures once_instance { (forall : ℕ) (tuple : List ℕ) (before one other : Assertions) → HasVariables before.formulas forall (length tuple) → TermsStand before tuple → AreTables before → AssertsInstance forall tuple before one → AssertsInstance forall tuple before other → one ≡ other }
    ensures not_both_instance { (forall : ℕ) (tuple : List ℕ) (before one other : Assertions) (fault : Fault) → HasVariables before.formulas forall (length tuple) → TermsStand before tuple → AreTables before → (fault ≢ Memory) → AssertsInstance forall tuple before one → StopsAssertInstance forall tuple before other fault → ⊥ }
    ensures alike_instance { (forall : ℕ) (tuple : List ℕ) (before one other : Assertions) (fault also : Fault) → HasVariables before.formulas forall (length tuple) → TermsStand before tuple → AreTables before → (fault ≢ Memory) → (also ≢ Memory) → StopsAssertInstance forall tuple before one fault → StopsAssertInstance forall tuple before other also → (fault ≡ also) × (one ≡ other) }
{}
