//! Laws of the definitions, each on a function that does nothing.
ghost use Rattle.std.specs.Prelude.{ℕ, List};
ghost use Rattle.graph_meaning.specs.declared.done.Done.{Done};
ghost use Rattle.graph_meaning.specs.Lawful.{IsLawful};
ghost use Rattle.match_code.specs.declared.instr.Instr.{Instr};
ghost use Rattle.match_code.specs.Steps.{AreSameContents, Yields};

/// Registers of the same classes yield the same tuples.
pub fn classes_law()
    ensures { (standing : List Done) (root : ℕ) (code : List Instr) (contents others tuple : List ℕ) → IsLawful standing → AreSameContents standing contents others → Yields standing root code contents tuple → Yields standing root code others tuple }
{}
