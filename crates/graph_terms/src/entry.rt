//! Where terms are entered.
ghost use Rattle.std.specs.Prelude.{◌≡◌, ℕ, ◌<◌, ◌≤◌, List, [], ◌∷◌, ◌++◌, length, All, IfOk, OnErr, OnOk, IfErr};
ghost use Rattle.graph_terms.specs.declared.term_row.TermRow.{TermRow};
ghost use Rattle.graph_terms.specs.Terms.{term_row, HasRow, IsAbsent};
ghost use Rattle.graph_terms.specs.TermEntry.{AddGrows, AddFails};

use crate::table::TermTable;
use crate::table_fault::TableFault;

/// A table that grows by rows. An object may tell more of how it grew, and of how it was refused memory, than its rows.
pub trait TermEntry {
    /// Its rows.
    ghost rows: { Self → List TermRow };

    /// How many rows it may have.
    ghost limit: { Self → ℕ };

    /// From the earlier state to the later it grew by these rows alone.
    ghost grown: { Self → Self → List TermRow → Type 0 };

    /// From the earlier state to the later it was refused memory.
    ghost refused: { Self → Self → Type 0 };

    /// The number of the row, which is put last where it is new.
    fn add(&mut self, symbol: u32, args: &[u32]) -> Result<u32, TableFault>
        requires terms { All (λ arg. arg < length (rows self.old)) args.now }
        requires few { length args.now ≤ 255 }
        ensures ok { IfOk result (λ term. AddGrows (rows self.old) (limit self.old) (rows self.new) (grown self.old self.new) (term_row symbol args.now) term) }
        ensures fault { IfErr result (λ fault. AddFails (rows self.old) (limit self.old) (self.new ≡ self.old) (refused self.old self.new) (term_row symbol args.now) fault) };

    // Growth is told of the rows and the limit.
    ghost grown_rows: { (earlier later : Self) (more : List TermRow) → grown earlier later more → (rows later ≡ rows earlier ++ more) × (limit later ≡ limit earlier) };

    // Nothing grew.
    ghost grown_none: { (state : Self) → grown state state [] };

    // One growth after another.
    ghost grown_both: { (first second third : Self) (more most : List TermRow) → grown first second more → grown second third most → grown first third (more ++ most) };

    // A refusal is told of the rows and the limit.
    ghost refused_rows: { (earlier later : Self) → refused earlier later → ((more : List TermRow) × (rows later ≡ rows earlier ++ more)) × (limit later ≡ limit earlier) };
}

impl TermEntry for TermTable {
    ghost use Rattle.std.proofs.Common.{append-nil, append_assoc, sym, ap, ◌∙◌, refl};
    ghost use Rattle.std.specs.Prelude.{◌≡◌, ◌++◌};

    ghost rows = { λ table. table.rows };

    ghost limit = { λ table. table.limit };

    ghost grown = { λ earlier later more. (later.rows ≡ earlier.rows ++ more) × (later.limit ≡ earlier.limit) };

    ghost refused = { λ earlier later. later ≡ earlier };

    ghost grown_rows = { λ earlier later more grew. grew };

    ghost grown_none = { λ state. (sym (append-nil state.rows), refl) };

    ghost grown_both = { λ first second third more most one two. (two.0 ∙ ap (λ rows. rows ++ most) one.0 ∙ append_assoc first.rows more most, two.1 ∙ one.1) };

    ghost refused_rows = { λ earlier later same. (([], ap (λ table. table.rows) same ∙ sym (append-nil earlier.rows)), ap (λ table. table.limit) same) };

    fn add(&mut self, symbol: u32, args: &[u32]) -> Result<u32, TableFault> {
        TermTable::add(self, symbol, args)
    }
}
