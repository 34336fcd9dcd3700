//! Formulas of which the rows are entered.
ghost use Rattle.std.specs.Prelude.{◌≡◌, ◌<◌, Some, length, slice_get};
ghost use Rattle.formula_draft.specs.Draft.{Formula};

use formula_draft::DraftRow;

/// A formula that gives its rows.
pub(crate) trait RowList {
    /// The formula.
    ghost formula: { Self → Formula };

    /// The number of rows.
    fn row_count(&self) -> usize
        ensures { result ≡ length (formula self.now).rows };

    /// The row with this number.
    fn row(&self, n: usize) -> &DraftRow
        requires { n < length (formula self.now).rows }
        ensures { slice_get (formula self.now).rows n ≡ Some result.now };
}

impl RowList for formula_draft::Formula {
    ghost formula = { λ formula. formula };

    fn row_count(&self) -> usize {
        self.rows() as usize
    }

    fn row(&self, n: usize) -> &DraftRow {
        let count = self.rows();
        prove!(n < count as usize);
        self.row_at(n as u32)
    }
}
