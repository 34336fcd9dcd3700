//! How large a pattern is as a tree.
ghost use Rattle.std.specs.Prelude.{◌≡◌, ◌<◌, ◌≤◌, length, nat_le, IfSome, IfNone};
ghost use Rattle.graph_trigger.specs.Trigger.{most_size};
ghost use Rattle.smt_patterns.specs.Patterns.{size_of};

use formula_draft::{DraftRow, FormulaDraft};

/// The most symbols and variables that a pattern may have, counted as a tree.
const MOST_SIZE: u32 = 256;

/// The size of a row as a tree, where it is at most so much. It looks at no more rows than that.
fn tree_size(draft: &FormulaDraft, row: u32, most: u32) -> Option<u32>
    requires { row < length draft.now.rows }
    ensures is { IfSome result (λ size. size ≡ size_of draft.now.rows row) }
    ensures fits { IfSome result (λ size. size ≤ most) }
    ensures none { IfNone result (most < size_of draft.now.rows row) }
{
    if most == 0 {
        return None;
    }
    match draft.row_at(row) {
        DraftRow::Var { .. } => Some(1),
        DraftRow::App { args, .. } => {
            let mut size = 1;
            for i in 0..args.len() {
                let part = args.get(i);
                if part < row {
                    size += tree_size(draft, part, most - size)?;
                }
            }
            Some(size)
        }
    }
}

/// Whether a row has no more symbols and variables than a pattern may have, counted as a tree.
pub(crate) fn is_small(draft: &FormulaDraft, row: u32) -> bool
    ensures { result ≡ nat_le (size_of draft.now.rows row) most_size }
{
    if row >= draft.rows() {
        return true;
    }
    tree_size(draft, row, MOST_SIZE).is_some()
}
