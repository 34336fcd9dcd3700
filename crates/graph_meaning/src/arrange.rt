//! Lists of numbers in lexicographic order, each once.
ghost use Rattle.std.specs.Prelude.{◌≡◌, ℕ, List, ◌↔◌, Contains, OnOk, IsPermutation};
ghost use Rattle.std.specs.Ordering.{nat_cmp};
ghost use Rattle.std.specs.Cmp.Lexicographic.{slice_cmp};
ghost use Rattle.std.specs.List.{dedup};
ghost use Rattle.std.specs.List.Sorted.{IsSorted};
ghost use Rattle.graph_meaning.specs.Match.{InOrder};
ghost use Rattle.graph_meaning.specs.Order.{same_list};

use graph_terms::{Memory, Numbers};

/// Puts lists of numbers into lexicographic order.
fn sort(lists: &mut Vec<Numbers>) -> Result<(), Memory>
    ensures sorted { OnOk result (IsSorted (slice_cmp nat_cmp) lists.new.items) }
    ensures moved { IsPermutation lists.old.items lists.new.items }
{
    lists.sort_by(|a, b| a.as_slice().cmp(b.as_slice()))?;
    Ok(())
}

/// Keeps one of those that stand side by side and are equal.
fn keep_one(lists: &mut Vec<Numbers>)
    ensures { lists.new.items ≡ dedup same_list lists.old.items }
{
    lists.dedup_by(|a, b| a.as_slice().cmp(b.as_slice()).is_eq());
}

/// Puts lists of numbers into lexicographic order, the least first, and keeps each once. Without memory, which lists stand
/// there is not said.
pub fn arrange(lists: &mut Vec<Numbers>) -> Result<(), Memory>
    ensures in_order { OnOk result (InOrder lists.new.items) }
    ensures same { OnOk result ((list : List ℕ) → Contains lists.new.items list ↔ Contains lists.old.items list) }
{
    sort(lists)?;
    keep_one(lists);
    Ok(())
}
