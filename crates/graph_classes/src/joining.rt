//! Two classes made one.
ghost use Rattle.std.specs.Prelude.{◌≡◌, ◌<◌, ◌++◌, ◌∷◌, ◌≢◌, ◌⊎◌, ℕ, List, [], length, slice_index, OnOk, Contains};
ghost use Rattle.graph_classes.specs.State.{list_at};
ghost use Rattle.graph_classes.specs.History.{now, KeepsHistory};
ghost use Rattle.graph_classes.specs.Listed.{IsListed};
ghost use Rattle.graph_classes.specs.Indexed.{IsIndexed, IsRelabelled, IsClosing, Between};
ghost use Rattle.graph_meaning.specs.Lawful.{EndsBelow};

use crate::classes::Classes;
use graph_terms::Memory;
use std::alloc::Global;

impl Classes {
    /// Moves the members and the uses of one label to another.
    fn move_class(
        &mut self,
        alloc: Global,
        pending: &mut Vec<(u32, u32)>,
        from: u32,
        into: u32,
    ) -> Result<(), Memory>
        requires indexed { IsIndexed (now self.old) }
        requires from_in { from < length self.old.parts.rows.rows }
        requires into_in { into < length self.old.parts.rows.rows }
        requires from_own { slice_index self.old.parts.labels.items from ≡ from }
        requires into_own { slice_index self.old.parts.labels.items into ≡ into }
        requires apart { from ≢ into }
        requires pending_in { EndsBelow pending.old.items (length self.old.parts.rows.rows) }
        ensures rows { OnOk result (self.new.parts.rows.rows ≡ self.old.parts.rows.rows) }
        ensures log { OnOk result (self.new.parts.log ≡ self.old.parts.log) }
        ensures limit { OnOk result (self.new.parts.rows.limit ≡ self.old.parts.rows.limit) }
        ensures relabelled { OnOk result (IsRelabelled self.old.parts.labels.items self.new.parts.labels.items from into) }
        ensures indexed { OnOk result (IsIndexed (now self.new)) }
        ensures pending_in { OnOk result (EndsBelow pending.new.items (length self.old.parts.rows.rows)) }
        ensures closing { OnOk result ((merges : List (ℕ × ℕ)) (a b : ℕ) → a < length self.old.parts.rows.rows → b < length self.old.parts.rows.rows →
            Between self.old.parts.labels.items a b from into →
            IsClosing merges (now self.old) (pending.old.items ++ (a, b) ∷ []) [] → IsClosing merges (now self.new) pending.new.items []) }
        ensures members { OnOk result (list_at self.new.parts.members.items from ≡ list_at self.old.parts.members.items from) }
        ensures uses { OnOk result (list_at self.new.parts.uses.items from ≡ list_at self.old.parts.uses.items from) }
        ensures leaders { OnOk result (self.new.parts.leaders.items ≡ self.old.parts.leaders.items) }
        ensures lists { OnOk result ((now self.new).lists ≡ (now self.old).lists) }
        ensures history { KeepsHistory self.old self.new }
    {
        self.relabel(from, into)?;
        self.sign_uses(alloc, pending, from, into)?;
        Ok(())
    }

    /// Joins two classes: all that the one label has goes to the other.
    pub(crate) fn join(
        &mut self,
        alloc: Global,
        pending: &mut Vec<(u32, u32)>,
        from: u32,
        into: u32,
    ) -> Result<(), Memory>
        requires indexed { IsIndexed (now self.old) }
        requires listed { IsListed (now self.old) }
        requires from_in { from < length self.old.parts.rows.rows }
        requires into_in { into < length self.old.parts.rows.rows }
        requires from_own { slice_index self.old.parts.labels.items from ≡ from }
        requires into_own { slice_index self.old.parts.labels.items into ≡ into }
        requires apart { from ≢ into }
        requires pending_in { EndsBelow pending.old.items (length self.old.parts.rows.rows) }
        ensures rows { OnOk result (self.new.parts.rows.rows ≡ self.old.parts.rows.rows) }
        ensures log { OnOk result (self.new.parts.log ≡ self.old.parts.log) }
        ensures limit { OnOk result (self.new.parts.rows.limit ≡ self.old.parts.rows.limit) }
        ensures relabelled { OnOk result (IsRelabelled self.old.parts.labels.items self.new.parts.labels.items from into) }
        ensures indexed { OnOk result (IsIndexed (now self.new)) }
        ensures listed { OnOk result (IsListed (now self.new)) }
        ensures pending_in { OnOk result (EndsBelow pending.new.items (length self.old.parts.rows.rows)) }
        ensures closing { OnOk result ((merges : List (ℕ × ℕ)) (a b : ℕ) → a < length self.old.parts.rows.rows → b < length self.old.parts.rows.rows →
            Between self.old.parts.labels.items a b from into →
            IsClosing merges (now self.old) (pending.old.items ++ (a, b) ∷ []) [] → IsClosing merges (now self.new) pending.new.items []) }
        ensures history { KeepsHistory self.old self.new }
    {
        self.move_class(alloc, pending, from, into)?;
        self.list_class(from)?;
        self.lead(from, into)
    }

    /// Joins two classes: the one with fewer members goes to the other.
    pub(crate) fn join_labels(
        &mut self,
        alloc: Global,
        pending: &mut Vec<(u32, u32)>,
        left: u32,
        right: u32,
    ) -> Result<(), Memory>
        requires indexed { IsIndexed (now self.old) }
        requires listed { IsListed (now self.old) }
        requires left_in { left < length self.old.parts.rows.rows }
        requires right_in { right < length self.old.parts.rows.rows }
        requires left_own { slice_index self.old.parts.labels.items left ≡ left }
        requires right_own { slice_index self.old.parts.labels.items right ≡ right }
        requires apart { left ≢ right }
        requires pending_in { EndsBelow pending.old.items (length self.old.parts.rows.rows) }
        ensures rows { OnOk result (self.new.parts.rows.rows ≡ self.old.parts.rows.rows) }
        ensures log { OnOk result (self.new.parts.log ≡ self.old.parts.log) }
        ensures limit { OnOk result (self.new.parts.rows.limit ≡ self.old.parts.rows.limit) }
        ensures relabelled { OnOk result (IsRelabelled self.old.parts.labels.items self.new.parts.labels.items left right ⊎ IsRelabelled self.old.parts.labels.items self.new.parts.labels.items right left) }
        ensures indexed { OnOk result (IsIndexed (now self.new)) }
        ensures listed { OnOk result (IsListed (now self.new)) }
        ensures pending_in { OnOk result (EndsBelow pending.new.items (length self.old.parts.rows.rows)) }
        ensures closing { OnOk result ((merges : List (ℕ × ℕ)) (a b : ℕ) → a < length self.old.parts.rows.rows → b < length self.old.parts.rows.rows →
            slice_index self.old.parts.labels.items a ≡ left → slice_index self.old.parts.labels.items b ≡ right →
            IsClosing merges (now self.old) (pending.old.items ++ (a, b) ∷ []) [] → IsClosing merges (now self.new) pending.new.items []) }
        ensures history { KeepsHistory self.old self.new }
    {
        let left_count = self.parts.members[left as usize].len();
        let right_count = self.parts.members[right as usize].len();
        if left_count < right_count {
            self.join(alloc, pending, left, right)
        } else {
            self.join(alloc, pending, right, left)
        }
    }
}
