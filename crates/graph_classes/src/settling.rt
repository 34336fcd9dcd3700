//! The cascade: classes are joined until nothing is pending.
ghost use Rattle.std.specs.Prelude.{◌≡◌, ◌<◌, ◌^◌, ◌++◌, ◌∷◌, ◌≢◌, ℕ, List, [], length, slice_index, OnOk, IfOk, IfSome, IfNone};
ghost use Rattle.graph_classes.specs.History.{now as state_now, KeepsHistory};
ghost use Rattle.graph_classes.specs.Listed.{IsListed};
ghost use Rattle.graph_meaning.specs.Unions.{AreUnions};
ghost use Rattle.graph_classes.specs.Indexed.{IsIndexed, IsClosing, HaveOneLabel};
ghost use Rattle.graph_meaning.specs.Lawful.{EndsBelow};

use crate::classes::Classes;
use crate::unions::Unions;
use graph_meaning::Union;
use graph_terms::Memory;
use std::alloc::Global;

impl Classes {
    /// Takes pending pairs off, up to one whose terms have two labels.
    fn next_apart(&self, pending: &mut Vec<(u32, u32)>) -> Option<(u32, u32)>
        requires labels_len { length self.now.parts.labels.items ≡ length self.now.parts.rows.rows }
        requires pending_in { EndsBelow pending.old.items (length self.now.parts.rows.rows) }
        ensures first_in { IfSome result (λ pair. pair.0 < length self.now.parts.rows.rows) }
        ensures second_in { IfSome result (λ pair. pair.1 < length self.now.parts.rows.rows) }
        ensures apart { IfSome result (λ pair. slice_index self.now.parts.labels.items pair.0 ≢ slice_index self.now.parts.labels.items pair.1) }
        ensures pending_in { EndsBelow pending.new.items (length self.now.parts.rows.rows) }
        ensures closing { IfSome result (λ pair. (merges : List (ℕ × ℕ)) →
            IsClosing merges (state_now self.now) pending.old.items [] → IsClosing merges (state_now self.now) (pending.new.items ++ (pair.0, pair.1) ∷ []) []) }
        ensures closed { IfNone result ((merges : List (ℕ × ℕ)) → IsClosing merges (state_now self.now) pending.old.items [] → IsClosing merges (state_now self.now) [] []) }
    {
        while let Some((left, right)) = pending.pop() {
            if self.parts.labels[left as usize] != self.parts.labels[right as usize] {
                return Some((left, right));
            }
        }
        None
    }

    /// Joins classes until no pair is pending, and lists the leaders whose classes were joined.
    pub(crate) fn settle(
        &mut self,
        alloc: Global,
        pending: &mut Vec<(u32, u32)>,
    ) -> Result<Unions, Memory>
        requires indexed { IsIndexed (state_now self.old) }
        requires listed { IsListed (state_now self.old) }
        requires small { length self.old.parts.rows.rows < 2 ^ 32 }
        requires pending_in { EndsBelow pending.old.items (length self.old.parts.rows.rows) }
        ensures rows { OnOk result (self.new.parts.rows.rows ≡ self.old.parts.rows.rows) }
        ensures log { OnOk result (self.new.parts.log ≡ self.old.parts.log) }
        ensures limit { OnOk result (self.new.parts.rows.limit ≡ self.old.parts.rows.limit) }
        ensures indexed { OnOk result (IsIndexed (state_now self.new)) }
        ensures closed { OnOk result ((merges : List (ℕ × ℕ)) → IsClosing merges (state_now self.old) pending.old.items [] → IsClosing merges (state_now self.new) [] []) }
        ensures listed { OnOk result (IsListed (state_now self.new)) }
        ensures unions { IfOk result (λ unions. AreUnions (length self.old.parts.rows.rows) (HaveOneLabel (length self.old.parts.rows.rows) self.old.parts.labels.items) (HaveOneLabel (length self.old.parts.rows.rows) self.new.parts.labels.items) unions) }
        ensures history { KeepsHistory self.old self.new }
    {
        let mut unions = Unions::new(alloc);
        while let Some((left, right)) = self.next_apart(pending) {
            let left_label = self.parts.labels[left as usize];
            let right_label = self.parts.labels[right as usize];
            unions.push(Union {
                left: self.parts.leaders[left_label as usize],
                right: self.parts.leaders[right_label as usize],
            })?;
            self.join_labels(alloc, pending, left_label, right_label)?;
        }
        Ok(unions)
    }
}
