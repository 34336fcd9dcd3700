//! Signatures of terms, entered or met.
ghost use Rattle.std.specs.Prelude.{◌≡◌, ◌<◌, ◌++◌, ◌∷◌, ◌≢◌, ℕ, List, [], length, slice_set, OnOk, OnErr, IfOk, None, Contains};
ghost use Rattle.graph_classes.specs.State.{list_at};
ghost use Rattle.graph_classes.specs.History.{now, KeepsHistory};
ghost use Rattle.graph_classes.specs.Closure.{signature as signature_of};
ghost use Rattle.graph_classes.specs.Indexed.{IsSignable, HasUsesMoved, IsClosing};
ghost use Rattle.graph_meaning.specs.Lawful.{EndsBelow};

use crate::classes::Classes;
use graph_terms::{Memory, TermRow};
use std::alloc::Global;

/// A term's symbol with the labels of its arguments.
fn signature(alloc: Global, labels: &[u32], row: &TermRow) -> Result<Vec<u32>, Memory>
    requires { (x : ℕ) → Contains row.now.args x → x < length labels.now }
    ensures { IfOk result (λ key. key.items ≡ signature_of labels.now row.now) }
{
    let mut key = Vec::new(alloc);
    key.push(row.symbol)?;
    for arg in row.args.as_slice() {
        key.push(labels[*arg as usize])?;
    }
    Ok(key)
}

impl Classes {
    /// Enters a term's signature, or makes its pair with the term that has the signature pending.
    pub(crate) fn sign(
        &mut self,
        alloc: Global,
        pending: &mut Vec<(u32, u32)>,
        term: u32,
    ) -> Result<(), Memory>
        requires signable { IsSignable (now self.old) }
        requires term_in { term < length self.old.parts.rows.rows }
        requires pending_in { EndsBelow pending.old.items (length self.old.parts.rows.rows) }
        ensures table_alone { OnOk result (now self.new ≡ record (now self.old) { table = self.new.parts.table }) }
        ensures signable { OnOk result (IsSignable (now self.new)) }
        ensures pending_in { OnOk result (EndsBelow pending.new.items (length self.old.parts.rows.rows)) }
        ensures closing { OnOk result ((merges : List (ℕ × ℕ)) (rest : List ℕ) → IsClosing merges (now self.old) pending.old.items (term ∷ rest) → IsClosing merges (now self.new) pending.new.items rest) }
        ensures history { KeepsHistory self.old self.new }
    {
        let row = self.parts.rows.row(term);
        let key = signature(alloc, self.parts.labels.as_slice(), row)?;
        match self.parts.table.find(key.as_slice()) {
            Some(same) => {
                pending.push((term, same))?;
                Ok(())
            }
            None => self.enter_signature(key, term),
        }
    }

    /// Gives the uses of one label to another, and signs their terms.
    pub(crate) fn sign_uses(
        &mut self,
        alloc: Global,
        pending: &mut Vec<(u32, u32)>,
        from: u32,
        into: u32,
    ) -> Result<(), Memory>
        requires signable { IsSignable (now self.old) }
        requires from_in { from < length self.old.parts.uses.items }
        requires into_in { into < length self.old.parts.uses.items }
        requires apart { from ≢ into }
        requires uses_in { (u : ℕ) → Contains (list_at self.old.parts.uses.items from) u → u < length self.old.parts.rows.rows }
        requires pending_in { EndsBelow pending.old.items (length self.old.parts.rows.rows) }
        ensures moved { OnOk result (HasUsesMoved (now self.old) (now self.new) (list_at self.old.parts.uses.items from) into) }
        ensures pending_in { OnOk result (EndsBelow pending.new.items (length self.old.parts.rows.rows)) }
        ensures closing { OnOk result ((merges : List (ℕ × ℕ)) → IsClosing merges (now self.old) pending.old.items (list_at self.old.parts.uses.items from) → IsClosing merges (now self.new) pending.new.items []) }
        ensures history { KeepsHistory self.old self.new }
    {
        let count = self.parts.uses[from as usize].len();
        for i in 0..count {
            let term = self.parts.uses[from as usize].get(i);
            self.add_use(into, term)?;
            self.sign(alloc, pending, term)?;
        }
        Ok(())
    }
}
