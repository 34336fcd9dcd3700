//! The operation Merge, and those that change no class.
ghost use Rattle.std.specs.Prelude.{◌≡◌, ◌<◌, [], length, IfOk, OnOk, OnErr};
ghost use Rattle.graph_meaning.specs.declared.op.Op.TheVariants.{Merge as MergeOp};
ghost use Rattle.graph_meaning.specs.Lawful.{Allows};
ghost use Rattle.graph_meaning.specs.Standing.{rows_added, merges_added};
ghost use Rattle.graph_classes.specs.History.{now, KeepsHistory};
ghost use Rattle.graph_classes.specs.Indexed.{HaveOneLabel};
ghost use Rattle.graph_classes.specs.Standing.{IsGood, Follows};
ghost use Rattle.graph_meaning.specs.Unions.{AreUnions};

use crate::classes::Classes;
use crate::unions::Unions;
use graph_meaning::{Done, Op};
use graph_terms::Memory;
use std::alloc::Global;

impl Classes {
    /// Logs an operation that changes no row and no class.
    pub fn log_op(&mut self, serial: u64, op: Op) -> Result<(), Memory>
        requires good { IsGood (now self.old) }
        requires allowed { Allows (now self.old).log op }
        requires no_rows { rows_added op ≡ [] }
        requires no_merges { merges_added op ≡ [] }
        ensures ok { OnOk result (Follows (now self.old) (now self.new) serial op) }
        ensures good { IsGood (now self.new) }
        ensures err { OnErr result (now self.new ≡ now self.old) }
        ensures history { KeepsHistory self.old self.new }
    {
        self.enter_done(Done { serial, op })
    }

    /// Merges two terms, with all that follows. Without memory, some of it may be done.
    fn try_merge(
        &mut self,
        alloc: Global,
        serial: u64,
        left: u32,
        right: u32,
    ) -> Result<Unions, Memory>
        requires good { IsGood (now self.old) }
        requires left_in { left < length self.old.parts.rows.rows }
        requires right_in { right < length self.old.parts.rows.rows }
        ensures ok { OnOk result (Follows (now self.old) (now self.new) serial (MergeOp left right)) }
        ensures good { OnOk result (IsGood (now self.new)) }
        ensures unions { IfOk result (λ unions. AreUnions (length self.old.parts.rows.rows) (HaveOneLabel (length self.old.parts.rows.rows) self.old.parts.labels.items) (HaveOneLabel (length self.old.parts.rows.rows) self.new.parts.labels.items) unions) }
        ensures history { KeepsHistory self.old self.new }
    {
        let _terms = self.parts.rows.len();
        let op = Op::Merge { left, right };
        self.enter_done(Done { serial, op })?;
        let mut pending = Vec::new(alloc);
        pending.push((left, right))?;
        self.settle(alloc, &mut pending)
    }

    /// Merges two terms, with all that follows. Without memory, nothing is done.
    pub fn merge(
        &mut self,
        alloc: Global,
        serial: u64,
        left: u32,
        right: u32,
    ) -> Result<Unions, Memory>
        requires good { IsGood (now self.old) }
        requires left_in { left < length self.old.parts.rows.rows }
        requires right_in { right < length self.old.parts.rows.rows }
        ensures ok { OnOk result (Follows (now self.old) (now self.new) serial (MergeOp left right)) }
        ensures good { IsGood (now self.new) }
        ensures unions { IfOk result (λ unions. AreUnions (length self.old.parts.rows.rows) (HaveOneLabel (length self.old.parts.rows.rows) self.old.parts.labels.items) (HaveOneLabel (length self.old.parts.rows.rows) self.new.parts.labels.items) unions) }
        ensures err { OnErr result (now self.new ≡ now self.old) }
        ensures history { KeepsHistory self.old self.new }
    {
        let start = self.trail.mark();
        match self.try_merge(alloc, serial, left, right) {
            Ok(unions) => Ok(unions),
            Err(memory) => {
                self.trail.back_to_mark(&mut self.parts, start);
                Err(memory)
            }
        }
    }
}
