//! The operation Add.
ghost use Rattle.std.specs.Prelude.{◌≡◌, ◌<◌, ◌≤◌, ◌+◌, ◌^◌, ◌++◌, ◌∷◌, ℕ, List, [], length, All, OnOk, OnErr, IfOk, IsTrue, Contains, slice_index, vec_len};
ghost use Rattle.std.specs.Vec.{vec_capacity};
ghost use Rattle.graph_terms.specs.Terms.{most_args, term_row, IsAbsent};
ghost use Rattle.graph_meaning.specs.Lawful.{Allows};
ghost use Rattle.graph_meaning.specs.declared.op.Op.TheVariants.{Add as AddOp};
ghost use Rattle.graph_classes.specs.State.{with_row};
ghost use Rattle.graph_classes.specs.History.{now, notes, KeepsHistory};
ghost use Rattle.graph_classes.specs.Indexed.{used, HaveOneLabel};
ghost use Rattle.graph_classes.specs.Standing.{IsGood, Follows};
ghost use Rattle.graph_meaning.specs.Unions.{AreUnions};

use crate::added::Added;
use crate::change::Change;
use crate::classes::Classes;
use crate::place::Place;
use crate::term_list::TermList;
use graph_meaning::{Done, Op};
use graph_terms::{Memory, Numbers, TableFault};
use std::alloc::Global;

impl Classes {
    /// Makes room for what comes with one row.
    fn reserve_row(&mut self) -> Result<(), Memory>
        ensures same_now { now self.new ≡ now self.old }
        ensures same_notes { notes self.new ≡ notes self.old }
        ensures labels { OnOk result (vec_len self.new.parts.labels < vec_capacity self.new.parts.labels) }
        ensures members { OnOk result (vec_len self.new.parts.members < vec_capacity self.new.parts.members) }
        ensures uses { OnOk result (vec_len self.new.parts.uses < vec_capacity self.new.parts.uses) }
        ensures leaders { OnOk result (vec_len self.new.parts.leaders < vec_capacity self.new.parts.leaders) }
    {
        self.parts.labels.reserve(1)?;
        self.parts.members.reserve(1)?;
        self.parts.uses.reserve(1)?;
        self.parts.leaders.reserve(1)?;
        Ok(())
    }

    /// Adds a new row that is alone in its class, and is used nowhere yet.
    fn add_row(&mut self, alloc: Global, symbol: u32, args: &[u32]) -> Result<u32, TableFault>
        requires terms { All (λ arg. arg < length self.old.parts.rows.rows) args.now }
        requires few { length args.now ≤ most_args }
        requires new_row { IsAbsent self.old.parts.rows.rows (term_row symbol args.now) }
        ensures term { IfOk result (λ term. term ≡ length self.old.parts.rows.rows) }
        ensures ok { IfOk result (λ term. now self.new ≡ with_row (now self.old) (term_row symbol args.now) term) }
        ensures within { OnOk result (length self.new.parts.rows.rows ≤ self.new.parts.rows.limit) }
        ensures full { result ≡ Err TableFault.Full → length self.old.parts.rows.rows ≡ self.old.parts.rows.limit }
        ensures history { KeepsHistory self.old self.new }
    {
        let term = self.parts.rows.len();
        let mut alone = TermList::new(alloc);
        alone.push(term)?;
        self.reserve_row()?;
        let _term = self.parts.rows.add(symbol, args)?;
        self.parts.labels.push_reserved(term);
        self.parts.members.push_reserved(alone);
        self.parts.uses.push_reserved(TermList::new(alloc));
        self.parts.leaders.push_reserved(term);
        self.keep(Change::Added)?;
        Ok(term)
    }

    /// Lists a term as a use of the labels of its arguments.
    fn add_uses(&mut self, term: u32, args: &[u32]) -> Result<(), Memory>
        requires args_in { (x : ℕ) → Contains args.now x → x < length self.old.parts.labels.items }
        requires labels_in { (x : ℕ) → Contains args.now x → slice_index self.old.parts.labels.items x < length self.old.parts.uses.items }
        ensures ok { OnOk result (now self.new ≡ record (now self.old) { uses = used self.old.parts.uses.items self.old.parts.labels.items args.now term }) }
        ensures history { KeepsHistory self.old self.new }
    {
        for arg in args {
            let label = self.parts.labels[*arg as usize];
            self.add_use(label, term)?;
        }
        Ok(())
    }

    /// Adds a new row with all that follows. Without memory, some of it may be done.
    fn try_add(
        &mut self,
        alloc: Global,
        serial: u64,
        symbol: u32,
        args: &[u32],
    ) -> Result<Added, TableFault>
        requires good { IsGood (now self.old) }
        requires allowed { Allows (now self.old).log (AddOp symbol args.now) }
        ensures term { IfOk result (λ added. added.term ≡ length self.old.parts.rows.rows) }
        ensures fresh { IfOk result (λ added. IsTrue added.fresh) }
        ensures ok { OnOk result (Follows (now self.old) (now self.new) serial (AddOp symbol args.now)) }
        ensures good { OnOk result (IsGood (now self.new)) }
        ensures unions { IfOk result (λ added. AreUnions (length self.new.parts.rows.rows) (HaveOneLabel (length self.new.parts.rows.rows) (self.old.parts.labels.items ++ length self.old.parts.rows.rows ∷ [])) (HaveOneLabel (length self.new.parts.rows.rows) self.new.parts.labels.items) added.unions) }
        ensures full { result ≡ Err TableFault.Full → length self.old.parts.rows.rows ≡ self.old.parts.rows.limit }
        ensures history { KeepsHistory self.old self.new }
    {
        let row_args = Numbers::from_slice(alloc, args)?;
        let op = Op::Add {
            symbol,
            args: row_args,
        };
        self.enter_done(Done { serial, op })?;
        let term = self.add_row(alloc, symbol, args)?;
        self.add_uses(term, args)?;
        self.list_term(Place::Symbol { symbol }, term)?;
        self.list_member(term)?;
        self.list_parents(term)?;
        let mut pending = Vec::new(alloc);
        self.sign(alloc, &mut pending, term)?;
        // Asking for the number of terms tells the proof that the table keeps its limit, which is below 2^32.
        let _terms = self.parts.rows.len();
        let unions = self.settle(alloc, &mut pending)?;
        Ok(Added {
            term,
            fresh: true,
            unions,
        })
    }

    /// Adds a new row with all that follows. Without memory, nothing is done.
    pub fn add(
        &mut self,
        alloc: Global,
        serial: u64,
        symbol: u32,
        args: &[u32],
    ) -> Result<Added, TableFault>
        requires good { IsGood (now self.old) }
        requires allowed { Allows (now self.old).log (AddOp symbol args.now) }
        ensures term { IfOk result (λ added. added.term ≡ length self.old.parts.rows.rows) }
        ensures fresh { IfOk result (λ added. IsTrue added.fresh) }
        ensures ok { OnOk result (Follows (now self.old) (now self.new) serial (AddOp symbol args.now)) }
        ensures good { IsGood (now self.new) }
        ensures unions { IfOk result (λ added. AreUnions (length self.new.parts.rows.rows) (HaveOneLabel (length self.new.parts.rows.rows) (self.old.parts.labels.items ++ length self.old.parts.rows.rows ∷ [])) (HaveOneLabel (length self.new.parts.rows.rows) self.new.parts.labels.items) added.unions) }
        ensures full { result ≡ Err TableFault.Full → length self.old.parts.rows.rows ≡ self.old.parts.rows.limit }
        ensures err { OnErr result (now self.new ≡ now self.old) }
        ensures history { KeepsHistory self.old self.new }
    {
        let start = self.trail.mark();
        match self.try_add(alloc, serial, symbol, args) {
            Ok(added) => Ok(added),
            Err(fault) => {
                self.trail.back_to_mark(&mut self.parts, start);
                Err(fault)
            }
        }
    }
}
