//! The lists that questions read, kept up.
ghost use Rattle.std.specs.Prelude.{◌≡◌, ◌<◌, ℕ, length, Contains, OnOk};
ghost use Rattle.graph_classes.specs.State.{list_at};
ghost use Rattle.graph_classes.specs.History.{now, KeepsHistory};
ghost use Rattle.graph_classes.specs.Listed.{ListsMore, IsMemberListed, AreParentsListed, AreTerms, IsLed};

use crate::classes::Classes;
use crate::place::Place;
use graph_terms::Memory;

impl Classes {
    /// Lists a term among those of its symbol in its class.
    pub(crate) fn list_member(&mut self, term: u32) -> Result<(), Memory>
        requires term_in { term < length self.old.parts.rows.rows }
        requires labels { length self.old.parts.labels.items ≡ length self.old.parts.rows.rows }
        ensures more { OnOk result (ListsMore (now self.old) (now self.new)) }
        ensures listed { OnOk result (IsMemberListed (now self.new) term) }
        ensures history { KeepsHistory self.old self.new }
    {
        let symbol = self.parts.rows.row(term).symbol;
        let label = self.parts.labels[term as usize];
        self.list_term(Place::Member { label, symbol }, term)
    }

    /// Lists a term among the parents of the class of each argument.
    pub(crate) fn list_parents(&mut self, term: u32) -> Result<(), Memory>
        requires term_in { term < length self.old.parts.rows.rows }
        requires labels { length self.old.parts.labels.items ≡ length self.old.parts.rows.rows }
        ensures more { OnOk result (ListsMore (now self.old) (now self.new)) }
        ensures listed { OnOk result (AreParentsListed (now self.new) term) }
        ensures history { KeepsHistory self.old self.new }
    {
        let symbol = self.parts.rows.row(term).symbol;
        let count = self.parts.rows.row(term).args.len();
        let _terms = self.parts.rows.len();
        for argument in 0..count {
            let arg = self.parts.rows.row(term).args.get(argument);
            let label = self.parts.labels[arg as usize];
            let place = Place::Parent {
                label,
                symbol,
                argument,
            };
            self.list_term(place, term)?;
        }
        Ok(())
    }

    /// Lists the members of a label anew, each under the label that it has.
    fn list_members(&mut self, from: u32) -> Result<(), Memory>
        requires from_in { from < length self.old.parts.members.items }
        requires members_in { AreTerms (now self.old) (list_at self.old.parts.members.items from) }
        requires labels { length self.old.parts.labels.items ≡ length self.old.parts.rows.rows }
        ensures more { OnOk result (ListsMore (now self.old) (now self.new)) }
        ensures listed { OnOk result ((t : ℕ) → Contains (list_at self.old.parts.members.items from) t → IsMemberListed (now self.new) t) }
        ensures history { KeepsHistory self.old self.new }
    {
        let count = self.parts.members[from as usize].len();
        for i in 0..count {
            let term = self.parts.members[from as usize].get(i);
            self.list_member(term)?;
        }
        Ok(())
    }

    /// Lists the uses of a label anew, each under the labels that its arguments have.
    fn list_uses(&mut self, from: u32) -> Result<(), Memory>
        requires from_in { from < length self.old.parts.uses.items }
        requires uses_in { AreTerms (now self.old) (list_at self.old.parts.uses.items from) }
        requires labels { length self.old.parts.labels.items ≡ length self.old.parts.rows.rows }
        ensures more { OnOk result (ListsMore (now self.old) (now self.new)) }
        ensures listed { OnOk result ((u : ℕ) → Contains (list_at self.old.parts.uses.items from) u → AreParentsListed (now self.new) u) }
        ensures history { KeepsHistory self.old self.new }
    {
        let count = self.parts.uses[from as usize].len();
        for i in 0..count {
            let term = self.parts.uses[from as usize].get(i);
            self.list_parents(term)?;
        }
        Ok(())
    }

    /// Lists the members and the uses of a label anew.
    pub(crate) fn list_class(&mut self, from: u32) -> Result<(), Memory>
        requires from_member { from < length self.old.parts.members.items }
        requires from_use { from < length self.old.parts.uses.items }
        requires members_in { AreTerms (now self.old) (list_at self.old.parts.members.items from) }
        requires uses_in { AreTerms (now self.old) (list_at self.old.parts.uses.items from) }
        requires labels { length self.old.parts.labels.items ≡ length self.old.parts.rows.rows }
        ensures more { OnOk result (ListsMore (now self.old) (now self.new)) }
        ensures members { OnOk result ((t : ℕ) → Contains (list_at self.old.parts.members.items from) t → IsMemberListed (now self.new) t) }
        ensures uses { OnOk result ((u : ℕ) → Contains (list_at self.old.parts.uses.items from) u → AreParentsListed (now self.new) u) }
        ensures history { KeepsHistory self.old self.new }
    {
        self.list_members(from)?;
        self.list_uses(from)
    }

    /// Gives one label the lesser of its leader and another label's.
    pub(crate) fn lead(&mut self, from: u32, into: u32) -> Result<(), Memory>
        requires from_in { from < length self.old.parts.leaders.items }
        requires into_in { into < length self.old.parts.leaders.items }
        ensures alone { OnOk result (now self.new ≡ record (now self.old) { leaders = (now self.new).leaders }) }
        ensures led { OnOk result (IsLed (now self.old).leaders (now self.new).leaders from into) }
        ensures history { KeepsHistory self.old self.new }
    {
        let leader = self.parts.leaders[from as usize];
        if leader < self.parts.leaders[into as usize] {
            self.set_leader(into, leader)
        } else {
            Ok(())
        }
    }
}
