//! Where formulas are asserted.
ghost use Rattle.std.specs.Prelude.{◌≡◌, ℕ, ◌<◌, ◌++◌, length, OnOk, OnErr};
ghost use Rattle.graph_meaning.specs.declared.op.Op.{Op as SpecOp};
ghost use Rattle.graph_meaning.specs.declared.op.Op.TheVariants.{Merge as MergeOp, Differ as DifferOp, Live as LiveOp, Push as PushOp, Pop as PopOp};
ghost use Rattle.graph_meaning.specs.Lawful.{Allows};
ghost use Rattle.graph_meaning.specs.Standing.{terms_of, levels_of};
ghost use Rattle.graph_meaning.specs.State.{GraphState, state_after};
ghost use Rattle.graph_trigger.specs.Trigger.{IsValid};
ghost use Rattle.formula_assert.specs.News.{ListsMore};

use graph_classes::Unions;
use graph_meaning::{Op, Union};
use graph_terms::{Memory, TermEntry};
use graph_trigger::Trigger;
use match_graph::MatchingGraph;

/// A graph of terms in which equations, disequations and triggers come to stand, in levels. Its meaning is the list of the
/// operations that stand; an object may tell more of what it keeps of itself while they come.
pub trait AssertionGraph: TermEntry {
    /// What stands, how many operations were done, and how many terms there may be.
    ghost state: { Self → GraphState };

    /// How many levels stay open.
    ghost floor: { Self → ℕ };

    /// From the earlier state to the later it kept what it keeps while equations, disequations and triggers come.
    ghost kept: { Self → Self → Type 0 };

    /// Merges two terms, and puts the unions that come of it last. Without memory the graph is as before.
    fn merge(&mut self, left: u32, right: u32, unions: &mut Vec<Union>) -> Result<(), Memory>
        requires left { left < length (terms_of (state self.old).standing) }
        requires right { right < length (terms_of (state self.old).standing) }
        ensures ok { OnOk result (state self.new ≡ state_after (state self.old) (MergeOp left right)) }
        ensures unions { OnOk result (ListsMore (state self.old).standing (state self.new).standing unions.old.items unions.new.items) }
        ensures err { OnErr result (state self.new ≡ state self.old) }
        ensures keeps { kept self.old self.new };

    /// Keeps two terms apart. Without memory the graph is as before.
    fn differ(&mut self, left: u32, right: u32) -> Result<(), Memory>
        requires left { left < length (terms_of (state self.old).standing) }
        requires right { right < length (terms_of (state self.old).standing) }
        ensures ok { OnOk result (state self.new ≡ state_after (state self.old) (DifferOp left right)) }
        ensures err { OnErr result (state self.new ≡ state self.old) }
        ensures keeps { kept self.old self.new };

    /// Makes a trigger live. Without memory the graph is as before.
    fn live(&mut self, trigger: &Trigger) -> Result<(), Memory>
        requires { IsValid trigger.now }
        ensures ok { OnOk result (state self.new ≡ state_after (state self.old) (LiveOp trigger.now)) }
        ensures err { OnErr result (state self.new ≡ state self.old) }
        ensures keeps { kept self.old self.new };

    /// Opens a level. Without memory the graph is as before.
    fn push(&mut self) -> Result<(), Memory>
        ensures ok { OnOk result (state self.new ≡ state_after (state self.old) PushOp) }
        ensures err { OnErr result (state self.new ≡ state self.old) };

    /// Ends the last level that is open, with all that came in it. Always succeeds, and takes no memory.
    fn pop(&mut self)
        requires { floor self.old < levels_of (state self.old).standing }
        ensures { state self.new ≡ state_after (state self.old) PopOp };

    // Its rows are the terms that stand.
    ghost rows_are: { (graph : Self) → Self.rows graph ≡ terms_of (state graph).standing };

    // It may have as many terms as its state says.
    ghost limit_is: { (graph : Self) → Self.limit graph ≡ (state graph).limit };

    // Nothing came.
    ghost kept_none: { (graph : Self) → kept graph graph };

    // One after another.
    ghost kept_both: { (first second third : Self) → kept first second → kept second third → kept first third };
}

/// Puts the listed unions last, in order.
fn put_unions(into: &mut Vec<Union>, unions: &Unions) -> Result<(), Memory>
    ensures { OnOk result (into.new.items ≡ into.old.items ++ unions.now) }
{
    for i in 0..unions.len() {
        into.push(*unions.get(i))?;
    }
    Ok(())
}

/// Does the operation. After a refusal the graph is as before.
fn do_operation(graph: &mut MatchingGraph, op: &Op) -> Result<(), Memory>
    requires { Allows graph.old.standing op.now }
    ensures ok { OnOk result (graph.new ≡ state_after graph.old op.now) }
    ensures err { OnErr result (graph.new ≡ graph.old) }
{
    match graph.apply(op) {
        Ok(()) => Ok(()),
        Err(_fault) => Err(Memory),
    }
}

impl AssertionGraph for MatchingGraph {
    ghost use Rattle.std.proofs.Common.{refl};

    ghost state = { λ graph. graph };

    ghost floor = { λ graph. 0 };

    ghost kept = { λ earlier later. Unit {0} };

    ghost rows_are = { λ graph. refl };

    ghost limit_is = { λ graph. refl };

    ghost kept_none = { λ graph. tt };

    ghost kept_both = { λ first second third one two. tt };

    fn merge(&mut self, left: u32, right: u32, unions: &mut Vec<Union>) -> Result<(), Memory> {
        let listed = MatchingGraph::merge(self, left, right)?;
        match put_unions(unions, &listed) {
            Ok(()) => Ok(()),
            Err(refused) => {
                self.take_back();
                Err(refused)
            }
        }
    }

    fn differ(&mut self, left: u32, right: u32) -> Result<(), Memory> {
        do_operation(self, &Op::Differ { left, right })
    }

    fn live(&mut self, trigger: &Trigger) -> Result<(), Memory> {
        MatchingGraph::live(self, trigger)
    }

    fn push(&mut self) -> Result<(), Memory> {
        do_operation(self, &Op::Push)
    }

    fn pop(&mut self) {
        MatchingGraph::pop(self);
    }
}
