//! A watch that serves a graph: it is made of one, it takes literals, and it follows the graph.
ghost use Rattle.std.specs.Prelude.{◌≡◌, ℕ, ◌-◌, ◌<◌, ◌++◌, ◌∷◌, ◌↔◌, false, IsTrue, List, [], length, take, All, IfOk, OnOk, OnErr};
ghost use Rattle.graph_meaning.specs.declared.done.Done.{Done};
ghost use Rattle.graph_meaning.specs.Standing.{terms_of, differs_of};
ghost use Rattle.graph_meaning.specs.Same.{Same};
ghost use Rattle.search_watch.specs.Literals.{IsEquationValue};
ghost use Rattle.search_watch.specs.Back.{CanGoBack, no_watch};
ghost use Rattle.search_watch.specs.Chains.{AddsTerms};
ghost use Rattle.search_watch.specs.Covers.{ItemsBelow};
ghost use Rattle.search_watch.specs.Grown.{OnlyTermsCame};
ghost use Rattle.search_watch.specs.Watched.{HaveChains, HasTerms};
ghost use Rattle.search_watch.specs.Service.{Service, Serves, ServesNow, HasClash, FindsChanges, service, where_stands};
ghost use Rattle.search_watch.specs.Follow.{IsBehind, ServesOver};

use crate::between::{gather_between, has_clash, push_later};
use crate::evaluate::equation_value;
use crate::watch::Watch;
use formula_truth::Truth;
use graph_meaning::{ClassGraph, Union};
use std::alloc::{AllocError, Global};

impl Watch {
    /// Gives so many terms to a watch that has none. A refusal is want of memory or of room.
    fn add_terms(&mut self, alloc: Global, count: u32) -> Result<(), AllocError>
        requires { self.old ≡ no_watch }
        ensures literals { OnOk result (HaveChains count self.new.literals.chains × ItemsBelow 0 self.new.literals.chains) }
        ensures differs { OnOk result (HaveChains count self.new.differs.chains × ItemsBelow 0 self.new.differs.chains) }
        ensures terms { OnOk result (HasTerms count self.new) }
    {
        for _k in 0..count {
            self.add_term(alloc)?;
        }
        Ok(())
    }

    /// Takes the differences, which the pairs are, from the earlier ones on. A refusal is want of memory or of room, and a
    /// part may have been done then.
    fn add_differences<G: ClassGraph>(
        &mut self,
        graph: &G,
        differs: &[(u32, u32)],
        earlier: usize,
    ) -> Result<(), AllocError>
        requires serves { (ends : List (ℕ × ℕ)) × (bound : ℕ) × ServesOver (service (G.standing graph.now) ends bound) (take earlier differs.now) self.old }
        requires differs { differs.now ≡ differs_of (G.standing graph.now) }
        ensures serves { OnOk result ((ends : List (ℕ × ℕ)) (bound : ℕ) → ServesOver (service (G.standing graph.now) ends bound) (take earlier differs.now) self.old → ServesOver (service (G.standing graph.now) ends bound) differs.now self.new) }
        ensures back { CanGoBack self.old self.new }
    {
        let _terms = graph.len();
        for d in earlier..differs.len() {
            if d > u32::MAX as usize {
                return Err(AllocError);
            }
            let left = graph.leader(differs[d].0);
            let right = graph.leader(differs[d].1);
            self.add_difference(d as u32, left, right)?;
        }
        Ok(())
    }

    /// A watch of the graph without literals. The pairs are the differences that stand in it. A refusal is want of memory or
    /// of room.
    pub fn of_graph<G: ClassGraph>(
        alloc: Global,
        graph: &G,
        differs: &[(u32, u32)],
    ) -> Result<Watch, AllocError>
        requires { differs.now ≡ differs_of (G.standing graph.now) }
        ensures { IfOk result (λ watch. (bound : ℕ) → Serves (service (G.standing graph.now) [] bound) watch) }
    {
        let mut watch = Watch::new(alloc);
        watch.add_terms(alloc, graph.len())?;
        watch.add_differences(graph, differs, 0)?;
        Ok(watch)
    }

    /// One more end of a literal, which has this number. A refusal is want of memory or of room, and a note may be left then.
    pub fn add_literal<G: ClassGraph>(
        &mut self,
        graph: &G,
        item: u32,
        term: u32,
    ) -> Result<(), AllocError>
        requires serves { ServesNow (G.standing graph.now) self.old }
        requires term { term < length (terms_of (G.standing graph.now)) }
        ensures serves { OnOk result ((ends : List (ℕ × ℕ)) (bound : ℕ) → Serves (service (G.standing graph.now) ends bound) self.old → item < bound → Serves (service (G.standing graph.now) (ends ++ (item, term) ∷ []) bound) self.new) }
        ensures back { CanGoBack self.old self.new }
    {
        let _terms = graph.len();
        let leader = graph.leader(term);
        self.literals.put(leader, item)?;
        Ok(())
    }

    /// Gives the chains as many terms as this. A refusal is want of memory or of room, and a part may have been done then.
    fn try_terms(&mut self, alloc: Global, count: u32) -> Result<(), AllocError>
        ensures literals { OnOk result (AddsTerms (count - length self.old.literals.chains.slots) self.old.literals.chains self.new.literals.chains) }
        ensures differs { OnOk result (AddsTerms (count - length self.old.literals.chains.slots) self.old.differs.chains self.new.differs.chains) }
        ensures back { CanGoBack self.old self.new }
    {
        let terms = self.literals.chains.terms();
        let _aligned = self.differs.chains.terms();
        for _k in terms..count {
            self.add_term(alloc)?;
        }
        Ok(())
    }

    /// Follows a graph to which only terms came: each new term ends no literal and no difference. A refusal is want of
    /// memory or of room, and the watch is as before then.
    pub fn follow_terms<G: ClassGraph>(
        &mut self,
        alloc: Global,
        graph: &G,
    ) -> Result<(), AllocError>
        ensures serves { OnOk result ((before : List Done) (ends : List (ℕ × ℕ)) (bound : ℕ) → OnlyTermsCame before (G.standing graph.now) → Serves (service before ends bound) self.old → Serves (service (G.standing graph.now) ends bound) self.new) }
        ensures err { OnErr result (self.new ≡ self.old) }
        ensures back { CanGoBack self.old self.new }
    {
        let mark = self.mark();
        match self.try_terms(alloc, graph.len()) {
            Ok(()) => Ok(()),
            Err(fault) => {
                self.back_to(mark);
                Err(fault)
            }
        }
    }

    /// Follows the graph over these unions and over the differences, which the pairs are, from the earlier ones on. It puts
    /// the numbers of all literals whose value may be another now behind those that were found, and says whether the graph
    /// has a clash. A refusal is want of memory or of room.
    pub fn follow<G: ClassGraph>(
        &mut self,
        graph: &G,
        unions: &[Union],
        differs: &[(u32, u32)],
        earlier: usize,
        literals: &mut Vec<u32>,
    ) -> Result<bool, AllocError>
        requires behind { (was : Service) × IsBehind was (G.standing graph.now) unions.now earlier self.old }
        requires differs { differs.now ≡ differs_of (G.standing graph.now) }
        ensures clash { IfOk result (λ clash. IsTrue clash ↔ HasClash (G.standing graph.now)) }
        ensures serves { IfOk result (λ clash. clash ≡ false → (was : Service) → IsBehind was (G.standing graph.now) unions.now earlier self.old → Serves (where_stands was (G.standing graph.now)) self.new) }
        ensures finds { IfOk result (λ clash. clash ≡ false → (was : Service) → IsBehind was (G.standing graph.now) unions.now earlier self.old → FindsChanges was.standing (G.standing graph.now) was.ends literals.new.items) }
        ensures within { OnOk result ((was : Service) → IsBehind was (G.standing graph.now) unions.now earlier self.old → All (λ item. item < was.bound) literals.old.items → All (λ item. item < was.bound) literals.new.items) }
        ensures back { CanGoBack self.old self.new }
    {
        let _terms = graph.len();
        let mut found = Vec::new(*literals.allocator());
        self.after_unions(unions, literals, &mut found)?;
        self.add_differences(graph, differs, earlier)?;
        push_later(earlier, differs.len(), &mut found)?;
        if has_clash(graph, differs, &found) {
            return Ok(true);
        }
        gather_between(graph, &self.literals.chains, differs, &found, literals)?;
        Ok(false)
    }

    /// What is known of an equation. The pairs are the differences that stand. It takes no memory.
    pub fn equation_value<G: ClassGraph>(
        &self,
        graph: &G,
        differs: &[(u32, u32)],
        left: u32,
        right: u32,
    ) -> Truth
        requires serves { ServesNow (G.standing graph.now) self.now }
        requires differs { differs.now ≡ differs_of (G.standing graph.now) }
        requires left { left < length (terms_of (G.standing graph.now)) }
        requires right { right < length (terms_of (G.standing graph.now)) }
        ensures { IsEquationValue (Same (G.standing graph.now)) (differs_of (G.standing graph.now)) left right result }
    {
        let _terms = graph.len();
        equation_value(graph, differs, &self.differs.chains, left, right)
    }
}
