//! The matches that were found.
ghost use Rattle.std.specs.Prelude.{◌≡◌, ◌++◌, ◌∷◌, [], length, take, IfOk, OnOk, OnErr};
ghost use Rattle.match_found.specs.Stored.{AreStanding, ListsStored};

use crate::listing::{arrange_each, empty_lists, put_each};
use crate::stored_tuple::StoredTuple;
use graph_meaning::ClassGraph;
use graph_terms::{Memory, Numbers};
use match_machine::TupleList;
use std::alloc::Global;
use std::marker::Model;

/// Tuples of terms, each under the number of its trigger, in the order in which they were found. Contracts see a list.
#[derive(Debug, Drop)]
pub struct FoundMatches {
    tuples: Vec<StoredTuple>,
}

impl Model for FoundMatches {
    ghost use Rattle.match_laws.specs.Due.{Stored};
    ghost use Rattle.match_found.specs.Stored.{stored_of};

    ghost Value = { Stored };

    ghost view = { λ store. stored_of store.tuples.items };
}

impl FoundMatches {
    /// No tuples.
    pub fn new(alloc: Global) -> FoundMatches
        ensures { result ≡ [] }
    {
        FoundMatches {
            tuples: Vec::new(alloc),
        }
    }

    /// How many tuples there are.
    pub fn len(&self) -> usize
        ensures { result ≡ length self.now }
    {
        self.tuples.len()
    }

    /// Puts a tuple of the trigger last. `Memory` comes where memory is refused; all is then as before.
    pub fn add(&mut self, trigger: u32, tuple: &Numbers) -> Result<(), Memory>
        ensures ok { OnOk result (self.new ≡ self.old ++ (trigger, tuple.now) ∷ []) }
        ensures err { OnErr result (self.new ≡ self.old) }
    {
        let alloc = *self.tuples.allocator();
        let tuple = tuple.copy(alloc)?;
        self.tuples.push(StoredTuple { trigger, tuple })?;
        Ok(())
    }

    /// Keeps the first tuples, so many at most. Takes no memory.
    pub fn keep_first(&mut self, count: usize)
        ensures { self.new ≡ take count self.old }
    {
        self.tuples.truncate(count);
    }

    /// For each live trigger its tuples, as tuples of leaders in lexicographic order, each once. The caller sees that the
    /// tuples are of live triggers and of terms that stand. `Memory` comes where memory is refused.
    pub fn listing<G: ClassGraph>(&self, alloc: Global, graph: &G) -> Result<Vec<TupleList>, Memory>
        requires { AreStanding (G.standing graph.now) self.now }
        ensures { IfOk result (λ lists. ListsStored (G.standing graph.now) self.now lists.items) }
    {
        let mut lists = empty_lists(alloc, graph.triggers())?;
        put_each(alloc, graph, self.tuples.as_slice(), &mut lists)?;
        arrange_each(&mut lists)?;
        Ok(lists)
    }
}
