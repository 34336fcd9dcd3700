//! A plain graph and a graph with a trail, with the same operations.
ghost use Rattle.std.specs.Prelude.{◌≤◌};

use super::agreement::agree;
use graph_congruence::Graph;
use graph_meaning::{ClassGraph, Front, Op};
use graph_plain::PlainGraph;
use graph_terms::{Memory, TableFault};
use std::alloc::Global;

/// Two graphs that were driven alike, and fronts that they had.
#[derive(Drop)]
pub struct Pair {
    pub plain: PlainGraph,
    pub graph: Graph,
    pub fronts: Vec<Front>,
}

impl Pair {
    /// Two graphs without operations, for so many terms.
    pub fn new(alloc: Global, limit: u32) -> Result<Pair, Memory>
        requires { 2 ≤ limit }
    {
        let plain = PlainGraph::new(alloc, limit)?;
        let graph = Graph::new(alloc, limit)?;
        Ok(Pair {
            plain,
            graph,
            fronts: Vec::new(alloc),
        })
    }

    /// Whether the graphs answer each call alike.
    pub fn agrees(&self) -> bool {
        agree(&self.plain, &self.graph, self.fronts.as_slice())
    }

    /// Keeps the front of the graphs under the next number.
    pub fn mark(&mut self) -> Result<(), Memory> {
        let front = self.graph.front();
        self.fronts.push(front)?;
        Ok(())
    }

    /// Whether the front with a number still stands.
    pub fn stands(&self, number: usize) -> Option<bool> {
        let front = self.fronts.get(number)?;
        Some(self.graph.still_front(front))
    }

    /// Whether the operation is allowed, where both graphs tell that alike.
    pub fn allows(&self, op: &Op) -> Option<bool> {
        let allowed = self.graph.lawful(op);
        if self.plain.lawful(op) == allowed {
            Some(allowed)
        } else {
            None
        }
    }

    /// Does the operation in the graph with a trail, and tells whether it was allowed.
    pub fn lead(&mut self, op: &Op) -> Result<bool, TableFault> {
        if !self.graph.lawful(op) {
            return Ok(false);
        }
        self.graph.apply(op)?;
        Ok(true)
    }

    /// Does the operation in the plain graph, and tells whether it was allowed.
    pub fn follow(&mut self, op: Op) -> Result<bool, TableFault> {
        if !self.plain.lawful(&op) {
            return Ok(false);
        }
        self.plain.apply(op)?;
        Ok(true)
    }

    /// Takes the last operation of the graph with a trail back, and tells whether that was allowed.
    pub fn go_back(&mut self) -> bool {
        if !self.graph.can_take_back() {
            return false;
        }
        self.graph.take_back();
        true
    }
}
