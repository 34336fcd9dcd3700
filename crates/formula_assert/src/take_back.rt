//! Takes operations back.
ghost use Rattle.std.specs.Prelude.{◌≡◌};
ghost use Rattle.graph_meaning.specs.State.{GraphState};
ghost use Rattle.formula_assert.specs.InLevel.{GrowsGraph};

use graph_meaning::ClassGraph;
use match_graph::MatchingGraph;

/// Takes operations that opened no level and ended none back, the last first, until so many count as done. Takes no memory.
pub(crate) fn take_back_to(graph: &mut MatchingGraph, version: u64)
    requires { (before : GraphState) × (before.done ≡ version) × GrowsGraph before graph.old }
    ensures { (before : GraphState) → before.done ≡ version → GrowsGraph before graph.old → graph.new ≡ before }
{
    'back: while graph.version() > version {
        graph.take_back();
    }
}
