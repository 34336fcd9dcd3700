//! The values of leaves by what stands.
ghost use Rattle.std.specs.Prelude.{◌≡◌, ℕ, ◌<◌, length, All};
ghost use Rattle.graph_meaning.specs.Standing.{terms_of};
ghost use Rattle.formula_table.specs.declared.node.Node.TheVariants.{Forall};
ghost use Rattle.formula_table.specs.Node.{terms_in};
ghost use Rattle.formula_truth.specs.declared.truth.Truth.TheVariants.{Unset};
ghost use Rattle.formula_value.specs.ByParts.{turn_of};
ghost use Rattle.search_watch.specs.Service.{ServesNow};
ghost use Rattle.search_branch.specs.Given.{IsLeafTruth};

use formula_table::Node;
use formula_truth::Truth;
use match_graph::MatchingGraph;
use search_watch::{Watch, atom_value};

/// The value of a literal, where that of its positive one is this.
fn turned(positive: bool, truth: Truth) -> Truth
    ensures { turn_of positive result ≡ truth }
{
    if positive {
        return truth;
    }
    match truth {
        Truth::Yes => Truth::No,
        Truth::No => Truth::Yes,
        Truth::Unset => Truth::Unset,
    }
}

/// The value of a leaf by what stands; a connective and a forall have none by themselves. It takes no memory.
pub(crate) fn leaf_truth(graph: &MatchingGraph, watch: &Watch, node: &Node) -> Truth
    requires terms { All (λ term. term < length (terms_of graph.now.standing)) (terms_in node.now) }
    requires serves { ServesNow graph.now.standing watch.now }
    ensures truth { IsLeafTruth graph.now.standing node.now result }
    ensures forall_waits { (forall : ℕ) → node.now ≡ Forall forall → result ≡ Unset }
{
    match node {
        Node::Equal {
            positive,
            left,
            right,
        } => {
            let value = watch.equation_value(graph, graph.differences(), *left, *right);
            return turned(*positive, value);
        }
        Node::Atom { positive, term } => {
            let value = atom_value(graph, *term);
            return turned(*positive, value);
        }
        Node::And { .. } | Node::Or { .. } | Node::Forall { .. } => return Truth::Unset,
    }
}
