//! Values of equations and atoms, by the classes of a graph and the chains of differences.
ghost use Rattle.std.specs.Prelude.{◌≡◌, ℕ, ◌<◌, ◌↔◌, ◌⊎◌, IsTrue, length, slice_get, slice_index, Some};
ghost use Rattle.graph_meaning.specs.Standing.{terms_of};
ghost use Rattle.graph_meaning.specs.Same.{Same};
ghost use Rattle.search_watch.specs.Chains.{HasChain, chain_at};
ghost use Rattle.search_watch.specs.Literals.{AreKeptApart, IsEquationValue, IsAtomValue};
ghost use Rattle.search_watch.specs.Evaluate.{AreJoined, AreDiffers, ChainHolds, AreDifferChains};

use crate::chains::Chains;
use formula_truth::Truth;
use graph_meaning::ClassGraph;

/// Whether the two ends are of the classes of the two terms, in either order.
fn joins<G: ClassGraph>(graph: &G, one: u32, other: u32, left: u32, right: u32) -> bool
    requires one { one < length (terms_of (G.standing graph.now)) }
    requires other { other < length (terms_of (G.standing graph.now)) }
    requires left { left < length (terms_of (G.standing graph.now)) }
    requires right { right < length (terms_of (G.standing graph.now)) }
    ensures { IsTrue result ↔ AreJoined (Same (G.standing graph.now)) (one, other) left right }
{
    (graph.same(one, left) && graph.same(other, right))
        || (graph.same(one, right) && graph.same(other, left))
}

/// Whether a difference in the chain of the leader of the first term keeps the two terms apart.
fn is_kept_apart<G: ClassGraph>(
    graph: &G,
    differs: &[(u32, u32)],
    chains: &Chains,
    leader: u32,
    left: u32,
    right: u32,
) -> bool
    requires left { left < length (terms_of (G.standing graph.now)) }
    requires right { right < length (terms_of (G.standing graph.now)) }
    requires differs { AreDiffers (length (terms_of (G.standing graph.now))) differs.now }
    requires has { HasChain chains.now leader }
    requires holds { ChainHolds (Same (G.standing graph.now)) differs.now (chain_at chains.now leader) left }
    ensures { IsTrue result ↔ AreKeptApart (Same (G.standing graph.now)) differs.now left right }
{
    for i in 0..chains.len(leader) {
        let d = chains.get(leader, i) as usize;
        let one = differs[d].0;
        let other = differs[d].1;
        if joins(graph, one, other, left, right) {
            return true;
        }
    }
    false
}

/// Whether a difference keeps the two terms apart. The shorter of two chains is walked.
fn are_kept_apart<G: ClassGraph>(
    graph: &G,
    differs: &[(u32, u32)],
    chains: &Chains,
    left: u32,
    right: u32,
) -> bool
    requires left { left < length (terms_of (G.standing graph.now)) }
    requires right { right < length (terms_of (G.standing graph.now)) }
    requires differs { AreDiffers (length (terms_of (G.standing graph.now))) differs.now }
    requires chains { AreDifferChains (G.standing graph.now) differs.now chains.now }
    ensures { IsTrue result ↔ AreKeptApart (Same (G.standing graph.now)) differs.now left right }
{
    let of_left = graph.leader(left);
    let of_right = graph.leader(right);
    if chains.len(of_left) <= chains.len(of_right) {
        return is_kept_apart(graph, differs, chains, of_left, left, right);
    }
    is_kept_apart(graph, differs, chains, of_right, right, left)
}

/// What is known of an equation: Yes where the terms are equal, No where a difference keeps them apart. The shorter of
/// two chains of differences is walked; no memory is taken.
pub fn equation_value<G: ClassGraph>(
    graph: &G,
    differs: &[(u32, u32)],
    chains: &Chains,
    left: u32,
    right: u32,
) -> Truth
    requires left { left < length (terms_of (G.standing graph.now)) }
    requires right { right < length (terms_of (G.standing graph.now)) }
    requires differs { AreDiffers (length (terms_of (G.standing graph.now))) differs.now }
    requires chains { AreDifferChains (G.standing graph.now) differs.now chains.now }
    ensures { IsEquationValue (Same (G.standing graph.now)) differs.now left right result }
{
    if graph.same(left, right) {
        return Truth::Yes;
    }
    if are_kept_apart(graph, differs, chains, left, right) {
        return Truth::No;
    }
    Truth::Unset
}

/// What is known of an atom: Yes where its term is equal to that of true, No where to that of false. It takes no memory.
pub fn atom_value<G: ClassGraph>(graph: &G, term: u32) -> Truth
    requires term { term < length (terms_of (G.standing graph.now)) }
    requires constants { 1 < length (terms_of (G.standing graph.now)) }
    ensures { IsAtomValue (Same (G.standing graph.now)) term result }
{
    if graph.same(term, 0) {
        return Truth::Yes;
    }
    if graph.same(term, 1) {
        return Truth::No;
    }
    Truth::Unset
}
