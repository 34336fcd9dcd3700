//! Values of literals and foralls.
ghost use Rattle.std.specs.Prelude.{◌≡◌, ◌<◌, ◌↔◌, true, length, IsTrue, Contains};
ghost use Rattle.graph_meaning.specs.Standing.{terms_of};
ghost use Rattle.formula_table.specs.declared.node.Node.TheVariants.{Equal, Atom};
ghost use Rattle.formula_value.specs.Value.{AreJoined, AreKeptApart, AreFacts, known_with};
ghost use Rattle.formula_value.specs.ByParts.{IsLeafValue, turn_of};

use crate::facts::Facts;
use formula_truth::Truth;
use graph_meaning::ClassGraph;

/// The term that is true.
const TRUE_TERM: u32 = 0;

/// The term that is false.
const FALSE_TERM: u32 = 1;

/// Whether the two ends are equal to the two terms, in either order.
fn are_joined<G: ClassGraph>(
    graph: &G,
    facts: &Facts,
    one: u32,
    other: u32,
    left: u32,
    right: u32,
) -> bool
    requires one { one < length (terms_of (G.standing graph.now)) }
    requires other { other < length (terms_of (G.standing graph.now)) }
    requires left { left < length (terms_of (G.standing graph.now)) }
    requires right { right < length (terms_of (G.standing graph.now)) }
    ensures { IsTrue result ↔ AreJoined (known_with (G.standing graph.now) facts.now) one other left right }
{
    (graph.same(one, left) && graph.same(other, right))
        || (graph.same(one, right) && graph.same(other, left))
}

/// Whether a difference keeps the two terms apart.
fn are_kept_apart<G: ClassGraph>(graph: &G, facts: &Facts, left: u32, right: u32) -> bool
    requires facts { AreFacts (length (terms_of (G.standing graph.now))) facts.now }
    requires left { left < length (terms_of (G.standing graph.now)) }
    requires right { right < length (terms_of (G.standing graph.now)) }
    ensures { IsTrue result ↔ AreKeptApart (known_with (G.standing graph.now) facts.now) left right }
{
    let lefts = facts.differ_left.as_slice();
    let rights = facts.differ_right.as_slice();
    for i in 0..lefts.len() {
        if are_joined(graph, facts, lefts[i], rights[i], left, right) {
            return true;
        }
    }
    false
}

/// What is known of an equation.
pub(crate) fn equation_value<G: ClassGraph>(
    graph: &G,
    facts: &Facts,
    left: u32,
    right: u32,
) -> Truth
    requires facts { AreFacts (length (terms_of (G.standing graph.now))) facts.now }
    requires left { left < length (terms_of (G.standing graph.now)) }
    requires right { right < length (terms_of (G.standing graph.now)) }
    ensures { IsLeafValue (known_with (G.standing graph.now) facts.now) facts.now.live (Equal true left right) result }
{
    if graph.same(left, right) {
        return Truth::Yes;
    }
    if are_kept_apart(graph, facts, left, right) {
        return Truth::No;
    }
    Truth::Unset
}

/// What is known of an atom.
pub(crate) fn atom_value<G: ClassGraph>(graph: &G, facts: &Facts, term: u32) -> Truth
    requires { term < length (terms_of (G.standing graph.now)) }
    ensures { IsLeafValue (known_with (G.standing graph.now) facts.now) facts.now.live (Atom true term) result }
{
    if graph.same(term, TRUE_TERM) {
        return Truth::Yes;
    }
    if graph.same(term, FALSE_TERM) {
        return Truth::No;
    }
    Truth::Unset
}

/// The value of a literal, where that of its positive one is this.
pub(crate) fn turned(positive: bool, truth: Truth) -> Truth
    ensures { result ≡ turn_of positive truth }
{
    if positive {
        return truth;
    }
    match truth {
        Truth::Yes => Truth::No,
        Truth::No => Truth::Yes,
        Truth::Unset => Truth::Unset,
    }
}

/// Whether the forall is live.
pub(crate) fn is_live(facts: &Facts, forall: u32) -> bool
    ensures { IsTrue result ↔ Contains facts.now.live forall }
{
    facts.live.as_slice().contains(&forall)
}
