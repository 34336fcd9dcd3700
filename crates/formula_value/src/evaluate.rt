//! Values of formulas.
ghost use Rattle.std.specs.Prelude.{◌≡◌, ◌<◌, ◌≤◌, ◌++◌, ◌∷◌, [], length, All, IfOk, OnOk};
ghost use Rattle.graph_meaning.specs.Standing.{terms_of};
ghost use Rattle.formula_table.specs.Node.{children_of, terms_in};
ghost use Rattle.formula_table.specs.Formulas.{NodesStand};
ghost use Rattle.formula_value.specs.Value.{AreFacts, HasValueIn, AreFirstValues, known_with};
ghost use Rattle.formula_value.specs.ByParts.{IsNodeValue};

use crate::connective::{conjunction, disjunction};
use crate::facts::Facts;
use crate::leaf::{atom_value, equation_value, is_live, turned};
use formula_table::{FormulaTable, Node};
use formula_truth::Truth;
use formula_truth::laws::joining_law;
use graph_meaning::ClassGraph;
use graph_terms::Memory;
use std::alloc::Global;

/// What is known of a node over formulas with these values.
fn node_value<G: ClassGraph>(node: &Node, values: &[Truth], graph: &G, facts: &Facts) -> Truth
    requires facts { AreFacts (length (terms_of (G.standing graph.now))) facts.now }
    requires terms { All (λ term. term < length (terms_of (G.standing graph.now))) (terms_in node.now) }
    requires parts { All (λ part. part < length values.now) (children_of node.now) }
    ensures { IsNodeValue (known_with (G.standing graph.now) facts.now) facts.now.live values.now node.now result }
{
    match node {
        Node::Equal {
            positive,
            left,
            right,
        } => turned(*positive, equation_value(graph, facts, *left, *right)),
        Node::Atom { positive, term } => turned(*positive, atom_value(graph, facts, *term)),
        Node::And { parts } => conjunction(parts.as_slice(), values),
        Node::Or { parts } => disjunction(parts.as_slice(), values),
        Node::Forall { forall } => {
            if is_live(facts, *forall) {
                Truth::Yes
            } else {
                Truth::Unset
            }
        }
    }
}

/// Puts a value last.
fn push_value(values: &mut Vec<Truth>, value: Truth) -> Result<(), Memory>
    ensures { OnOk result (values.new.items ≡ values.old.items ++ value ∷ []) }
{
    values.push(value)?;
    Ok(())
}

/// The values of the first so many formulas, from the first on.
fn first_values<G: ClassGraph>(
    alloc: Global,
    table: &FormulaTable,
    count: u32,
    graph: &G,
    facts: &Facts,
) -> Result<Vec<Truth>, Memory>
    requires count { count ≤ length table.now.nodes }
    requires terms { NodesStand (length (terms_of (G.standing graph.now))) table.now.nodes }
    requires facts { AreFacts (length (terms_of (G.standing graph.now))) facts.now }
    ensures { IfOk result (λ values. AreFirstValues (G.standing graph.now) facts.now table.now.nodes count values.items) }
{
    joining_law();
    let _lawful = table.len();
    let mut values = Vec::new(alloc);
    for n in 0..count {
        let value = node_value(table.node(n), &values, graph, facts);
        push_value(&mut values, value)?;
    }
    Ok(values)
}

/// What is known of the formula with this number, by the graph and the facts. It evaluates the nodes up to this one, each
/// once, and keeps a value for each; `Memory` comes where there is no room for these.
pub fn value<G: ClassGraph>(
    alloc: Global,
    table: &FormulaTable,
    n: u32,
    graph: &G,
    facts: &Facts,
) -> Result<Truth, Memory>
    requires stands { n < length table.now.nodes }
    requires terms { NodesStand (length (terms_of (G.standing graph.now))) table.now.nodes }
    requires facts { AreFacts (length (terms_of (G.standing graph.now))) facts.now }
    ensures { IfOk result (HasValueIn (G.standing graph.now) facts.now table.now.nodes n) }
{
    let _stands = table.len();
    let values = first_values(alloc, table, n + 1, graph, facts)?;
    Ok(values[n as usize])
}

/// What is known of each formula of the table, by number, by the graph and the facts. `Memory` comes where there is no room
/// for the values.
pub fn values<G: ClassGraph>(
    alloc: Global,
    table: &FormulaTable,
    graph: &G,
    facts: &Facts,
) -> Result<Vec<Truth>, Memory>
    requires terms { NodesStand (length (terms_of (G.standing graph.now))) table.now.nodes }
    requires facts { AreFacts (length (terms_of (G.standing graph.now))) facts.now }
    ensures { IfOk result (λ values. AreFirstValues (G.standing graph.now) facts.now table.now.nodes (length table.now.nodes) values.items) }
{
    first_values(alloc, table, table.len(), graph, facts)
}
