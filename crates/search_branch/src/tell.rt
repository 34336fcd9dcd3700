//! What came is told to the values of nodes.
ghost use Rattle.std.specs.Prelude.{◌≡◌, ℕ, ◌<◌, ◌≤◌, length, map, take, All, Contains, OnOk};
ghost use Rattle.search_values.specs.Given.{Given, kind_of, HasPlace};
ghost use Rattle.search_values.specs.Kept.{given_of};
ghost use Rattle.search_watch.specs.Service.{ServesNow};
ghost use Rattle.search_branch.specs.Given.{kind_in, AreForallValues};
ghost use Rattle.search_branch.specs.Grown.{ComesBehind};
ghost use Rattle.search_branch.specs.Told.{KeepsNodes, KeepsLeaves, TellsLeaf, AreToldBut, AreTold, AreAsserted};
ghost use Rattle.search_branch.specs.Told.{TellsForall, AssertsNode, TellsAll};
ghost use Rattle.search_branch.specs.Struck.{StrikesAll};

use crate::leaf::leaf_truth;
use formula_assert::AssertionStack;
use formula_table::{FormulaTable, Node};
use formula_truth::{Truth, is_set};
use search_values::NodeValues;
use search_watch::Watch;
use std::alloc::AllocError;

/// Gives a leaf that has no value the one by what stands, if there is one.
fn set_one(
    values: &mut NodeValues,
    watch: &Watch,
    stack: &AssertionStack,
    n: u32,
) -> Result<(), AllocError>
    requires stands { n < length stack.now.formulas.nodes }
    requires kinds { (given_of values.old).kinds ≡ map kind_in stack.now.formulas.nodes }
    requires serves { ServesNow stack.now.graph.standing watch.now }
    ensures tells { OnOk result (TellsLeaf stack.now.graph.standing stack.now.formulas.nodes n (given_of values.old) (given_of values.new)) }
    ensures saved { values.new.saved ≡ values.old.saved }
{
    if is_set(values.value(n)) {
        return Ok(());
    }
    let _rules = stack.depth();
    let truth = leaf_truth(stack.graph(), watch, stack.formulas().node(n));
    if is_set(truth) {
        values.set_leaf(n, truth)?;
    }
    Ok(())
}

/// Gives each leaf among these that has no value the one by what stands, if there is one.
pub(crate) fn set_found(
    values: &mut NodeValues,
    watch: &Watch,
    stack: &AssertionStack,
    found: &[u32],
) -> Result<(), AllocError>
    requires kinds { (given_of values.old).kinds ≡ map kind_in stack.now.formulas.nodes }
    requires serves { ServesNow stack.now.graph.standing watch.now }
    requires stand { All (λ n. n < length stack.now.formulas.nodes) found.now }
    requires told { AreToldBut (Contains found.now) stack.now.graph.standing stack.now.formulas.nodes (given_of values.old) }
    ensures told { OnOk result (AreTold stack.now.graph.standing stack.now.formulas.nodes (given_of values.new)) }
    ensures keeps { OnOk result (KeepsNodes stack.now.formulas.nodes (given_of values.old) (given_of values.new)) }
    ensures saved { values.new.saved ≡ values.old.saved }
{
    for i in 0..found.len() {
        set_one(values, watch, stack, found[i])?;
    }
    Ok(())
}

/// Tells a node that is to be asserted that it is true, if it is a forall.
fn tell_forall(values: &mut NodeValues, node: &Node, n: u32) -> Result<(), AllocError>
    requires stands { n < length values.old.shown.kinds }
    requires kind { kind_of (given_of values.old) n ≡ kind_in node.now }
    ensures tells { OnOk result (TellsForall node.now n (given_of values.old) (given_of values.new)) }
    ensures saved { values.new.saved ≡ values.old.saved }
{
    match node {
        Node::Forall { .. } => {
            if is_set(values.value(n)) {
                return Ok(());
            }
            values.set_leaf(n, Truth::Yes)?;
            return Ok(());
        }
        Node::Equal { .. } | Node::Atom { .. } | Node::And { .. } | Node::Or { .. } => {
            return Ok(());
        }
    }
}

/// Asserts a node; a forall is true then.
fn assert_node(values: &mut NodeValues, node: &Node, n: u32) -> Result<(), AllocError>
    requires stands { n < length values.old.shown.kinds }
    requires kind { kind_of (given_of values.old) n ≡ kind_in node.now }
    ensures asserts { OnOk result (AssertsNode node.now n (given_of values.old) (given_of values.new)) }
    ensures saved { values.new.saved ≡ values.old.saved }
{
    tell_forall(values, node, n)?;
    values.assert(n)?;
    Ok(())
}

/// Asserts each node from this place of the list on. A number that no node has is passed over.
pub(crate) fn assert_new(
    values: &mut NodeValues,
    formulas: &FormulaTable,
    asserted: &[u32],
    from: usize,
) -> Result<(), AllocError>
    requires from { from ≤ length asserted.now }
    requires before { AreAsserted (take from asserted.now) (given_of values.old) }
    requires kinds { (given_of values.old).kinds ≡ map kind_in formulas.now.nodes }
    requires foralls { AreForallValues formulas.now.nodes (given_of values.old) }
    ensures asserted { OnOk result (AreAsserted asserted.now (given_of values.new)) }
    ensures foralls { OnOk result (AreForallValues formulas.now.nodes (given_of values.new)) }
    ensures keeps { OnOk result (KeepsLeaves formulas.now.nodes (given_of values.old) (given_of values.new)) }
    ensures saved { values.new.saved ≡ values.old.saved }
{
    for i in from..asserted.len() {
        let n = asserted[i];
        if n < values.len() {
            assert_node(values, formulas.node(n), n)?;
        }
    }
    Ok(())
}

/// Tells the nodes that are asserted from this place of the stack's list on, and the values of leaves that were found.
pub(crate) fn tell_all(
    values: &mut NodeValues,
    watch: &Watch,
    stack: &AssertionStack,
    from: usize,
    found: &[u32],
) -> Result<(), AllocError>
    requires from { from ≤ length stack.now.asserted }
    requires before { AreAsserted (take from stack.now.asserted) (given_of values.old) }
    requires foralls { AreForallValues stack.now.formulas.nodes (given_of values.old) }
    requires kinds { (given_of values.old).kinds ≡ map kind_in stack.now.formulas.nodes }
    requires serves { ServesNow stack.now.graph.standing watch.now }
    requires stand { All (λ n. n < length stack.now.formulas.nodes) found.now }
    requires told { AreToldBut (Contains found.now) stack.now.graph.standing stack.now.formulas.nodes (given_of values.old) }
    ensures tells { OnOk result (TellsAll stack.now (given_of values.old) (given_of values.new)) }
    ensures saved { values.new.saved ≡ values.old.saved }
{
    set_found(values, watch, stack, found)?;
    assert_new(values, stack.formulas(), stack.asserted(), from)?;
    Ok(())
}

/// Gives each leaf from this one on the value by what stands, if there is one.
pub(crate) fn set_from(
    values: &mut NodeValues,
    watch: &Watch,
    stack: &AssertionStack,
    first: u32,
) -> Result<(), AllocError>
    requires kinds { (given_of values.old).kinds ≡ map kind_in stack.now.formulas.nodes }
    requires serves { ServesNow stack.now.graph.standing watch.now }
    requires told { AreToldBut (λ n. first ≤ n) stack.now.graph.standing stack.now.formulas.nodes (given_of values.old) }
    ensures told { OnOk result (AreTold stack.now.graph.standing stack.now.formulas.nodes (given_of values.new)) }
    ensures keeps { OnOk result (KeepsNodes stack.now.formulas.nodes (given_of values.old) (given_of values.new)) }
    ensures saved { values.new.saved ≡ values.old.saved }
{
    for n in first..stack.formulas().len() {
        set_one(values, watch, stack, n)?;
    }
    Ok(())
}

/// Tells all that stands to nodes of which nothing was told.
pub(crate) fn tell_start(
    values: &mut NodeValues,
    watch: &Watch,
    stack: &AssertionStack,
) -> Result<(), AllocError>
    requires behind { (old : Given) × ComesBehind stack.now.formulas.nodes 0 old (given_of values.old) }
    requires serves { ServesNow stack.now.graph.standing watch.now }
    ensures tells { OnOk result (TellsAll stack.now (given_of values.old) (given_of values.new)) }
{
    set_from(values, watch, stack, 0)?;
    assert_new(values, stack.formulas(), stack.asserted(), 0)?;
    Ok(())
}

/// Strikes each of these places of nodes; one that is struck already stays so.
pub(crate) fn strike_each(values: &mut NodeValues, struck: &[(u32, u32)]) -> Result<(), AllocError>
    requires places { All (λ at. HasPlace (given_of values.old) at.0 at.1) struck.now }
    ensures strikes { OnOk result (StrikesAll struck.now (given_of values.old) (given_of values.new)) }
    ensures saved { values.new.saved ≡ values.old.saved }
{
    for i in 0..struck.len() {
        values.strike(struck[i].0, struck[i].1)?;
    }
    Ok(())
}
