//! What whoever embeds the assertions writes: a formula is asserted in a level, and goes with it.
use super::entry::atom;
use formula_assert::AssertionStack;
use formula_draft::Formula;
use formula_table::EnterFault;
use graph_meaning::ClassGraph;
use std::alloc::Global;
use std::test::Fail;

/// How many terms stand once the formula is asserted in a level of its own, and once that level has ended.
fn terms_in_level(alloc: Global, formula: &Formula) -> Result<(u32, u32), EnterFault> {
    let mut stack = AssertionStack::new(alloc, 100, 100)?;
    stack.push()?;
    stack.assert(formula)?;
    let inside = stack.graph().len();
    if stack.depth() > 0 {
        stack.pop();
    }
    let after = stack.graph().len();
    Ok((inside, after))
}

#[test]
fn what_came_in_a_level_goes_with_it(rt: HostRuntime) -> Result<(), Fail> {
    let alloc = rt.alloc();
    let formula = atom(alloc)?;
    assert_eq!(rt; terms_in_level(alloc, &formula)?, (3, 2));
    Ok(())
}
