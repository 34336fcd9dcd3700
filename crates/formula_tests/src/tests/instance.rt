//! Instances of foralls that were entered.
use formula_draft::{DraftFault, DraftNode, DraftRow, Formula, FormulaDraft};
use formula_table::{EnterFault, FormulaTable, Node};
use graph_terms::{Numbers, TermTable};
use graph_trigger::Triggers;
use std::alloc::Global;
use std::test::Fail;

/// For each x the atom of a function over x, without triggers.
fn atom_of_each(alloc: Global) -> Result<Formula, DraftFault> {
    let mut draft = FormulaDraft::new(alloc, 4, 4);
    let x = draft.row(DraftRow::Var { index: 0 })?;
    let args = Numbers::from_slice(alloc, &[x])?;
    let row = draft.row(DraftRow::App { symbol: 7, args })?;
    let body = draft.node(DraftNode::Atom {
        positive: true,
        row,
    })?;
    let triggers = Triggers::new(alloc);
    let index = draft.forall(1, body, triggers)?;
    let root = draft.node(DraftNode::Forall { index })?;
    Ok(draft.finish(root))
}

/// The node of the first forall's instance over a term, or `None` where the term doesn't stand or the forall has not one
/// variable.
fn first_instance(
    table: &mut FormulaTable,
    terms: &mut TermTable,
    term: u32,
) -> Result<Option<u32>, EnterFault> {
    if table.foralls() == 0 || term >= terms.len() {
        return Ok(None);
    }
    let variables = table.variables_of(0);
    if variables != 1 {
        return Ok(None);
    }
    let root = table.instance(terms, 0, &[term])?;
    Ok(Some(root))
}

#[test]
fn an_instance_is_the_body_over_a_term(rt: HostRuntime) -> Result<(), Fail> {
    let alloc = rt.alloc();
    let formula = atom_of_each(alloc)?;
    let mut terms = TermTable::new(alloc, 8)?;
    let mut table = FormulaTable::new(alloc, 8)?;
    assert_eq!(rt; table.enter(&mut terms, &formula)?, 0);
    assert_eq!(rt; first_instance(&mut table, &mut terms, 2)?, None);
    for _ in 0..2 {
        assert_eq!(rt; first_instance(&mut table, &mut terms, 1)?, Some(1));
    }
    assert_eq!(rt; [table.len(), terms.len(), table.foralls()], [2, 3, 1]);
    assert!(rt;
        table.len() > 1
            && matches!(
                table.node(1),
                Node::Atom {
                    positive: true,
                    term: 2
                }
            )
    );
    Ok(())
}
