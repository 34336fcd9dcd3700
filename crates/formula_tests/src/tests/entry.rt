//! Formulas that are entered.
use formula_draft::{DraftFault, DraftNode, DraftRow, Formula, FormulaDraft};
use formula_table::{FormulaTable, Node};
use graph_terms::{Memory, Numbers, TermTable};
use graph_trigger::Triggers;
use std::alloc::Global;
use std::test::Fail;

/// The atom of a constant.
pub fn atom(alloc: Global) -> Result<Formula, DraftFault> {
    let mut draft = FormulaDraft::new(alloc, 4, 4);
    let args = Numbers::from_slice(alloc, &[])?;
    let row = draft.row(DraftRow::App { symbol: 7, args })?;
    let root = draft.node(DraftNode::Atom {
        positive: true,
        row,
    })?;
    Ok(draft.finish(root))
}

#[test]
fn an_atom_is_entered_once(rt: HostRuntime) -> Result<(), Fail> {
    let alloc = rt.alloc();
    let formula = atom(alloc)?;
    let mut terms = TermTable::new(alloc, 8)?;
    let mut table = FormulaTable::new(alloc, 8)?;
    for _ in 0..2 {
        let root = table.enter(&mut terms, &formula)?;
        assert_eq!(rt; root, 0);
    }
    assert_eq!(rt; [table.len(), terms.len(), table.foralls()], [1, 3, 0]);
    assert!(rt;
        table.len() > 0
            && matches!(
                table.node(0),
                Node::Atom {
                    positive: true,
                    term: 2
                }
            )
    );
    table.cut(0, 0);
    assert_eq!(rt; table.len(), 0);
    Ok(())
}

#[test]
fn a_draft_takes_each_row_and_node_once(rt: HostRuntime) -> Result<(), Fail> {
    let alloc = rt.alloc();
    let mut draft = FormulaDraft::new(alloc, 4, 4);
    for _ in 0..2 {
        let row = draft.row(DraftRow::Var { index: 3 })?;
        let node = draft.node(DraftNode::Forall { index: 5 })?;
        assert_eq!(rt; [row, node], [0, 0]);
    }
    assert_eq!(rt; draft.forall(2, 9, Triggers::new(alloc))?, 0);
    assert_eq!(rt; [draft.rows(), draft.nodes(), draft.foralls()], [1, 1, 1]);
    Ok(())
}
