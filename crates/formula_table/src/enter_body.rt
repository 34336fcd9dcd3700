//! Enters the body of a forall over a tuple of terms.
ghost use Rattle.std.specs.Prelude.{◌≡◌, ◌<◌, [], List, length, All, IfOk, IfErr, OnErr};
ghost use Rattle.graph_terms.specs.declared.term_row.TermRow.{TermRow};
ghost use Rattle.formula_draft.specs.Draft.{Formula};
ghost use Rattle.formula_table.specs.Body.{IsFormulaOver, IsCompact};
ghost use Rattle.formula_table.specs.Formulas.{GrowsTable};
ghost use Rattle.formula_table.specs.Entry.{RowsGrow, TableGrows, StopsTable};
ghost use Rattle.formula_table.specs.EntryInside.{StopsRows, NodeNumbersStand, NodeGrows, StopsNode, NodesEntered, StopsNodes};
ghost use Rattle.formula_table.specs.Instance.{HasBody};

use crate::body::Body;
use crate::enter_fault::EnterFault;
use crate::enter_nodes::next_node;
use crate::enter_rows::{enter_rows, push_number};
use crate::formula_table::FormulaTable;
use crate::reached::all_marked;
use crate::row_list::RowList;
use graph_terms::TermEntry;
use std::alloc::Global;

/// Enters the rows of a body over a tuple of terms, in order. Gives the term of each row.
pub(crate) fn enter_body_rows<E: TermEntry>(
    alloc: Global,
    terms: &mut E,
    body: &Body,
    tuple: &[u32],
) -> Result<Vec<u32>, EnterFault>
    requires formula { IsFormulaOver (length tuple.now) body.now }
    requires compact { IsCompact body.now }
    requires tuple { All (λ term. term < length (E.rows terms.old)) tuple.now }
    ensures ok { IfOk result (λ numbers. RowsGrow (E.grown terms.old terms.new) body.now tuple.now (E.rows terms.old) (E.limit terms.old) numbers.items) }
    ensures fault { IfErr result (StopsRows (E.grown terms.old terms.new) (λ added. (middle : E) × E.grown terms.old middle added × E.refused middle terms.new) body.now tuple.now (E.rows terms.old) (E.limit terms.old)) }
{
    let marks = all_marked(alloc, body.row_count())?;
    let numbers = enter_rows(alloc, terms, body, tuple, &marks)?;
    Ok(numbers)
}

/// Enters the next node of the body of a forall. Gives its number.
fn enter_body_node(
    alloc: Global,
    table: &mut FormulaTable,
    forall: u32,
    terms: &[u32],
    numbers: &[u32],
) -> Result<u32, EnterFault>
    ghost body: { Formula }
    requires body { HasBody table.old forall body }
    requires next { length numbers.now < length body.nodes }
    requires terms { length terms.now ≡ length body.rows }
    requires stand { NodeNumbersStand body table.old numbers.now }
    ensures ok { IfOk result (NodeGrows body terms.now [] numbers.now table.old table.new) }
    ensures fault { IfErr result (StopsNode body terms.now [] numbers.now table.old) }
    ensures err { OnErr result (table.new ≡ table.old) }
{
    let _nodes = table.len();
    let node = table.body_of(forall).node_at(numbers.len());
    let node = next_node(alloc, node, terms, &[], numbers)?;
    let number = table.put_node(node)?;
    Ok(number)
}

/// Enters the nodes of the body of a forall, in order. Gives the number of the root.
fn enter_body_nodes(
    alloc: Global,
    table: &mut FormulaTable,
    forall: u32,
    terms: &[u32],
) -> Result<u32, EnterFault>
    ghost body: { Formula }
    requires body { HasBody table.old forall body }
    requires terms { length terms.now ≡ length body.rows }
    ensures ok { IfOk result (NodesEntered body terms.now [] table.old table.new) }
    ensures fault { IfErr result (StopsNodes body terms.now [] table.old) }
    ensures grows { GrowsTable table.old table.new }
{
    let _nodes = table.len();
    let count = table.body_of(forall).node_count();
    let root = table.body_of(forall).root();
    let mut numbers = Vec::new(alloc);
    for _n in 0..count {
        let number = enter_body_node(alloc, table, forall, terms, &numbers)?;
        push_number(&mut numbers, number)?;
    }
    Ok(numbers[root as usize])
}

/// Enters the nodes of the body of a forall over these terms, all or none. Gives the number of the root.
pub(crate) fn enter_body(
    alloc: Global,
    table: &mut FormulaTable,
    forall: u32,
    terms: &[u32],
) -> Result<u32, EnterFault>
    ghost body: { Formula }
    requires body { HasBody table.old forall body }
    requires terms { length terms.now ≡ length body.rows }
    ensures ok { IfOk result (TableGrows body terms.now table.old table.new) }
    ensures fault { IfErr result (StopsTable body terms.now table.old) }
    ensures err { OnErr result (table.new ≡ table.old) }
{
    let kept_nodes = table.len();
    let kept_foralls = table.foralls();
    match enter_body_nodes(alloc, table, forall, terms) {
        Ok(number) => return Ok(number),
        Err(fault) => {
            table.cut(kept_nodes, kept_foralls);
            return Err(fault);
        }
    }
}
