//! The table of formulas.
ghost use Rattle.std.specs.Prelude.{◌≡◌, ◌<◌, ◌≤◌, ◌++◌, ◌∷◌, [], Some, length, slice_get, All, IfOk, IfErr, OnOk, OnErr};
ghost use Rattle.formula_table.specs.Formulas.{no_formulas, first_formulas, IsFormulaTable, IsForallOf, NamesFirst, HasTriggers, FitsTable, RefusesEntered, with_foralls, with_entered, GrowsTable};
ghost use Rattle.formula_draft.specs.Reach.{ReachesNode};
ghost use Rattle.formula_table.specs.Marks.{AreMarks};
ghost use Rattle.formula_draft.specs.Draft.{IsFormula};
ghost use Rattle.formula_table.specs.Entry.{TableGrows, StopsTable, Enters, StopsEntry};
ghost use Rattle.formula_table.specs.Instance.{HasVariables, HasBody, EntersInstance, StopsInstance};

use crate::body::Body;
use crate::enter_body::{enter_body, enter_body_rows};
use crate::enter_fault::EnterFault;
use crate::enter_foralls::enter_foralls;
use crate::enter_nodes::enter_nodes;
use crate::enter_rows::enter_rows;
use crate::node::Node;
use crate::reached::{reached_foralls, reached_nodes, reached_rows};
use crate::table_forall::TableForall;
use formula_draft::Formula;
use formula_draft::items::put;
use graph_terms::{Memory, TermEntry};
use graph_trigger::Triggers;
use indexmap::IndexMap;
use std::alloc::Global;
use std::marker::Model;

/// Formulas and foralls by number. A node stands once, and its number is its place.
#[derive(Drop)]
pub struct FormulaTable {
    limit: u32,
    nodes: IndexMap<Vec<u32>, Node>,
    foralls: Vec<TableForall>,
}

impl Model for FormulaTable {
    ghost use Rattle.formula_table.specs.Formulas.{Formulas};

    ghost Value = { Formulas };

    ghost use Rattle.formula_table.specs.TableInside.{table_of, IsKeptTable};

    ghost view = { table_of };

    ghost invariant = { IsKeptTable };
}

impl FormulaTable {
    /// Nothing yet. There may be so many nodes.
    pub fn new(alloc: Global, limit: u32) -> Result<FormulaTable, Memory>
        ensures { IfOk result (λ table. table ≡ no_formulas limit) }
    {
        Ok(FormulaTable {
            limit,
            nodes: IndexMap::new(alloc),
            foralls: Vec::new(alloc),
        })
    }

    /// The node with this number.
    pub fn node(&self, n: u32) -> &Node
        requires { n < length self.now.nodes }
        ensures { slice_get self.now.nodes n ≡ Some result.now }
    {
        self.nodes.get_index(n as usize).unwrap().1
    }

    /// The number of nodes.
    pub fn len(&self) -> u32
        ensures value { result ≡ length self.now.nodes }
        ensures table { IsFormulaTable self.now }
    {
        self.nodes.len() as u32
    }

    /// The number of foralls.
    pub fn foralls(&self) -> u32
        ensures { result ≡ length self.now.foralls }
    {
        self.foralls.len() as u32
    }

    /// The triggers of a forall, in order.
    pub fn triggers_of(&self, forall: u32) -> &Triggers
        requires { forall < length self.now.foralls }
        ensures { HasTriggers self.now forall result.now }
    {
        &self.foralls[forall as usize].triggers
    }

    /// The number of variables of a forall.
    pub fn variables_of(&self, forall: u32) -> u32
        requires { forall < length self.now.foralls }
        ensures { HasVariables self.now forall result }
    {
        self.foralls[forall as usize].variables
    }

    /// The body of a forall.
    pub(crate) fn body_of(&self, forall: u32) -> &Body
        requires { forall < length self.now.foralls }
        ensures { HasBody self.now forall result.now }
    {
        &self.foralls[forall as usize].body
    }

    /// Keeps the first nodes and foralls.
    pub fn cut(&mut self, nodes: u32, foralls: u32)
        requires nodes { nodes ≤ length self.old.nodes }
        requires foralls { foralls ≤ length self.old.foralls }
        requires named { NamesFirst self.old nodes foralls }
        ensures { self.new ≡ first_formulas nodes foralls self.old }
    {
        self.nodes.truncate(nodes as usize);
        self.foralls.truncate(foralls as usize);
    }

    /// Enters what is reached from the root of the formula, without going into the bodies of foralls, in the formula's order.
    /// First its rows are added as terms. Then its foralls get the next numbers, which their triggers carry with their
    /// places. Then its nodes are entered: a node that stands keeps its number, and the terms of an equation are put in
    /// ascending order. Gives the number of the root. After a refusal the table is as before, and the terms that were added stand.
    pub fn enter<E: TermEntry>(
        &mut self,
        terms: &mut E,
        formula: &Formula,
    ) -> Result<u32, EnterFault>
        ensures ok { IfOk result (Enters (E.grown terms.old terms.new) formula.now [] (E.rows terms.old) (E.limit terms.old) self.old self.new) }
        ensures fault { IfErr result (StopsEntry (E.grown terms.old terms.new) (λ added. (middle : E) × E.grown terms.old middle added × E.refused middle terms.new) formula.now [] (E.rows terms.old) (E.limit terms.old) self.old) }
        ensures err { OnErr result (self.new ≡ self.old) }
    {
        let alloc = self.allocator();
        let root = formula.root();
        let nodes = reached_nodes(alloc, formula, root)?;
        let rows = reached_rows(alloc, formula, root, &nodes)?;
        let numbers = enter_rows(alloc, terms, formula, &[], &rows)?;
        let number = self.enter_all(formula, &nodes, &numbers)?;
        Ok(number)
    }

    /// Enters the body of a forall over a tuple of terms, one for each variable, in the body's order. First its rows are
    /// added as terms: a variable is its term of the tuple, and adds none. Then its nodes are entered: a node that stands
    /// keeps its number, and the terms of an equation are put in ascending order. Gives the number of the body's root.
    /// `TermsFull` and `NodesFull` come where the next term or node is new, and as many stand as may, and `Memory` where
    /// memory was refused. After a refusal the table is as before, and the terms that were added stand.
    pub fn instance<E: TermEntry>(
        &mut self,
        terms: &mut E,
        forall: u32,
        tuple: &[u32],
    ) -> Result<u32, EnterFault>
        requires variables { HasVariables self.old forall (length tuple.now) }
        requires tuple { All (λ term. term < length (E.rows terms.old)) tuple.now }
        ensures ok { IfOk result (EntersInstance (E.grown terms.old terms.new) forall tuple.now (E.rows terms.old) (E.limit terms.old) self.old self.new) }
        ensures fault { IfErr result (StopsInstance (E.grown terms.old terms.new) (λ added. (middle : E) × E.grown terms.old middle added × E.refused middle terms.new) forall tuple.now (E.rows terms.old) (E.limit terms.old) self.old) }
        ensures err { OnErr result (self.new ≡ self.old) }
    {
        let alloc = self.allocator();
        let _nodes = self.len();
        let numbers = enter_body_rows(alloc, terms, self.body_of(forall), tuple)?;
        let number = enter_body(alloc, self, forall, &numbers)?;
        Ok(number)
    }

    /// Enters the reached foralls and nodes. Gives the number of the root. After a refusal some may stand.
    fn enter_some(
        &mut self,
        formula: &Formula,
        nodes: &[bool],
        terms: &[u32],
    ) -> Result<u32, EnterFault>
        requires formula { IsFormula formula.now }
        requires reached { AreMarks (length formula.now.nodes) (ReachesNode formula.now.nodes formula.now.root) nodes.now }
        requires terms { length terms.now ≡ length formula.now.rows }
        ensures ok { IfOk result (TableGrows formula.now terms.now self.old self.new) }
        ensures fault { IfErr result (StopsTable formula.now terms.now self.old) }
        ensures grows { GrowsTable self.old self.new }
    {
        let alloc = self.allocator();
        let foralls = reached_foralls(alloc, formula, nodes)?;
        let numbers = enter_foralls(alloc, self, formula, &foralls)?;
        let number = enter_nodes(alloc, self, formula, nodes, terms, &numbers)?;
        Ok(number)
    }

    /// Enters the reached foralls and nodes, all or none. Gives the number of the root.
    fn enter_all(
        &mut self,
        formula: &Formula,
        nodes: &[bool],
        terms: &[u32],
    ) -> Result<u32, EnterFault>
        requires formula { IsFormula formula.now }
        requires reached { AreMarks (length formula.now.nodes) (ReachesNode formula.now.nodes formula.now.root) nodes.now }
        requires terms { length terms.now ≡ length formula.now.rows }
        ensures ok { IfOk result (TableGrows formula.now terms.now self.old self.new) }
        ensures fault { IfErr result (StopsTable formula.now terms.now self.old) }
        ensures err { OnErr result (self.new ≡ self.old) }
    {
        let kept_nodes = self.len();
        let kept_foralls = self.foralls();
        match self.enter_some(formula, nodes, terms) {
            Ok(number) => return Ok(number),
            Err(fault) => {
                self.cut(kept_nodes, kept_foralls);
                return Err(fault);
            }
        }
    }

    /// The allocator that the table was made with.
    fn allocator(&self) -> Global {
        *self.nodes.allocator()
    }

    /// The number of the node, which is put last where it is new.
    pub(crate) fn put_node(&mut self, node: Node) -> Result<u32, EnterFault>
        requires { FitsTable self.old node }
        ensures ok { IfOk result (λ n. with_entered node self.old ≡ Some (n, self.new)) }
        ensures fault { IfErr result (RefusesEntered node self.old) }
        ensures err { OnErr result (self.new ≡ self.old) }
    {
        let alloc = *self.nodes.allocator();
        let key = node.key(alloc)?;
        let put = put(&mut self.nodes, self.limit, key, node)?;
        match put {
            Some(n) => return Ok(n),
            None => return Err(EnterFault::NodesFull),
        }
    }

    /// Puts a forall last.
    pub(crate) fn push_forall(&mut self, forall: TableForall) -> Result<u32, Memory>
        requires { IsForallOf (length self.old.foralls) forall }
        ensures number { IfOk result (λ n. n ≡ length self.old.foralls) }
        ensures ok { OnOk result (self.new ≡ with_foralls (forall ∷ []) self.old) }
        ensures err { OnErr result (self.new ≡ self.old) }
    {
        let n = self.foralls.len();
        if n >= u32::MAX as usize {
            return Err(Memory);
        }
        push_last(&mut self.foralls, forall)?;
        Ok(n as u32)
    }
}

/// Puts a forall last.
fn push_last(foralls: &mut Vec<TableForall>, new: TableForall) -> Result<(), Memory>
    ensures ok { OnOk result (foralls.new.items ≡ foralls.old.items ++ new ∷ []) }
    ensures err { OnErr result (foralls.new.items ≡ foralls.old.items) }
{
    foralls.push(new)?;
    Ok(())
}
