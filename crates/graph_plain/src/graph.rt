//! The slow graph: it looks at all pairs of terms until nothing changes.
ghost use Rattle.std.specs.Prelude.{◌≡◌, ◌≢◌, ◌+◌, ◌<◌, ◌≤◌, ◌↔◌, ◌++◌, length, All, IsOk, IsTrue, IfOk, OnOk, OnErr};
ghost use Rattle.std.specs.List.{before_last};
ghost use Rattle.graph_meaning.specs.Standing.{is_push, levels_of, rows_added, terms_of};
ghost use Rattle.graph_meaning.specs.Questions.{HasSymbol, IsNth, IsParent};
ghost use Rattle.graph_meaning.specs.State.{first_state, IsFullFor, state_after, table_of};
ghost use Rattle.graph_meaning.specs.Lawful.{Allows, AllowsRow, AreBelow};
ghost use Rattle.graph_plain.specs.Labels.{labels_added};
ghost use Rattle.graph_plain.specs.Operations.{AllowsOpRow, levels_opened};
ghost use Rattle.graph_plain.specs.Picks.{IsAskable, IsPicked};

use crate::labels::{close, reset};
use crate::pick::Pick;
use graph_meaning::{ClassGraph, Done, Front, Op};
use graph_terms::{MOST_ARGS, Memory, Numbers, TableFault, TermRow, TermTable, are_below};
use graph_trigger::Trigger;
use std::alloc::Global;
use std::marker::Model;

/// A graph that joins what has to be joined one pair after another, looking at all pairs of terms, until nothing changes.
#[derive(Drop)]
pub struct PlainGraph {
    table: TermTable,
    standing: Vec<Done>,
    labels: Vec<u32>,
    levels: u64,
    done: u64,
}

impl Model for PlainGraph {
    ghost use Rattle.graph_meaning.specs.State.{GraphState};

    ghost Value = { GraphState };

    ghost use Rattle.graph_plain.specs.PlainInside.{state_of, IsSoundGraph};

    ghost view = { state_of };

    ghost invariant = { IsSoundGraph };
}

/// Enters the row that the operation adds, as a class of its own.
fn enter(table: &mut TermTable, labels: &mut Vec<u32>, op: &Op) -> Result<(), TableFault>
    requires { AllowsOpRow table.old.rows op.now }
    ensures rows { OnOk result (table.new.rows ≡ table.old.rows ++ rows_added op.now) }
    ensures limit { table.new.limit ≡ table.old.limit }
    ensures labels { OnOk result (labels.new.items ≡ labels.old.items ++ labels_added (length table.old.rows) op.now) }
    ensures full { result ≡ Err TableFault.Full → IsFullFor table.old op.now }
    ensures err { OnErr result (table.new ≡ table.old) }
    ensures labels_err { OnErr result (labels.new.items ≡ labels.old.items) }
{
    match op {
        Op::Add { symbol, args } => {
            labels.reserve(1)?;
            let term = table.add(*symbol, args.as_slice())?;
            labels.push_reserved(term);
            Ok(())
        }
        _ => Ok(()),
    }
}

/// How many terms the operation adds, and whether it opens a level.
fn take_apart(done: Done) -> (u32, bool)
    ensures terms { result.0 ≡ length (rows_added done.op) }
    ensures opens { result.1 ≡ is_push done }
{
    (done.terms_added(), done.is_push())
}

/// Takes away the last Push and what came after it, and tells how many terms are left.
fn pop_level(standing: &mut Vec<Done>, mut terms: u32) -> u32
    requires terms { terms ≡ length (terms_of standing.old.items) }
    requires level { 0 < levels_of standing.old.items }
    ensures standing { standing.new.items ≡ before_last is_push standing.old.items }
    ensures level { levels_of standing.new.items + 1 ≡ levels_of standing.old.items }
    ensures terms { result ≡ length (terms_of standing.new.items) }
{
    while let Some(done) = standing.pop() {
        let (added, opens) = take_apart(done);
        terms -= added;
        if opens {
            break;
        }
    }
    terms
}

/// How many levels the operation opens.
fn levels_added(op: &Op) -> u64
    ensures { result ≡ levels_opened op.now }
{
    match op {
        Op::Push => 1,
        _ => 0,
    }
}

impl PlainGraph {
    /// A graph of true and false alone, which may have `limit` terms, those two included. `Memory` comes where memory is
    /// refused.
    pub fn new(alloc: Global, limit: u32) -> Result<PlainGraph, Memory>
        requires { 2 ≤ limit }
        ensures { IfOk result (λ graph. graph ≡ first_state limit) }
    {
        let table = TermTable::new(alloc, limit)?;
        let mut labels = Vec::new(alloc);
        labels.push(0)?;
        labels.push(1)?;
        close(&table, &[], labels.as_mut_slice());
        Ok(PlainGraph {
            table,
            standing: Vec::new(alloc),
            labels,
            levels: 0,
            done: 0,
        })
    }

    /// How many terms it may have.
    pub fn limit(&self) -> u32
        ensures value { result ≡ self.now.limit }
        ensures within { length (terms_of self.now.standing) ≤ self.now.limit }
    {
        let _terms = self.table.len();
        self.table.limit()
    }

    /// Whether the row is new, and its few arguments are terms.
    fn is_new_row(&self, symbol: u32, args: &Numbers) -> bool
        ensures { IsTrue result ↔ AllowsRow (terms_of self.now.standing) symbol args.now }
    {
        args.len() <= MOST_ARGS
            && are_below(args.as_slice(), self.len())
            && self.find(symbol, args.as_slice()).is_none()
    }

    /// Whether both terms stand.
    fn are_terms(&self, left: u32, right: u32) -> bool
        ensures { IsTrue result ↔ AreBelow (length (terms_of self.now.standing)) left right }
    {
        let terms = self.len();
        left < terms && right < terms
    }

    /// Whether the operation may be done next: the terms that it names stand, its row is new, its trigger is valid, and
    /// a Pop has its Push.
    pub fn lawful(&self, op: &Op) -> bool
        ensures { IsTrue result ↔ Allows self.now.standing op.now }
    {
        match op {
            Op::Add { symbol, args } => self.is_new_row(*symbol, args),
            Op::Merge { left, right } => self.are_terms(*left, *right),
            Op::Differ { left, right } => self.are_terms(*left, *right),
            Op::Live { trigger } => trigger.valid(),
            Op::Push => true,
            Op::Pop => self.has_level(),
        }
    }

    /// Whether a level is open.
    fn has_level(&self) -> bool
        ensures { IsTrue result ↔ (0 < levels_of self.now.standing) }
    {
        self.levels > 0
    }

    /// Does the operation. `Full` comes where it adds a term and as many stand as may. A Pop always succeeds.
    pub fn apply(&mut self, op: Op) -> Result<(), TableFault>
        requires { Allows self.old.standing op }
        ensures ok { OnOk result (self.new ≡ state_after self.old op) }
        ensures within { length (terms_of self.new.standing) ≤ self.new.limit }
        ensures full { result ≡ Err TableFault.Full → IsFullFor (table_of self.old) op }
        ensures pop { op ≡ Op.Pop → IsOk result }
        ensures err { OnErr result (self.new ≡ self.old) }
    {
        let done = match op {
            Op::Pop => {
                self.pop();
                Ok(())
            }
            op => self.grow(op),
        };
        let _limit = self.limit();
        done
    }

    /// Does an operation other than a Pop.
    fn grow(&mut self, op: Op) -> Result<(), TableFault>
        requires allowed { Allows self.old.standing op }
        requires no_pop { op ≢ Op.Pop }
        ensures ok { OnOk result (self.new ≡ state_after self.old op) }
        ensures full { result ≡ Err TableFault.Full → IsFullFor (table_of self.old) op }
        ensures err { OnErr result (self.new ≡ self.old) }
    {
        if self.done + self.levels >= u64::MAX - 1 || self.standing.len() >= u32::MAX as usize {
            return Err(TableFault::Memory);
        }
        self.standing.reserve(1)?;
        enter(&mut self.table, &mut self.labels, &op)?;
        self.levels += levels_added(&op);
        let serial = self.done;
        self.standing.push_reserved(Done { serial, op });
        self.done += 1;
        close(
            &self.table,
            self.standing.as_slice(),
            self.labels.as_mut_slice(),
        );
        Ok(())
    }

    /// Does a Pop: takes away the last Push that stands and what came after it.
    fn pop(&mut self)
        requires { 0 < levels_of self.old.standing }
        ensures { self.new ≡ state_after self.old Op.Pop }
    {
        let terms = pop_level(&mut self.standing, self.table.len());
        self.table.cut(terms);
        self.labels.truncate(terms as usize);
        reset(self.labels.as_mut_slice());
        close(
            &self.table,
            self.standing.as_slice(),
            self.labels.as_mut_slice(),
        );
        self.levels -= 1;
        self.done += 1;
    }

    /// Whether the term has the symbol.
    fn has_symbol(&self, term: u32, symbol: u32) -> bool
        requires { term < length (terms_of self.now.standing) }
        ensures { IsTrue result ↔ HasSymbol self.now.standing symbol term }
    {
        self.row(term).symbol == symbol
    }

    /// Whether the term has the symbol, and an argument at the place in the class.
    fn is_parent(&self, parent: u32, symbol: u32, place: u32, term: u32) -> bool
        requires parent { parent < length (terms_of self.now.standing) }
        requires term { term < length (terms_of self.now.standing) }
        ensures { IsTrue result ↔ IsParent self.now.standing term symbol place parent }
    {
        let _terms = self.len();
        let row = self.row(parent);
        row.symbol == symbol && place < row.args.len() && self.same(row.args.get(place), term)
    }

    /// Whether the term is asked for.
    fn is_picked(&self, pick: Pick, term: u32) -> bool
        requires askable { IsAskable self.now.standing pick }
        requires term { term < length (terms_of self.now.standing) }
        ensures { IsTrue result ↔ IsPicked self.now.standing pick term }
    {
        match pick {
            Pick::Class { term: of, symbol } => {
                self.has_symbol(term, symbol) && self.same(term, of)
            }
            Pick::Symbol { symbol } => self.has_symbol(term, symbol),
            Pick::Parent {
                term: of,
                symbol,
                place,
            } => self.is_parent(term, symbol, place, of),
        }
    }

    /// The k-th term that is asked for.
    fn nth(&self, pick: Pick, k: u32) -> Option<u32>
        requires { IsAskable self.now.standing pick }
        ensures { IsNth (IsPicked self.now.standing pick) k result }
    {
        let mut seen = 0;
        let mut answer = None;
        for term in 0..self.len() {
            if self.is_picked(pick, term) {
                if seen == k {
                    answer = Some(term);
                }
                seen += 1;
            }
        }
        answer
    }
}

impl ClassGraph for PlainGraph {
    ghost standing = { λ graph. graph.standing };

    ghost done = { λ graph. graph.done };

    fn len(&self) -> u32 {
        self.table.len()
    }

    fn row(&self, term: u32) -> &TermRow {
        self.table.row(term)
    }

    fn find(&self, symbol: u32, args: &[u32]) -> Option<u32> {
        self.table.find(symbol, args)
    }

    fn leader(&self, term: u32) -> u32 {
        self.labels[term as usize]
    }

    fn same(&self, left: u32, right: u32) -> bool {
        self.labels[left as usize] == self.labels[right as usize]
    }

    fn in_class(&self, term: u32, symbol: u32, k: u32) -> Option<u32> {
        self.nth(Pick::Class { term, symbol }, k)
    }

    fn with_symbol(&self, symbol: u32, k: u32) -> Option<u32> {
        self.nth(Pick::Symbol { symbol }, k)
    }

    fn parent(&self, term: u32, symbol: u32, place: u32, k: u32) -> Option<u32> {
        self.nth(
            Pick::Parent {
                term,
                symbol,
                place,
            },
            k,
        )
    }

    fn triggers(&self) -> u32 {
        let mut count = 0;
        for done in self.standing.iter() {
            if done.live_trigger().is_some() {
                count += 1;
            }
        }
        count
    }

    fn trigger(&self, n: u32) -> &Trigger {
        let mut left = n;
        for done in self.standing.iter() {
            if let Some(trigger) = done.live_trigger() {
                if left == 0 {
                    return trigger;
                }
                left -= 1;
            }
        }
        unreachable!()
    }

    fn version(&self) -> u64 {
        self.done
    }

    fn front(&self) -> Front {
        let last = match self.standing.last() {
            Some(done) => done.serial,
            None => 0,
        };
        Front {
            length: self.standing.len() as u64,
            last,
        }
    }

    fn still_front(&self, front: &Front) -> bool {
        if front.length == 0 {
            return true;
        }
        match self.standing.get((front.length - 1) as usize) {
            Some(done) => done.serial == front.last,
            None => false,
        }
    }
}
