//! The graph with a trail: each operation by a call of its own, and the way back.
ghost use Rattle.std.specs.Prelude.{◌≡◌, ◌≤◌, ◌<◌, ◌+◌, ◌-◌, ◌^◌, ◌↔◌, ◌≢◌, [], ◌∷◌, length, take, slice_get, All, IsOk, IfOk, IfSome, IfNone, OnOk, OnErr, IsTrue};
ghost use Rattle.std.specs.List.{before_last};
ghost use Rattle.std.specs.Option.{option_copied};
ghost use Rattle.graph_meaning.specs.declared.op.Op.{Op as SpecOp};
ghost use Rattle.graph_meaning.specs.declared.op.Op.TheVariants.{Add as AddOp, Merge as MergeOp, Differ as DifferOp, Live as LiveOp, Push as PushOp, Pop as PopOp};
ghost use Rattle.graph_meaning.specs.Lawful.{Allows, AllowsRow, AreBelow};
ghost use Rattle.graph_meaning.specs.Standing.{is_push, terms_of, levels_of, differs_of, differs_added, triggers_added};
ghost use Rattle.graph_meaning.specs.State.{GraphState, first_state, state_after, table_of, IsFullFor};
ghost use Rattle.graph_terms.specs.Terms.{most_args, term_row, IsFull};
ghost use Rattle.graph_trigger.specs.Trigger.{IsValid};
ghost use Rattle.graph_meaning.specs.Unions.{ListsUnions};
ghost use Rattle.graph_congruence.specs.Operations.{Adds, CanTakeBack, taken_back};
ghost use Rattle.graph_congruence.specs.Clash.{IsClash};
ghost use Rattle.graph_congruence.specs.Last.{DropsLast, IsLastShare};

use crate::clash::Clash;
use crate::share::{Share, share_of};
use graph_classes::{Added, Classes, Place, Unions};
use graph_meaning::{ClassGraph, Done, Front, Op};
use graph_terms::{MOST_ARGS, Memory, Numbers, TableFault, TermRow, are_below};
use graph_trigger::Trigger;
use std::alloc::Global;
use std::marker::Model;

/// Terms in classes, closed under congruence, with a way back to any operation that stands.
#[derive(Drop)]
pub struct Graph {
    alloc: Global,
    classes: Classes,
    /// For each operation that stands, the mark at which it began.
    starts: Vec<u64>,
    /// The live triggers, by number.
    live: Vec<Trigger>,
    /// The pairs that are kept apart: true and false, and then the ends of each disequation.
    apart: Vec<(u32, u32)>,
    /// How many levels are open.
    levels: u32,
    /// How many operations were done.
    done: u64,
}

impl Model for Graph {
    ghost use Rattle.graph_meaning.specs.State.{GraphState};

    ghost Value = { GraphState };

    ghost use Rattle.graph_congruence.specs.GraphInside.{shown_graph, IsGraph};

    ghost view = { shown_graph };

    ghost invariant = { IsGraph };
}

/// The pair of true and false.
fn first_apart(alloc: Global) -> Result<Vec<(u32, u32)>, Memory>
    ensures { IfOk result (λ apart. apart.items ≡ (0, 1) ∷ []) }
{
    let mut apart = Vec::new(alloc);
    apart.push((0, 1))?;
    Ok(apart)
}

impl Graph {
    /// A graph of true and false alone, which may have `limit` terms, those two included. `Memory` comes where memory is
    /// refused.
    pub fn new(alloc: Global, limit: u32) -> Result<Graph, Memory>
        requires { 2 ≤ limit }
        ensures { IfOk result (λ graph. graph ≡ first_state limit) }
    {
        let classes = Classes::new(alloc, limit)?;
        let apart = first_apart(alloc)?;
        Ok(Graph {
            alloc,
            classes,
            starts: Vec::new(alloc),
            live: Vec::new(alloc),
            apart,
            levels: 0,
            done: 0,
        })
    }

    /// How many terms it may have. Takes no memory.
    pub fn limit(&self) -> u32
        ensures value { result ≡ self.now.limit }
        ensures within { length (terms_of self.now.standing) ≤ self.now.limit }
    {
        // What a graph keeps true of its fields is known once a field is read.
        let classes = &self.classes;
        classes.parts.rows.limit()
    }

    /// How many levels are open. Takes no memory.
    pub fn depth(&self) -> u32
        ensures { result ≡ levels_of self.now.standing }
    {
        self.levels
    }

    /// Whether a number is free for one operation more, besides those for the Pops of the open levels.
    fn has_number(&self) -> bool
        ensures { IsTrue result → self.now.done + levels_of self.now.standing + 1 < 2 ^ 64 }
    {
        let levels = self.levels as u64;
        self.done < u64::MAX - levels
    }

    /// Whether one level more may be open, with numbers free for its Push and its Pop.
    fn has_level(&self) -> bool
        ensures numbers { IsTrue result → self.now.done + levels_of self.now.standing + 2 < 2 ^ 64 }
        ensures levels { IsTrue result → levels_of self.now.standing + 1 < 2 ^ 32 }
    {
        let levels = self.levels as u64;
        levels < 4_294_967_295 && self.done < u64::MAX - 1 - levels
    }

    /// Enters a row that is new, with all that follows. After a fault the graph is as before.
    fn add_new(&mut self, symbol: u32, args: &[u32]) -> Result<Added, TableFault>
        requires { Allows self.old.standing (AddOp symbol args.now) }
        ensures term { IfOk result (λ added. added.term ≡ length (terms_of self.old.standing)) }
        ensures fresh { IfOk result (λ added. IsTrue added.fresh) }
        ensures ok { OnOk result (self.new ≡ state_after self.old (AddOp symbol args.now)) }
        ensures unions { IfOk result (λ added. ListsUnions self.old.standing self.new.standing added.unions) }
        ensures full { result ≡ Err TableFault.Full → length (terms_of self.old.standing) ≡ self.old.limit }
        ensures err { OnErr result (self.new ≡ self.old) }
    {
        if !self.has_number() {
            return Err(TableFault::Memory);
        }
        self.starts.reserve(1)?;
        let start = self.classes.trail.mark();
        let added = self.classes.add(self.alloc, self.done, symbol, args)?;
        self.starts.push_reserved(start);
        self.done += 1;
        Ok(added)
    }

    /// The term of a row, which is entered with all that follows where it is new.
    fn enter(&mut self, symbol: u32, args: &[u32]) -> Result<Added, TableFault>
        requires terms { All (λ arg. arg < length (terms_of self.old.standing)) args.now }
        requires few { length args.now ≤ most_args }
        ensures added { IfOk result (λ added. Adds self.old self.new (term_row symbol args.now) added.term added.unions added.fresh) }
        ensures full { result ≡ Err TableFault.Full → IsFull (table_of self.old) (term_row symbol args.now) }
        ensures err { OnErr result (self.new ≡ self.old) }
    {
        match self.find(symbol, args) {
            Some(term) => Ok(Added {
                term,
                fresh: false,
                unions: Unions::new(self.alloc),
            }),
            None => self.add_new(symbol, args),
        }
    }

    /// The term of a row, which is entered with all that follows where it is new. `Full` comes where it is new and as many
    /// terms stand as may. After a fault the graph is as before.
    pub fn add(&mut self, symbol: u32, args: &[u32]) -> Result<Added, TableFault>
        requires terms { All (λ arg. arg < length (terms_of self.old.standing)) args.now }
        requires few { length args.now ≤ most_args }
        ensures added { IfOk result (λ added. Adds self.old self.new (term_row symbol args.now) added.term added.unions added.fresh) }
        ensures within { length (terms_of self.new.standing) ≤ self.new.limit }
        ensures full { result ≡ Err TableFault.Full → IsFull (table_of self.old) (term_row symbol args.now) }
        ensures err { OnErr result (self.new ≡ self.old) }
    {
        let added = self.enter(symbol, args);
        let _limit = self.limit();
        added
    }

    /// Merges two terms, with all that follows, and lists the unions. Without memory the graph is as before.
    pub fn merge(&mut self, left: u32, right: u32) -> Result<Unions, Memory>
        requires left { left < length (terms_of self.old.standing) }
        requires right { right < length (terms_of self.old.standing) }
        ensures ok { OnOk result (self.new ≡ state_after self.old (MergeOp left right)) }
        ensures unions { IfOk result (λ unions. ListsUnions self.old.standing self.new.standing unions) }
        ensures err { OnErr result (self.new ≡ self.old) }
    {
        if !self.has_number() {
            return Err(Memory);
        }
        self.starts.reserve(1)?;
        let start = self.classes.trail.mark();
        let unions = self.classes.merge(self.alloc, self.done, left, right)?;
        self.starts.push_reserved(start);
        self.done += 1;
        Ok(unions)
    }

    /// Keeps two terms apart. Without memory the graph is as before.
    pub fn differ(&mut self, left: u32, right: u32) -> Result<(), Memory>
        requires left { left < length (terms_of self.old.standing) }
        requires right { right < length (terms_of self.old.standing) }
        ensures ok { OnOk result (self.new ≡ state_after self.old (DifferOp left right)) }
        ensures err { OnErr result (self.new ≡ self.old) }
    {
        if !self.has_number() {
            return Err(Memory);
        }
        self.starts.reserve(1)?;
        self.apart.reserve(1)?;
        let start = self.classes.trail.mark();
        self.classes.log_op(self.done, Op::Differ { left, right })?;
        self.starts.push_reserved(start);
        self.apart.push_reserved((left, right));
        self.done += 1;
        Ok(())
    }

    /// Makes a trigger live. Without memory the graph is as before.
    pub fn live(&mut self, trigger: &Trigger) -> Result<(), Memory>
        requires { IsValid trigger.now }
        ensures ok { OnOk result (self.new ≡ state_after self.old (LiveOp trigger.now)) }
        ensures err { OnErr result (self.new ≡ self.old) }
    {
        if !self.has_number() {
            return Err(Memory);
        }
        let kept = trigger.copy(self.alloc)?;
        let trigger = trigger.copy(self.alloc)?;
        self.starts.reserve(1)?;
        self.live.reserve(1)?;
        let start = self.classes.trail.mark();
        self.classes.log_op(self.done, Op::Live { trigger })?;
        self.starts.push_reserved(start);
        self.live.push_reserved(kept);
        self.done += 1;
        Ok(())
    }

    /// Opens a level. Without memory the graph is as before.
    pub fn push(&mut self) -> Result<(), Memory>
        ensures ok { OnOk result (self.new ≡ state_after self.old PushOp) }
        ensures err { OnErr result (self.new ≡ self.old) }
    {
        if !self.has_level() {
            return Err(Memory);
        }
        self.starts.reserve(1)?;
        let start = self.classes.trail.mark();
        self.classes.log_op(self.done, Op::Push)?;
        self.starts.push_reserved(start);
        self.levels += 1;
        self.done += 1;
        Ok(())
    }

    /// The last operation that stands.
    fn last(&self) -> Option<&Done>
        ensures { option_copied result ≡ slice_get self.now.standing (length self.now.standing - 1) }
    {
        let count = self.starts.len();
        if count == 0 {
            return None;
        }
        let classes = &self.classes;
        classes.parts.log.get(count - 1)
    }

    /// What the last operation that stands added.
    fn last_share(&self) -> Share
        requires { 0 < length self.now.standing }
        ensures { IsLastShare self.now.standing result }
    {
        match self.last() {
            Some(done) => share_of(done),
            None => unreachable!(),
        }
    }

    /// Takes the last operation that stands off, and tells whether it opened a level.
    fn drop_last(&mut self) -> bool
        requires { 0 < length self.old.standing }
        ensures { DropsLast self.old self.new result }
    {
        let share = self.last_share();
        let count = self.starts.len() - 1;
        let start = self.starts[count];
        self.classes.back_to(start);
        self.starts.truncate(count);
        self.live.truncate(self.live.len() - share.triggers);
        self.apart.truncate(self.apart.len() - share.differs);
        self.levels -= share.levels;
        share.opens
    }

    /// Takes the last Push that stands and all after it off.
    fn drop_level(&mut self)
        requires { 0 < levels_of self.old.standing }
        ensures gives { self.new ≡ record self.old { standing = before_last is_push self.old.standing } }
        ensures level { levels_of self.new.standing + 1 ≡ levels_of self.old.standing }
    {
        let mut opened = false;
        while !opened {
            opened = self.drop_last();
        }
    }

    /// Ends the last level that is open, with all that came in it. Always succeeds, and takes no memory.
    pub fn pop(&mut self)
        requires { 0 < levels_of self.old.standing }
        ensures { self.new ≡ state_after self.old PopOp }
    {
        let done = self.done;
        self.drop_level();
        self.done = done + 1;
    }

    /// Whether the operation that was done last stands and opened no level: whether it can be taken back. Takes no memory.
    pub fn can_take_back(&self) -> bool
        ensures { IsTrue result ↔ CanTakeBack self.now }
    {
        match self.last() {
            Some(done) => !done.is_push() && self.done > 0 && done.serial == self.done - 1,
            None => false,
        }
    }

    /// Takes the operation that was done last back: it counts as not done. Always succeeds, and takes no memory.
    pub fn take_back(&mut self)
        requires { CanTakeBack self.old }
        ensures gives { self.new ≡ taken_back self.old }
        ensures before { (before : GraphState) (op : SpecOp) → op ≢ PopOp → self.old ≡ state_after before op → self.new ≡ before }
    {
        let done = self.done;
        self.drop_last();
        self.done = done - 1;
    }

    /// Two terms that are kept apart and are equal: true and false, or the ends of the first such disequation. Takes no
    /// memory.
    pub fn clash(&self) -> Option<Clash>
        ensures { IsClash self.now.standing result }
    {
        for i in 0..self.apart.len() {
            let (left, right) = self.apart[i];
            if self.same(left, right) {
                return Some(Clash { left, right });
            }
        }
        None
    }

    /// The ends of each disequation that stands, in order. Takes no memory.
    pub fn differences(&self) -> &[(u32, u32)]
        ensures { result.now ≡ differs_of self.now.standing }
    {
        &self.apart[1..]
    }

    /// Whether the row is new, and its few arguments are terms.
    fn is_new_row(&self, symbol: u32, args: &Numbers) -> bool
        ensures { IsTrue result ↔ AllowsRow (terms_of self.now.standing) symbol args.now }
    {
        args.len() <= MOST_ARGS
            && are_below(args.as_slice(), self.len())
            && self.find(symbol, args.as_slice()).is_none()
    }

    /// Whether both terms stand.
    fn are_terms(&self, left: u32, right: u32) -> bool
        ensures { IsTrue result ↔ AreBelow (length (terms_of self.now.standing)) left right }
    {
        let terms = self.len();
        left < terms && right < terms
    }

    /// Whether a level is open.
    fn is_open(&self) -> bool
        ensures { IsTrue result ↔ (0 < levels_of self.now.standing) }
    {
        self.levels > 0
    }

    /// Whether the operation may be done next: the terms that it names stand, its row is new, its trigger is valid, and
    /// a Pop has its Push. Takes no memory.
    pub fn lawful(&self, op: &Op) -> bool
        ensures { IsTrue result ↔ Allows self.now.standing op.now }
    {
        match op {
            Op::Add { symbol, args } => self.is_new_row(*symbol, args),
            Op::Merge { left, right } => self.are_terms(*left, *right),
            Op::Differ { left, right } => self.are_terms(*left, *right),
            Op::Live { trigger } => trigger.valid(),
            Op::Push => true,
            Op::Pop => self.is_open(),
        }
    }

    /// Does the operation.
    fn try_op(&mut self, op: &Op) -> Result<(), TableFault>
        requires { Allows self.old.standing op.now }
        ensures ok { OnOk result (self.new ≡ state_after self.old op.now) }
        ensures full { result ≡ Err TableFault.Full → IsFullFor (table_of self.old) op.now }
        ensures pop { op.now ≡ PopOp → IsOk result }
        ensures err { OnErr result (self.new ≡ self.old) }
    {
        match op {
            Op::Add { symbol, args } => {
                let _added = self.add_new(*symbol, args.as_slice())?;
            }
            Op::Merge { left, right } => {
                let _unions = self.merge(*left, *right)?;
            }
            Op::Differ { left, right } => self.differ(*left, *right)?,
            Op::Live { trigger } => self.live(trigger)?,
            Op::Push => self.push()?,
            Op::Pop => self.pop(),
        }
        Ok(())
    }

    /// Does the operation. `Full` comes where it adds a term and as many stand as may. After a fault the graph is as
    /// before. A Pop always succeeds.
    pub fn apply(&mut self, op: &Op) -> Result<(), TableFault>
        requires { Allows self.old.standing op.now }
        ensures ok { OnOk result (self.new ≡ state_after self.old op.now) }
        ensures within { length (terms_of self.new.standing) ≤ self.new.limit }
        ensures full { result ≡ Err TableFault.Full → IsFullFor (table_of self.old) op.now }
        ensures pop { op.now ≡ PopOp → IsOk result }
        ensures err { OnErr result (self.new ≡ self.old) }
    {
        let done = self.try_op(op);
        let _limit = self.limit();
        done
    }
}

impl ClassGraph for Graph {
    ghost standing = { λ graph. graph.standing };

    ghost done = { λ graph. graph.done };

    fn len(&self) -> u32 {
        let classes = &self.classes;
        classes.parts.rows.len()
    }

    fn row(&self, term: u32) -> &TermRow {
        let classes = &self.classes;
        classes.parts.rows.row(term)
    }

    fn find(&self, symbol: u32, args: &[u32]) -> Option<u32> {
        let classes = &self.classes;
        classes.parts.rows.find(symbol, args)
    }

    fn leader(&self, term: u32) -> u32 {
        let parts = &self.classes.parts;
        let label = parts.labels[term as usize];
        parts.leaders[label as usize]
    }

    fn same(&self, left: u32, right: u32) -> bool {
        let labels = &self.classes.parts.labels;
        labels[left as usize] == labels[right as usize]
    }

    fn in_class(&self, term: u32, symbol: u32, k: u32) -> Option<u32> {
        let parts = &self.classes.parts;
        let label = parts.labels[term as usize];
        parts.lists.get(Place::Member { label, symbol }, k)
    }

    fn with_symbol(&self, symbol: u32, k: u32) -> Option<u32> {
        let parts = &self.classes.parts;
        parts.lists.get(Place::Symbol { symbol }, k)
    }

    fn parent(&self, term: u32, symbol: u32, place: u32, k: u32) -> Option<u32> {
        let parts = &self.classes.parts;
        let label = parts.labels[term as usize];
        let argument = place;
        let place = Place::Parent {
            label,
            symbol,
            argument,
        };
        parts.lists.get(place, k)
    }

    fn triggers(&self) -> u32 {
        let classes = &self.classes;
        let _standing = classes.parts.log.len();
        self.live.len() as u32
    }

    fn trigger(&self, n: u32) -> &Trigger {
        &self.live[n as usize]
    }

    fn version(&self) -> u64 {
        self.done
    }

    fn front(&self) -> Front {
        let last = match self.last() {
            Some(done) => done.serial,
            None => 0,
        };
        Front {
            length: self.starts.len() as u64,
            last,
        }
    }

    fn still_front(&self, front: &Front) -> bool {
        if front.length == 0 {
            return true;
        }
        let classes = &self.classes;
        match classes.parts.log.get((front.length - 1) as usize) {
            Some(done) => done.serial == front.last,
            None => false,
        }
    }
}
