//! Values of nodes, kept under changes, with levels.
ghost use Rattle.std.specs.Prelude.{◌≡◌, ℕ, ◌+◌, ◌^◌, ◌<◌, ◌≤◌, length, All, IfOk, IfSome, IfNone, MatchOption, OnOk, OnErr, [], ◌∷◌, ◌++◌};
ghost use Rattle.formula_truth.specs.declared.truth.Truth.TheVariants.{Unset};
ghost use Rattle.search_board.specs.declared.kind.Kind.TheVariants.{Leaf};
ghost use Rattle.search_values.specs.Given.{HasValue, HasPlace, HasYesPart, kind_of, parts_of, part_of, IsAssertedOr, IsFirstUnit, IsUnit, IsOpen, IsSplit, IsStuck};
ghost use Rattle.search_values.specs.Changes.{SetsLeaf, Asserts, Strikes, EntersNode};
ghost use Rattle.search_values.specs.Kept.{given_of, no_values, pushed, popped, IsStacked};

use crate::left::first_left;
use crate::noted::Noted;
use crate::up::Up;
use crate::wiring::Wiring;
use formula_truth::Truth;
use formula_truth::laws::joining_law;
use graph_trail::Trail;
use search_board::{Board, Kind};
use search_list::ShortList;
use std::alloc::{AllocError, Global};
use std::marker::Model;

/// Values of nodes by number, kept under changes, with levels.
///
/// A node is a leaf, whose value is told, or a conjunction or disjunction of earlier nodes.
#[derive(Drop)]
pub struct NodeValues {
    alloc: Global,
    wiring: Wiring,
    noted: Noted,
    levels: Vec<u64>,
}

impl Model for NodeValues {
    ghost use Rattle.search_values.specs.Kept.{Kept};

    ghost Value = { Kept };

    ghost use Rattle.search_values.specs.KeptInside.{kept_of, IsKept};

    ghost view = { kept_of };

    ghost invariant = { IsKept };
}

impl NodeValues {
    /// No nodes, with room at first for 2 to the power of the height of them. A refusal is want of memory.
    pub fn new(alloc: Global, height: u32) -> Result<NodeValues, AllocError>
        requires { height < 32 }
        ensures { IfOk result (λ values. values ≡ no_values) }
    {
        let board = Board::new(alloc, height)?;
        Ok(NodeValues {
            alloc,
            wiring: Wiring::new(alloc),
            noted: Noted {
                board,
                trail: Trail::new(alloc),
            },
            levels: Vec::new(alloc),
        })
    }

    /// One node more, over earlier parts, which is not asserted; it goes when a level that is open now ends. A refusal is
    /// want of memory, and all is as before then.
    pub fn enter(&mut self, kind: Kind, parts: ShortList<u32>) -> Result<(), AllocError>
        requires earlier { All (λ part. part < length self.old.shown.kinds) parts }
        requires few { length self.old.shown.kinds + 1 < 2 ^ 32 }
        ensures enters { OnOk result (EntersNode kind parts (given_of self.old) (given_of self.new)) }
        ensures err { OnErr result (self.new ≡ self.old) }
        ensures saved { self.new.saved ≡ self.old.saved }
    {
        let mark = self.noted.trail.mark();
        match self
            .noted
            .try_node(self.alloc, &mut self.wiring, kind, parts)
        {
            Ok(()) => Ok(()),
            Err(fault) => {
                self.noted.back_to(mark);
                Err(fault)
            }
        }
    }

    /// How many nodes there are.
    pub fn len(&self) -> u32
        ensures len { result ≡ length self.now.shown.kinds }
        ensures stacked { IsStacked self.now }
    {
        let _wiring = &self.wiring;
        let _levels = &self.levels;
        self.noted.board.len()
    }

    /// How many levels are open.
    pub fn depth(&self) -> usize
        ensures { result ≡ length self.now.saved }
    {
        self.levels.len()
    }

    /// The kind of a node.
    pub fn kind(&self, n: u32) -> Kind
        requires { n < length self.now.shown.kinds }
        ensures { result ≡ kind_of (given_of self.now) n }
    {
        self.noted.board.kind(n)
    }

    /// How many parts a node has.
    pub fn parts(&self, n: u32) -> u32
        requires { n < length self.now.shown.kinds }
        ensures { result ≡ length (parts_of (given_of self.now) n) }
    {
        self.wiring.parts(n)
    }

    /// The value of a node.
    pub fn value(&self, n: u32) -> Truth
        requires { n < length self.now.shown.kinds }
        ensures { HasValue (given_of self.now) n result }
    {
        joining_law();
        self.noted.board.truth(n)
    }

    /// The first unit and its place left over, or `None` where there is no unit: an asserted disjunction without a Yes
    /// part, of whose parts one is neither No nor struck, and that one is not asserted.
    pub fn first_unit(&self) -> Option<Up>
        ensures some { IfSome result (λ at. IsFirstUnit (given_of self.now) at.node at.place) }
        ensures none { IfNone result ((n i : ℕ) → IsUnit (given_of self.now) n i → ⊥) }
    {
        joining_law();
        match self.noted.board.first_unit() {
            Some(node) => {
                let place = first_left(&self.noted.board, node);
                Some(Up { node, place })
            }
            None => None,
        }
    }

    /// The first asserted disjunction of whose parts each is No or struck, or `None` where there is none.
    pub fn first_stuck(&self) -> Option<u32>
        ensures some { IfSome result (λ n. IsStuck (given_of self.now) n) }
        ensures none { IfNone result ((n : ℕ) → IsStuck (given_of self.now) n → ⊥) }
    {
        joining_law();
        match self.noted.board.first_stuck() {
            Some(node) => Some(node),
            None => None,
        }
    }

    /// The first asserted disjunction without a Yes part, and its first place that is neither No nor struck, or `None`
    /// where there is no such disjunction: each that is asserted has a Yes part. None may be stuck.
    pub fn first_open(&self) -> Option<Up>
        requires { (n : ℕ) → IsStuck (given_of self.now) n → ⊥ }
        ensures some { IfSome result (λ at. IsSplit (given_of self.now) at.node at.place) }
        ensures none { IfNone result ((n : ℕ) → IsOpen (given_of self.now) n → ⊥) }
        ensures settled { IfNone result ((n : ℕ) → IsAssertedOr (given_of self.now) n → HasYesPart (given_of self.now) n) }
    {
        joining_law();
        match self.noted.board.first_open() {
            Some(node) => {
                let place = first_left(&self.noted.board, node);
                Some(Up { node, place })
            }
            None => None,
        }
    }

    /// The number of the part at a place of a node, places counted from 0.
    pub fn part(&self, n: u32, i: u32) -> u32
        requires { HasPlace (given_of self.now) n i }
        ensures { result ≡ part_of (given_of self.now) n i }
    {
        self.wiring.part(n, i)
    }

    /// Gives a leaf a value, with all that follows. A refusal is want of memory, and all is as before then.
    pub fn set_leaf(&mut self, n: u32, truth: Truth) -> Result<(), AllocError>
        requires stands { n < length self.old.shown.kinds }
        requires leaf { kind_of (given_of self.old) n ≡ Leaf }
        requires unset { HasValue (given_of self.old) n Unset }
        ensures ok { OnOk result (SetsLeaf n truth (given_of self.old) (given_of self.new)) }
        ensures err { OnErr result (self.new ≡ self.old) }
        ensures saved { self.new.saved ≡ self.old.saved }
    {
        let mark = self.noted.trail.mark();
        match self.noted.try_leaf(self.alloc, &self.wiring, n, truth) {
            Ok(()) => Ok(()),
            Err(fault) => {
                self.noted.back_to(mark);
                Err(fault)
            }
        }
    }

    /// Asserts a node, by itself, with all that follows. A refusal is want of memory, and all is as before then.
    pub fn assert(&mut self, n: u32) -> Result<(), AllocError>
        requires stands { n < length self.old.shown.kinds }
        ensures ok { OnOk result (Asserts n (given_of self.old) (given_of self.new)) }
        ensures err { OnErr result (self.new ≡ self.old) }
        ensures saved { self.new.saved ≡ self.old.saved }
    {
        let mark = self.noted.trail.mark();
        match self.noted.try_assert(self.alloc, &self.wiring, n) {
            Ok(()) => Ok(()),
            Err(fault) => {
                self.noted.back_to(mark);
                Err(fault)
            }
        }
    }

    /// Strikes a place: its part is not left over any more. A refusal is want of memory, and all is as before then.
    pub fn strike(&mut self, n: u32, i: u32) -> Result<(), AllocError>
        requires { HasPlace (given_of self.old) n i }
        ensures ok { OnOk result (Strikes n i (given_of self.old) (given_of self.new)) }
        ensures err { OnErr result (self.new ≡ self.old) }
        ensures saved { self.new.saved ≡ self.old.saved }
    {
        let mark = self.noted.trail.mark();
        match self.noted.try_strike(&self.wiring, n, i) {
            Ok(()) => Ok(()),
            Err(fault) => {
                self.noted.back_to(mark);
                Err(fault)
            }
        }
    }

    /// Opens a level. A refusal is want of memory, and all is as before then.
    pub fn push(&mut self) -> Result<(), AllocError>
        ensures ok { OnOk result (self.new ≡ pushed self.old) }
        ensures err { OnErr result (self.new ≡ self.old) }
    {
        let mark = self.noted.trail.mark();
        self.levels.push(mark)?;
        Ok(())
    }

    /// Ends the innermost level, if one is open: the nodes that were entered in it go, and the others stand as they did when
    /// it was opened. It takes no memory.
    pub fn pop(&mut self)
        ensures { self.new ≡ popped self.old }
    {
        if let Some(mark) = self.levels.pop() {
            self.noted.back_to(mark);
            self.wiring.cut(self.noted.board.len());
        }
    }
}
