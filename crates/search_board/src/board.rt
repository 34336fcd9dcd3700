//! Nodes by number with their values, and what their places were told.
ghost use Rattle.std.specs.Prelude.{◌≡◌, ◌<◌, ◌^◌, length, IfOk, MatchOption, OnOk, OnErr, [], ◌∷◌, ◌++◌, take, ◌≤◌, false, slice_get, Some};
ghost use Rattle.search_board.specs.Board.{Shown, with_truth, with_asserted, with_place, with_node, without_node, no_nodes, kind_at, truth_at, asserted_at, places_at, place_at, unit_at, open_at, stuck_at, NonePasses, IsFirstPassing, AreAligned};
ghost use Rattle.search_board.specs.Places.{counts_of};

use crate::counts::{Counts, counts_more, counts_with};
use crate::kind::Kind;
use crate::place::Place;
use crate::sets::Sets;
use crate::tests_of::{is_open, is_stuck, is_unit};
use formula_truth::Truth;
use search_list::ShortList;
use std::alloc::{AllocError, Global};
use std::marker::Model;

/// Nodes by number with their values, and what their places were told.
#[derive(Drop)]
pub struct Board {
    kinds: Vec<Kind>,
    truths: Vec<Truth>,
    asserted: Vec<bool>,
    places: Vec<ShortList<Place>>,
    counts: Vec<Counts>,
    sets: Sets,
}

impl Model for Board {
    ghost use Rattle.search_board.specs.Board.{Shown};

    ghost Value = { Shown };

    ghost use Rattle.search_board.specs.BoardInside.{shown_of, IsSound};

    ghost view = { shown_of };

    ghost invariant = { IsSound };
}

impl Board {
    /// A board without nodes, with room at first for 2 to the power of the height of them. A refusal is want of memory.
    pub fn new(alloc: Global, height: u32) -> Result<Board, AllocError>
        requires { height < 32 }
        ensures { IfOk result (λ board. board ≡ no_nodes) }
    {
        Ok(Board {
            kinds: Vec::new(alloc),
            truths: Vec::new(alloc),
            asserted: Vec::new(alloc),
            places: Vec::new(alloc),
            counts: Vec::new(alloc),
            sets: Sets::new(alloc, height)?,
        })
    }

    /// Enters a node, which isn't asserted; where the room is used up it is doubled first. A refusal is want of memory, or of
    /// room past 2 to the power of 31 nodes, and all is as before then.
    pub fn enter(
        &mut self,
        alloc: Global,
        kind: Kind,
        truth: Truth,
        places: ShortList<Place>,
    ) -> Result<(), AllocError>
        ensures ok { OnOk result (self.new ≡ with_node self.old kind truth places) }
        ensures err { OnErr result (self.new ≡ self.old) }
    {
        let len = self.kinds.len();
        self.sets.make_room(alloc, len)?;
        let counts = count_places(&places);
        let entry = Entry {
            kind,
            truth,
            places,
            counts,
        };
        match push_all(
            &mut self.kinds,
            &mut self.truths,
            &mut self.asserted,
            &mut self.places,
            &mut self.counts,
            entry,
        ) {
            Ok(()) => Ok(()),
            Err(fault) => {
                self.kinds.truncate(len);
                self.truths.truncate(len);
                self.asserted.truncate(len);
                self.places.truncate(len);
                self.counts.truncate(len);
                Err(fault)
            }
        }
    }

    /// Takes the last node away. Takes no memory.
    pub fn drop_last(&mut self)
        requires { 0 < length self.old.kinds }
        ensures { self.new ≡ without_node self.old }
    {
        let n = (self.kinds.len() - 1) as u32;
        self.sets.units.set(n, false);
        self.sets.opens.set(n, false);
        self.sets.stuck.set(n, false);
        let _kind = self.kinds.pop();
        let _truth = self.truths.pop();
        let _asserted = self.asserted.pop();
        let _places = self.places.pop();
        let _counts = self.counts.pop();
    }

    /// How many nodes there are.
    pub fn len(&self) -> u32
        ensures len { result ≡ length self.now.kinds }
        ensures aligned { AreAligned self.now }
    {
        self.kinds.len() as u32
    }

    /// The kind of a node.
    pub fn kind(&self, n: u32) -> Kind
        requires { n < length self.now.kinds }
        ensures { result ≡ kind_at self.now n }
    {
        self.kinds[n as usize]
    }

    /// The value of a node.
    pub fn truth(&self, n: u32) -> Truth
        requires { n < length self.now.kinds }
        ensures { result ≡ truth_at self.now n }
    {
        self.truths[n as usize]
    }

    /// Whether a node is asserted.
    pub fn asserted(&self, n: u32) -> bool
        requires { n < length self.now.kinds }
        ensures { result ≡ asserted_at self.now n }
    {
        self.asserted[n as usize]
    }

    /// The counts of a node's places.
    pub fn counts(&self, n: u32) -> Counts
        requires { n < length self.now.kinds }
        ensures { result ≡ counts_of (places_at self.now n) }
    {
        self.counts[n as usize]
    }

    /// How many places a node has.
    pub fn places(&self, n: u32) -> u32
        requires { n < length self.now.kinds }
        ensures { result ≡ length (places_at self.now n) }
    {
        self.places[n as usize].len()
    }

    /// A place of a node.
    pub fn place(&self, n: u32, i: u32) -> Place
        requires node { n < length self.now.kinds }
        requires place { i < length (places_at self.now n) }
        ensures { result ≡ place_at self.now n i }
    {
        self.places[n as usize].get(i)
    }

    /// Gives a node a value. Takes no memory.
    pub fn set_truth(&mut self, n: u32, truth: Truth)
        requires { n < length self.old.kinds }
        ensures { self.new ≡ with_truth self.old n truth }
    {
        let kind = self.kinds[n as usize];
        let asserted = self.asserted[n as usize];
        let counts = self.counts[n as usize];
        self.truths[n as usize] = truth;
        self.sets
            .units
            .set(n, is_unit(kind, truth, asserted, counts));
        self.sets.opens.set(n, is_open(kind, truth, asserted));
    }

    /// Says whether a node is asserted. Takes no memory.
    pub fn set_asserted(&mut self, n: u32, asserted: bool)
        requires { n < length self.old.kinds }
        ensures { self.new ≡ with_asserted self.old n asserted }
    {
        let kind = self.kinds[n as usize];
        let truth = self.truths[n as usize];
        let counts = self.counts[n as usize];
        self.asserted[n as usize] = asserted;
        self.sets
            .units
            .set(n, is_unit(kind, truth, asserted, counts));
        self.sets.opens.set(n, is_open(kind, truth, asserted));
        self.sets.stuck.set(n, is_stuck(kind, asserted, counts));
    }

    /// Changes a place of a node. Takes no memory.
    pub fn set_place(&mut self, n: u32, i: u32, place: Place)
        requires node { n < length self.old.kinds }
        requires place { i < length (places_at self.old n) }
        ensures { self.new ≡ with_place self.old n i place }
    {
        let kind = self.kinds[n as usize];
        let truth = self.truths[n as usize];
        let asserted = self.asserted[n as usize];
        let old = self.places[n as usize].get(i);
        let counts = counts_with(self.counts[n as usize], old, place);
        let list = &mut self.places[n as usize];
        list.set(i, place);
        self.counts[n as usize] = counts;
        self.sets
            .units
            .set(n, is_unit(kind, truth, asserted, counts));
        self.sets.stuck.set(n, is_stuck(kind, asserted, counts));
    }

    /// The first asserted disjunction that is a unit by what its places were told.
    pub fn first_unit(&self) -> Option<u32>
        ensures { MatchOption result (NonePasses (unit_at self.now)) (IsFirstPassing (unit_at self.now)) }
    {
        self.sets.units.first()
    }

    /// The first asserted disjunction without a Yes part by what its places were told.
    pub fn first_open(&self) -> Option<u32>
        ensures { MatchOption result (NonePasses (open_at self.now)) (IsFirstPassing (open_at self.now)) }
    {
        self.sets.opens.first()
    }

    /// The first asserted disjunction with nothing left over by what its places were told.
    pub fn first_stuck(&self) -> Option<u32>
        ensures { MatchOption result (NonePasses (stuck_at self.now)) (IsFirstPassing (stuck_at self.now)) }
    {
        self.sets.stuck.first()
    }
}

/// What is kept of a node that is entered.
#[derive(Drop)]
struct Entry {
    kind: Kind,
    truth: Truth,
    places: ShortList<Place>,
    counts: Counts,
}

/// Puts what is kept of a node last. Without memory a part may be put.
fn push_all(
    kinds: &mut Vec<Kind>,
    truths: &mut Vec<Truth>,
    asserted: &mut Vec<bool>,
    places: &mut Vec<ShortList<Place>>,
    counts: &mut Vec<Counts>,
    entry: Entry,
) -> Result<(), AllocError>
    ensures kinds { OnOk result (kinds.new.items ≡ kinds.old.items ++ entry.kind ∷ []) }
    ensures truths { OnOk result (truths.new.items ≡ truths.old.items ++ entry.truth ∷ []) }
    ensures asserted { OnOk result (asserted.new.items ≡ asserted.old.items ++ false ∷ []) }
    ensures places { OnOk result (places.new.items ≡ places.old.items ++ entry.places ∷ []) }
    ensures counts { OnOk result (counts.new.items ≡ counts.old.items ++ entry.counts ∷ []) }
    ensures kinds_front { take (length kinds.old.items) kinds.new.items ≡ kinds.old.items }
    ensures truths_front { take (length truths.old.items) truths.new.items ≡ truths.old.items }
    ensures asserted_front { take (length asserted.old.items) asserted.new.items ≡ asserted.old.items }
    ensures places_front { take (length places.old.items) places.new.items ≡ places.old.items }
    ensures counts_front { take (length counts.old.items) counts.new.items ≡ counts.old.items }
{
    kinds.push(entry.kind)?;
    truths.push(entry.truth)?;
    asserted.push(false)?;
    places.push(entry.places)?;
    counts.push(entry.counts)?;
    Ok(())
}

/// The counts of some places.
fn count_places(places: &ShortList<Place>) -> Counts
    ensures { result ≡ counts_of places.now }
{
    let mut counts = Counts {
        yes: 0,
        no: 0,
        left: 0,
        fresh: 0,
    };
    for i in 0..places.len() {
        counts = counts_more(counts, places.get(i));
    }
    counts
}
