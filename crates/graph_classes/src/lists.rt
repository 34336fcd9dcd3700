//! The lists of terms that questions read.
ghost use Rattle.std.specs.Prelude.{◌≡◌, ◌<◌, ℕ, [], AllPairs, IfOk, IfNone, IfSome, IsTrue, OnErr, slice_get, remove};
ghost use Rattle.graph_classes.specs.Lists.{EntersAt, with_list};
ghost use Rattle.graph_classes.specs.Shown.{lists_in};

use crate::place::Place;
use crate::rising::Rising;
use graph_terms::Memory;
use std::alloc::Global;
use std::collections::HashMap;
use std::marker::Model;

/// A list of terms for each place, empty at first.
#[derive(Drop)]
pub struct Lists {
    alloc: Global,
    lists: HashMap<Place, Rising>,
}

impl Model for Lists {
    ghost use Rattle.std.specs.Prelude.{ℕ, List};
    ghost use Rattle.graph_classes.specs.declared.place.Place.{Place};

    ghost Value = { List (Place × List ℕ) };

    ghost view = { λ lists. lists.lists.entries };
}

impl Lists {
    /// Empty lists.
    pub fn new(alloc: Global) -> Lists
        ensures { result ≡ [] }
    {
        Lists {
            alloc,
            lists: HashMap::new(alloc),
        }
    }

    /// The k-th term of a list, counted from 0.
    pub fn get(&self, place: Place, k: u32) -> Option<u32>
        ensures value { result ≡ slice_get (lists_in self.now place) k }
        ensures rising { AllPairs (λ a b. a < b) (lists_in self.now place) }
    {
        match self.lists.get(&place) {
            Some(list) => list.get(k as usize),
            None => None,
        }
    }

    /// Puts a term into a list that stands.
    fn enter_known(&mut self, place: Place, term: u32) -> Option<Result<Option<usize>, Memory>>
        ensures none { IfNone result (lists_in self.new ≡ lists_in self.old) }
        ensures none_there { IfNone result (lists_in self.old place ≡ []) }
        ensures ok { IfSome result (λ entered. IfOk entered (λ at. EntersAt (lists_in self.old) (lists_in self.new) place term at)) }
        ensures err { IfSome result (λ entered. OnErr entered (lists_in self.new ≡ lists_in self.old)) }
    {
        let list = self.lists.get_mut(&place)?;
        let entered = list.enter(term);
        Some(entered)
    }

    /// Puts a list of one term where none stands.
    fn enter_new(&mut self, place: Place, term: u32) -> Result<Option<usize>, Memory>
        requires { lists_in self.old place ≡ [] }
        ensures ok { IfOk result (λ at. EntersAt (lists_in self.old) (lists_in self.new) place term at) }
        ensures err { OnErr result (lists_in self.new ≡ lists_in self.old) }
    {
        let mut list = Rising::new(self.alloc);
        let at = list.enter(term)?;
        self.lists.insert(place, list)?;
        Ok(at)
    }

    /// Puts a term at its place in a list, and tells the place, or none where it is there already.
    pub fn enter(&mut self, place: Place, term: u32) -> Result<Option<usize>, Memory>
        ensures ok { IfOk result (λ at. EntersAt (lists_in self.old) (lists_in self.new) place term at) }
        ensures err { OnErr result (lists_in self.new ≡ lists_in self.old) }
    {
        match self.enter_known(place, term) {
            Some(entered) => entered,
            None => self.enter_new(place, term),
        }
    }

    /// Takes the term at a place of a list out, and tells whether the list is empty then.
    fn leave_list(&mut self, place: Place, at: usize) -> bool
        ensures left { lists_in self.new ≡ with_list (lists_in self.old) place (remove (lists_in self.old place) at) }
        ensures empty { IsTrue result → remove (lists_in self.old place) at ≡ [] }
    {
        let Some(list) = self.lists.get_mut(&place) else {
            return false;
        };
        list.leave(at);
        list.is_empty()
    }

    /// Empties a list.
    fn forget(&mut self, place: Place)
        ensures { lists_in self.new ≡ with_list (lists_in self.old) place [] }
    {
        drop(self.lists.remove(&place));
    }

    /// Takes the term at a place of a list out, if there is one.
    pub fn leave(&mut self, place: Place, at: usize)
        ensures { lists_in self.new ≡ with_list (lists_in self.old) place (remove (lists_in self.old place) at) }
    {
        if self.leave_list(place, at) {
            self.forget(place);
        }
    }
}
