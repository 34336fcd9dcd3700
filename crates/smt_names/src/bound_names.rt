//! The names that are bound where a term stands.
ghost use Rattle.std.specs.Prelude.{◌≡◌, ◌<◌, ◌-◌, ℕ, ◌++◌, ◌∷◌, [], length, take, get_or, slice_set, slice_get, option_copied, option_map, Some, None, IfOk, OnOk, OnErr};
ghost use Rattle.smt_names.specs.Names.{bound_as, bound_of};
ghost use Rattle.smt_names.specs.DistinctNames.{place_in, KeepPlaces};
ghost use Rattle.smt_names.specs.declared.linked.Linked.{Linked};

use crate::bound::Bound;
use crate::distinct_names::DistinctNames;
use crate::linked::Linked;
use crate::stands::Stands;
use graph_terms::{Memory, Name};
use std::alloc::Global;
use std::marker::Model;

/// The bound names, the outermost first. The last of a name wins, and is found by hash.
#[derive(Drop)]
pub struct BoundNames {
    items: Vec<Linked>,
    /// The names that were bound so far, also those that are no longer. The number of a name is its place here.
    names: DistinctNames,
    /// Where each name was bound last.
    last: Vec<Option<usize>>,
}

impl Model for BoundNames {
    ghost use Rattle.std.specs.Prelude.{List};
    ghost use Rattle.smt_names.specs.declared.bound.Bound.{Bound};

    ghost Value = { List Bound };

    ghost use Rattle.smt_names.specs.BoundInside.{bound_in, IsIndexed};

    ghost view = { λ bound. bound_in bound.items.items };

    ghost invariant = { IsIndexed };
}

/// Puts a name last that does not stand there.
fn add_missing(names: &mut DistinctNames, name: &[u8]) -> Result<(), Memory>
    ensures { KeepPlaces names.old names.new }
{
    if names.contains(name) {
        return Ok(());
    }
    names.push(name)?;
    Ok(())
}

/// The number of a name, which it gets where it has none.
fn number_of(names: &mut DistinctNames, name: &[u8]) -> Result<u32, Memory>
    ensures found { IfOk result (λ number. place_in names.new name.now ≡ Some number) }
    ensures kept { KeepPlaces names.old names.new }
{
    add_missing(names, name)?;
    match names.find(name) {
        Some(number) => Ok(number),
        None => Err(Memory),
    }
}

/// Makes room for the place of a number.
fn make_room(last: &mut Vec<Option<usize>>, number: u32) -> Result<(), Memory>
    ensures room { OnOk result (number < length last.new.items) }
    ensures same { (n : ℕ) → get_or last.new.items n None ≡ get_or last.old.items n None }
{
    let wanted = number as usize + 1;
    if last.len() < wanted {
        last.resize(wanted, None)?;
    }
    Ok(())
}

/// Where a number was bound last.
fn last_of(last: &[Option<usize>], number: u32) -> Option<usize>
    ensures { result ≡ get_or last.now number None }
{
    match last.get(number as usize) {
        None => None,
        Some(place) => *place,
    }
}

/// A number that has room was bound last at a place.
fn put_last(last: &mut Vec<Option<usize>>, number: u32, place: Option<usize>)
    ensures { last.new.items ≡ slice_set last.old.items number place }
{
    if let Some(found) = last.get_mut(number as usize) {
        *found = place;
    }
}

/// The bound name at a place.
fn bound_at(items: &[Linked], place: usize) -> Option<&Bound>
    ensures { option_copied result ≡ option_map (λ (item : Linked). item.bound) (slice_get items.now place) }
{
    match items.get(place) {
        None => None,
        Some(item) => Some(&item.bound),
    }
}

impl BoundNames {
    /// None.
    pub fn new(alloc: Global) -> BoundNames
        ensures { result ≡ [] }
    {
        BoundNames {
            items: Vec::new(alloc),
            names: DistinctNames::new(alloc),
            last: Vec::new(alloc),
        }
    }

    /// How many names are bound.
    pub fn len(&self) -> usize
        ensures { result ≡ length self.now }
    {
        self.items.len()
    }

    /// Binds a name, also one that is bound already.
    pub fn push(&mut self, name: &[u8], stands: Stands) -> Result<(), Memory>
        ensures ok { OnOk result (self.new ≡ self.old ++ bound_of name.now stands ∷ []) }
        ensures err { OnErr result (self.new ≡ self.old) }
    {
        let alloc = *self.items.allocator();
        let number = number_of(&mut self.names, name)?;
        make_room(&mut self.last, number)?;
        let name = Name::from_slice(alloc, name)?;
        let earlier = last_of(self.last.as_slice(), number);
        let place = self.items.len();
        self.items.push(Linked {
            bound: Bound { name, stands },
            number,
            earlier,
        })?;
        put_last(&mut self.last, number, Some(place));
        Ok(())
    }

    /// Unbinds the last name.
    fn pop(&mut self)
        ensures { self.new ≡ take (length self.old - 1) self.old }
    {
        if let Some(item) = self.items.pop() {
            put_last(&mut self.last, item.number, item.earlier);
        }
    }

    /// Keeps the first names.
    pub fn truncate(&mut self, len: usize)
        ensures { self.new ≡ take len self.old }
    {
        while self.len() > len {
            self.pop();
        }
    }

    /// The last binding of a name.
    pub fn find(&self, name: &[u8]) -> Option<&Bound>
        ensures { option_copied result ≡ bound_as self.now name.now }
    {
        match self.names.find(name) {
            None => None,
            Some(number) => match last_of(self.last.as_slice(), number) {
                None => None,
                Some(place) => bound_at(self.items.as_slice(), place),
            },
        }
    }
}
