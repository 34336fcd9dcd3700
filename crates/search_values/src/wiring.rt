//! Which parts each node has, and of which nodes each is a part.
ghost use Rattle.std.specs.Prelude.{◌≡◌, ◌<◌, ◌≤◌, ◌+◌, ◌-◌, ◌^◌, ◌++◌, ◌∷◌, ℕ, List, [], length, take, slice_index_or, slice_set, All, OnOk, OnErr};
ghost use Rattle.search_values.specs.declared.up.Up.{Up as UpOf};
ghost use Rattle.search_values.specs.Wiring.{parts_at, part_at, ups_at, up_at, IsWired};
ghost use Rattle.search_values.specs.WiresUps.{WiresUps, ups_in};

use crate::up::Up;
use search_list::ShortList;
use std::alloc::{AllocError, Global};
use std::marker::Model;

/// Which parts each node has, and of which nodes each is a part.
#[derive(Drop)]
pub struct Wiring {
    parts: Vec<ShortList<u32>>,
    ups: Vec<ShortList<Up>>,
}

impl Model for Wiring {
    ghost use Rattle.search_values.specs.Wiring.{Wires, IsWired};

    ghost Value = { Wires };

    ghost view = { λ wiring. record { parts = wiring.parts.items; ups = wiring.ups.items } };

    ghost invariant = { λ wiring. IsWired (record { parts = wiring.parts.items; ups = wiring.ups.items }) };
}

/// Puts a place behind the ups of a node. A refusal is want of memory or of room, and all is as before then.
fn put_up(ups: &mut Vec<ShortList<Up>>, m: u32, up: Up) -> Result<(), AllocError>
    requires { m < length ups.old.items }
    ensures ok { OnOk result (ups.new.items ≡ slice_set ups.old.items m (slice_index_or ups.old.items m [] ++ up ∷ [])) }
    ensures err { OnErr result (ups.new.items ≡ ups.old.items) }
{
    let list = &mut ups[m as usize];
    list.push(up)
}

/// Takes the last of the ups of a node away. It takes no memory.
fn drop_up(ups: &mut Vec<ShortList<Up>>, m: u32)
    requires stands { m < length ups.old.items }
    requires some { 0 < length (slice_index_or ups.old.items m []) }
    ensures { ups.new.items ≡ slice_set ups.old.items m (take (length (slice_index_or ups.old.items m []) - 1) (slice_index_or ups.old.items m [])) }
{
    let list = &mut ups[m as usize];
    let len = list.len();
    list.truncate(len - 1);
}

/// Takes the first places of a node, so many, from behind the ups of its parts, where they were put last. It takes no memory.
fn unwire(ups: &mut Vec<ShortList<Up>>, parts: &ShortList<u32>, count: u32)
    requires stands { All (λ part. part < length ups.old.items) parts.now }
    requires within { count ≤ length parts.now }
    requires put { (base : ℕ → List UpOf) × (n : ℕ) × WiresUps base (length ups.old.items) ups.old.items parts.now n count }
    ensures { (base : ℕ → List UpOf) (n : ℕ) → WiresUps base (length ups.old.items) ups.old.items parts.now n count → WiresUps base (length ups.old.items) ups.new.items parts.now n 0 }
{
    for k in 0..count {
        drop_up(ups, parts.get(count - 1 - k));
    }
}

/// Puts the places of a node, which comes last, behind the ups of its parts. A refusal is want of memory or of room, and
/// all is as before then.
fn wire(ups: &mut Vec<ShortList<Up>>, parts: &ShortList<u32>, n: u32) -> Result<(), AllocError>
    requires stands { All (λ part. part < length ups.old.items) parts.now }
    ensures ok { OnOk result (WiresUps (ups_in ups.old.items) (length ups.old.items) ups.new.items parts.now n (length parts.now)) }
    ensures err { OnErr result (ups.new.items ≡ ups.old.items) }
{
    for i in 0..parts.len() {
        let up = Up { node: n, place: i };
        if let Err(fault) = put_up(ups, parts.get(i), up) {
            unwire(ups, parts, i);
            return Err(fault);
        }
    }
    Ok(())
}

impl Wiring {
    /// No nodes. It takes no memory.
    pub fn new(alloc: Global) -> Wiring
        ensures { result.parts ≡ [] }
    {
        Wiring {
            parts: Vec::new(alloc),
            ups: Vec::new(alloc),
        }
    }

    /// One node more, over earlier parts. A refusal is want of memory or of room, and all is as before then.
    pub fn enter(&mut self, alloc: Global, parts: ShortList<u32>) -> Result<(), AllocError>
        requires earlier { All (λ part. part < length self.old.parts) parts }
        requires few { length self.old.parts + 1 < 2 ^ 32 }
        ensures ok { OnOk result (self.new.parts ≡ self.old.parts ++ parts ∷ []) }
        ensures err { OnErr result (self.new ≡ self.old) }
    {
        let n = self.parts.len() as u32;
        self.parts.reserve(1)?;
        self.ups.push(ShortList::new(alloc))?;
        match wire(&mut self.ups, &parts, n) {
            Ok(()) => {
                self.parts.push_reserved(parts);
                Ok(())
            }
            Err(fault) => {
                let _ups = self.ups.pop();
                Err(fault)
            }
        }
    }

    /// Takes the last node away, if there is one, and its places from behind the ups of its parts. It takes no memory.
    fn drop_last(&mut self)
        ensures { self.new.parts ≡ take (length self.old.parts - 1) self.old.parts }
    {
        if let Some(parts) = self.parts.pop() {
            unwire(&mut self.ups, &parts, parts.len());
            let _ups = self.ups.pop();
        }
    }

    /// Keeps the first nodes, so many at most. It takes no memory.
    pub fn cut(&mut self, count: u32)
        ensures parts { self.new.parts ≡ take count self.old.parts }
        ensures wired { IsWired self.new }
    {
        let len = self.len();
        for _gone in count..len {
            self.drop_last();
        }
        let _wired = self.len();
    }

    /// How many nodes there are.
    pub fn len(&self) -> u32
        ensures len { result ≡ length self.now.parts }
        ensures wired { IsWired self.now }
    {
        self.parts.len() as u32
    }

    /// How many parts a node has.
    pub fn parts(&self, n: u32) -> u32
        requires { n < length self.now.parts }
        ensures { result ≡ length (parts_at self.now n) }
    {
        self.parts[n as usize].len()
    }

    /// Of how many places a node is the part.
    pub fn ups(&self, n: u32) -> u32
        requires { n < length self.now.parts }
        ensures { result ≡ length (ups_at self.now n) }
    {
        self.ups[n as usize].len()
    }

    /// A place whose part a node is.
    pub fn up(&self, n: u32, k: u32) -> Up
        requires node { n < length self.now.parts }
        requires place { k < length (ups_at self.now n) }
        ensures value { result ≡ up_at self.now n k }
        ensures wired { IsWired self.now }
    {
        self.ups[n as usize].get(k)
    }

    /// The part at a place of a node.
    pub fn part(&self, n: u32, i: u32) -> u32
        requires node { n < length self.now.parts }
        requires place { i < length (parts_at self.now n) }
        ensures { result ≡ part_at self.now n i }
    {
        self.parts[n as usize].get(i)
    }
}
