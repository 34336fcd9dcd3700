//! A set of numbers below a bound, with its least member at hand.
ghost use Rattle.std.specs.Prelude.{◌≡◌, ℕ, ◌+◌, ◌-◌, ◌^◌, ◌++◌, ◌<◌, ◌≤◌, Bool, false, true, length, slice_index_or, slice_set, IfOk, MatchOption, replicate};
ghost use Rattle.search_set.specs.Members.{IsLeast, HasNone};

use crate::tree::{first_mark, set_mark};
use std::alloc::{AllocError, Global};
use std::marker::Model;

/// A set of numbers below a bound. Contracts see for each number whether it is a member.
#[derive(Drop)]
pub struct LeastSet {
    height: u32,
    room: usize,
    marks: Vec<bool>,
}

impl Model for LeastSet {
    ghost use Rattle.std.specs.Prelude.{List, Bool, drop, ◌^◌};

    ghost Value = { List Bool };

    ghost use Rattle.search_set.specs.Inside.{IsSound};

    ghost view = { λ set. drop set.room set.marks.items };

    ghost invariant = { IsSound };
}

/// Puts a number in that is no member, if so asked.
fn put_if(set: &mut LeastSet, number: u32, on: bool)
    requires within { number < length set.old }
    requires off { slice_index_or set.old number false ≡ false }
    ensures { set.new ≡ slice_set set.old number on }
{
    if on {
        set.set(number, true);
    }
}

impl LeastSet {
    /// A set without members, for the numbers below 2 to the power of the height. A refusal is want of memory.
    pub fn new(alloc: Global, height: u32) -> Result<LeastSet, AllocError>
        requires { height < 32 }
        ensures { IfOk result (λ set. set ≡ replicate (2 ^ height) false) }
    {
        let room = 1usize << height;
        let mut marks = Vec::new(alloc);
        for _ in 0..2 * room {
            marks.push(false)?;
        }
        Ok(LeastSet {
            height,
            room,
            marks,
        })
    }

    /// The same members in a set of the numbers below 2 to the power of this height, which are no fewer. A refusal is want of
    /// memory.
    pub fn with_room(&self, alloc: Global, height: u32) -> Result<LeastSet, AllocError>
        requires height { height < 32 }
        requires room { length self.now ≤ 2 ^ height }
        ensures { IfOk result (λ set. set ≡ self.now ++ replicate (2 ^ height - length self.now) false) }
    {
        let _height = self.height;
        let mut set = LeastSet::new(alloc, height)?;
        for number in 0..self.room {
            put_if(&mut set, number as u32, self.marks[self.room + number]);
        }
        Ok(set)
    }

    /// Puts a number in, or takes it out. It takes no memory.
    pub fn set(&mut self, number: u32, on: bool)
        requires { number < length self.old }
        ensures { self.new ≡ slice_set self.old number on }
    {
        set_mark(
            self.marks.as_mut_slice(),
            self.height,
            self.room,
            number as usize,
            on,
        );
    }

    /// The least member, or `None` where there is none.
    pub fn first(&self) -> Option<u32>
        ensures { MatchOption result (HasNone self.now) (λ number. IsLeast self.now number) }
    {
        if !self.marks[1] {
            return None;
        }
        let number = first_mark(self.marks.as_slice(), self.height, self.room);
        Some(number as u32)
    }
}
