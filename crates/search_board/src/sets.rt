//! Which nodes are units, open and stuck, as sets that grow.
ghost use Rattle.std.specs.Prelude.{◌≡◌, ◌+◌, ◌*◌, ◌-◌, ◌^◌, ◌++◌, ◌<◌, ◌≤◌, false, length, replicate, IfOk, OnOk, OnErr};
ghost use Rattle.search_board.specs.Sets.{AreAlike, IsWider};

use search_set::LeastSet;
use std::alloc::{AllocError, Global};

/// Which nodes are units, open and stuck: three sets of the numbers below the same bound.
#[derive(Drop)]
pub(crate) struct Sets {
    /// The bound is 2 to the power of this.
    pub(crate) height: u32,
    /// The asserted disjunctions that are units.
    pub(crate) units: LeastSet,
    /// The asserted disjunctions without a Yes part.
    pub(crate) opens: LeastSet,
    /// The asserted disjunctions with nothing left over.
    pub(crate) stuck: LeastSet,
}

impl Sets {
    /// Sets without members, for the numbers below 2 to the power of the height. A refusal is want of memory.
    pub(crate) fn new(alloc: Global, height: u32) -> Result<Sets, AllocError>
        requires { height < 32 }
        ensures height { IfOk result (λ sets. sets.height ≡ height) }
        ensures units { IfOk result (λ sets. sets.units ≡ replicate (2 ^ height) false) }
        ensures opens { IfOk result (λ sets. sets.opens ≡ replicate (2 ^ height) false) }
        ensures stuck { IfOk result (λ sets. sets.stuck ≡ replicate (2 ^ height) false) }
    {
        Ok(Sets {
            height,
            units: LeastSet::new(alloc, height)?,
            opens: LeastSet::new(alloc, height)?,
            stuck: LeastSet::new(alloc, height)?,
        })
    }

    /// The same members, with twice the room. A refusal is want of memory.
    fn doubled(&self, alloc: Global) -> Result<Sets, AllocError>
        requires room { AreAlike self.now }
        requires few { self.now.height < 31 }
        ensures alike { IfOk result AreAlike }
        ensures wider { IfOk result (IsWider self.now) }
        ensures height { IfOk result (λ sets. sets.height ≡ self.now.height + 1) }
    {
        let height = self.height + 1;
        Ok(Sets {
            height,
            units: self.units.with_room(alloc, height)?,
            opens: self.opens.with_room(alloc, height)?,
            stuck: self.stuck.with_room(alloc, height)?,
        })
    }

    /// Sees that there is room for one number more behind so many: it is doubled where it is used up. A refusal is want of
    /// memory, or of room past 2 to the power of 31 numbers, and all is as before then.
    pub(crate) fn make_room(&mut self, alloc: Global, count: usize) -> Result<(), AllocError>
        requires alike { AreAlike self.old }
        requires within { count ≤ 2 ^ self.old.height }
        ensures alike { OnOk result (AreAlike self.new) }
        ensures wider { OnOk result (IsWider self.old self.new) }
        ensures room { OnOk result (count < 2 ^ self.new.height) }
        ensures err { OnErr result (self.new ≡ self.old) }
    {
        if count < 1usize << self.height {
            return Ok(());
        }
        if self.height >= 31 {
            return Err(AllocError);
        }
        *self = self.doubled(alloc)?;
        Ok(())
    }
}
