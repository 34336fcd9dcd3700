//! The rule of a deque: the numbers in it, with those that were taken, are those that were pushed, each as often.
use crate::share::Share;
use crossbeam_deque::protocol::{Join, Outcome, Protocol, Split};
use crossbeam_deque::{Pass, Stealer, Worker};
use std::alloc::Global;

/// A matcher's end of its own deque.
pub type Owner = Worker<u32, Global, Share, Deal>;

/// What others steal from a deque with.
pub type Robber = Stealer<u32, Global, Share, Deal>;

/// What a thief knows of the deque that it steals from.
pub type RobberPass = Pass<u32, Share>;

/// The rule.
pub struct Deal;

impl Protocol<u32, Share> for Deal {
    ghost use Rattle.std.specs.Prelude.{[]};
    ghost use Rattle.match_pool.specs.Dealing.{share, Dealt};

    ghost holds = { Dealt };

    ghost first = { share 2 [] [] };

    ghost guest = { share 0 [] [] };
}

/// A number is pushed.
pub struct Push;

impl Outcome<u32, Share> for Push {
    ghost use Rattle.std.specs.Prelude.{◌≡◌, ◌++◌};
    ghost use Rattle.match_pool.specs.Dealing.{share};

    ghost then = { λ v xs w. w ≡ share v.parts (v.pushed ++ xs) v.taken };
}

/// A number is taken.
pub struct Take;

impl Outcome<u32, Share> for Take {
    ghost use Rattle.std.specs.Prelude.{◌≡◌, ◌++◌};
    ghost use Rattle.match_pool.specs.Dealing.{share, IsAllTaken};

    ghost then = { λ v xs w. w ≡ share v.parts v.pushed (v.taken ++ xs) };

    ghost empty = { IsAllTaken };
}

/// A thief's pass is cut off, and taken back.
pub struct Halves;

impl Split<Share> for Halves {
    ghost use Rattle.std.specs.Prelude.{[], ◌-◌};
    ghost use Rattle.match_pool.specs.Dealing.{share};

    ghost left = { λ v. share (v.parts - 1) v.pushed v.taken };

    ghost right = { λ v. share 1 [] [] };
}

impl Join<Share> for Halves {
    ghost use Rattle.std.specs.Prelude.{[], ◌+◌, ◌++◌};
    ghost use Rattle.match_pool.specs.Dealing.{share};

    ghost both = { λ v w. share (v.parts + w.parts) (v.pushed ++ w.pushed) (v.taken ++ w.taken) };

    ghost spent = { share 0 [] [] };
}
