//! A thief of one deque.
ghost use Rattle.std.specs.Prelude.{◌≡◌, ◌++◌, ◌∷◌, [], MatchOption};
ghost use Rattle.crossbeam_deque.specs.Handles.{view, IsPassOf, stealer_deque};

use crate::deal::{Robber, RobberPass, Take};
use crossbeam_deque::Steal;

/// What a matcher steals from the deque of the next one with.
#[derive(Drop)]
pub struct Thief {
    pub robber: Robber,
    pub pass: RobberPass,
    pub ghost of: { IsPassOf (stealer_deque robber) pass },
    pub ghost part: { ((view pass).parts ≡ 1) × ((view pass).pushed ≡ []) },
}

impl Thief {
    /// One try. An answer that asks for another try counts as nothing: the deque's owner empties it.
    pub fn steal(&mut self) -> Option<u32>
        ensures same { stealer_deque self.new.robber ≡ stealer_deque self.old.robber }
        ensures taken { MatchOption result (view self.new.pass ≡ view self.old.pass) (λ number. (view self.new.pass).taken ≡ (view self.old.pass).taken ++ number ∷ []) }
    {
        match self.robber.steal_as::<Take>(&mut self.pass) {
            Steal::Success(number) => Some(number),
            Steal::Empty | Steal::Retry => None,
        }
    }
}
