//! What one operation adds to what a graph keeps beside its classes.
ghost use Rattle.std.specs.Prelude.{◌≡◌, [], ◌∷◌, length};
ghost use Rattle.graph_meaning.specs.Standing.{is_push, levels_of, differs_added, triggers_added};

use graph_meaning::{Done, Op};

/// How many levels, live triggers and disequations came with an operation.
#[derive(Clone, Copy)]
pub struct Share {
    /// Whether it opened a level.
    pub opens: bool,
    /// How many levels came with it: 1 or 0.
    pub levels: u32,
    /// How many live triggers came with it: 1 or 0.
    pub triggers: usize,
    /// How many disequations came with it: 1 or 0.
    pub differs: usize,
}

/// What came with the operation.
pub fn share_of(done: &Done) -> Share
    ensures opens { result.opens ≡ is_push done.now }
    ensures levels { result.levels ≡ levels_of (done.now ∷ []) }
    ensures triggers { result.triggers ≡ length (triggers_added done.now.op) }
    ensures differs { result.differs ≡ length (differs_added done.now.op) }
{
    let (opens, levels, triggers, differs) = match done.op {
        Op::Push => (true, 1, 0, 0),
        Op::Live { .. } => (false, 0, 1, 0),
        Op::Differ { .. } => (false, 0, 0, 1),
        _ => (false, 0, 0, 0),
    };
    Share {
        opens,
        levels,
        triggers,
        differs,
    }
}
