//! Laws of the definitions, each on a function that does nothing.
ghost use Rattle.std.specs.Prelude.{◌≡◌, ℕ, ◌+◌, ◌++◌, [], ◌∷◌, List, length, take};
ghost use Rattle.graph_meaning.specs.declared.done.Done.{Done};
ghost use Rattle.graph_meaning.specs.declared.op.Op.{Op};
ghost use Rattle.graph_trigger.specs.declared.trigger.Trigger.{Trigger};
ghost use Rattle.graph_meaning.specs.Front.{front_of, HasSerials, StillStands};
ghost use Rattle.graph_meaning.specs.Lawful.{Allows, IsLawful};
ghost use Rattle.graph_meaning.specs.Match.{AreItemMatches, AreMatches};
ghost use Rattle.graph_meaning.specs.Standing.{standing_after, standing_of};
ghost use Rattle.graph_meaning.specs.State.{GraphState, first_state, replay, state_after};

/// The empty list is lawful, a front of a lawful list is, and an allowed operation keeps a list lawful.
pub fn lawful_law()
    ensures first { IsLawful [] }
    ensures front { (standing : List Done) (k : ℕ) → IsLawful standing → IsLawful (take k standing) }
    ensures after { (standing : List Done) (serial : ℕ) (op : Op) → IsLawful standing → Allows standing op → IsLawful (standing_after standing serial op) }
{}

/// A trigger has one list of matches, and so has an item of work.
pub fn matches_law()
    ensures trigger { (standing : List Done) (trigger : Trigger) (xs ys : List (List ℕ)) → AreMatches standing trigger xs → AreMatches standing trigger ys → xs ≡ ys }
    ensures item { (standing : List Done) (trigger : Trigger) (start term : ℕ) (xs ys : List (List ℕ)) → AreItemMatches standing trigger start term xs → AreItemMatches standing trigger start term ys → xs ≡ ys }
{}

/// Each operation of a replay counts once, and the last one comes last.
pub fn replay_law()
    ensures count { (state : GraphState) (ops : List Op) → (replay state ops).done ≡ state.done + length ops }
    ensures last { (state : GraphState) (ops : List Op) (op : Op) → replay state (ops ++ op ∷ []) ≡ state_after (replay state ops) op }
{}

/// Of what operations make of the first state: the standing list is that of the operations; its serials rise, and each is
/// below the number of operations done; and where the front of an earlier version still stands, the list of that version
/// is the beginning of the present one.
pub fn front_law()
    ensures standing { (limit : ℕ) (ops : List Op) → (replay (first_state limit) ops).standing ≡ standing_of ops }
    ensures serials { (limit : ℕ) (ops : List Op) → let state = replay (first_state limit) ops in HasSerials state.standing state.done }
    ensures prefix { (limit : ℕ) (ops more : List Op) → let earlier = (replay (first_state limit) ops).standing in let present = (replay (first_state limit) (ops ++ more)).standing in
        StillStands present (front_of earlier) → take (length earlier) present ≡ earlier }
{}
