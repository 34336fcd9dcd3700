//! Laws of the definitions, each on a function that does nothing.
ghost use Rattle.std.specs.Prelude.{◌≡◌, List};
ghost use Rattle.graph_meaning.specs.declared.done.Done.{Done};
ghost use Rattle.match_store.specs.declared.instance.Instance.{Instance};
ghost use Rattle.match_store.specs.New.{AreNew};

/// There is one list of the new instances.
pub fn new_law()
    ensures { (standing : List Done) (done xs ys : List Instance) → AreNew standing done xs → AreNew standing done ys → xs ≡ ys }
{}
