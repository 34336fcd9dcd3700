//! What is known besides the classes of a graph.
ghost use Rattle.std.specs.Prelude.{◌↔◌, IsTrue};
ghost use Rattle.formula_value.specs.Value.{AreFacts};

use graph_terms::{Numbers, are_below};

/// The differences that stand, and which foralls are live.
#[derive(Debug, Drop)]
pub struct Facts {
    /// The one end of each difference, a term.
    pub differ_left: Numbers,
    /// The other end of each, at the same place.
    pub differ_right: Numbers,
    /// The numbers of the live foralls.
    pub live: Numbers,
}

impl Facts {
    /// Whether each difference has two ends, and they are among the first so many terms.
    pub fn are_over(&self, terms: u32) -> bool
        ensures { IsTrue result ↔ AreFacts terms self.now }
    {
        self.differ_left.len() == self.differ_right.len()
            && are_below(self.differ_left.as_slice(), terms)
            && are_below(self.differ_right.as_slice(), terms)
    }
}
