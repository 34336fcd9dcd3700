//! Where an application stands.

use smt_text::Place;

/// Where an application stands: the place of its list, or of its one token, and that of its head.
#[derive(Clone, Copy, Debug)]
pub struct Site {
    pub at: Place,
    pub head: Place,
}
