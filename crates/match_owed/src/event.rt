//! What happens to claims.
use graph_meaning::Claim;

/// A claim was given, or it was discharged.
#[derive(Clone, Copy, Debug)]
pub struct Event {
    pub claim: Claim,
    pub gives: bool,
}
