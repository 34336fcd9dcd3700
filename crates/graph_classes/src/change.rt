//! The changes of the parts of a graph.

use crate::place::Place;

/// One change, with what undoes it.
#[derive(Drop)]
pub enum Change {
    /// A row came, with its label, its members, its uses and its leader.
    Added,
    /// A term got another label.
    Labelled { term: u32, old: u32 },
    /// A label got one more member.
    Joined { label: u32 },
    /// A label got one more use.
    Used { label: u32 },
    /// A signature came.
    Signed,
    /// A label got another leader.
    Led { label: u32, old: u32 },
    /// A list got one more term.
    Listed { place: Place, at: usize },
    /// An operation came.
    Logged,
}
