//! What a graph of terms means: operations, standing lists, congruence and matching, and what every graph answers.
#![tactic(auto)]

pub mod arrange;
pub mod claim;
pub mod done;
pub mod front;
pub mod graph;
pub mod laws;
pub mod op;
pub mod union;

pub use claim::Claim;
pub use done::Done;
pub use front::Front;
pub use graph::ClassGraph;
pub use op::Op;
pub use union::Union;
