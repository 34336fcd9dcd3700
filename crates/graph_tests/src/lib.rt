//! The plain graph and the graph with a trail, driven side by side: each says what the other has to answer.
#![tactic(auto)]

#[cfg(test)]
mod tests;
