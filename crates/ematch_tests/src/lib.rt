//! Tests of the public calls of the top: scripts with their answers, faults and refusals, and the texts of errors.
#![tactic(auto)]

#[cfg(test)]
mod tests;
