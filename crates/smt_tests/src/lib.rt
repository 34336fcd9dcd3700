//! Tests of the public calls that read and elaborate commands.
#![tactic(auto)]

#[cfg(test)]
mod tests;
