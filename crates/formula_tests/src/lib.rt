//! Tests of the public calls that make and enter formulas.
#![tactic(auto)]

#[cfg(test)]
mod tests;
