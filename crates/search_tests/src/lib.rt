//! Tests of truth values, of the sets that a search keeps, and of the search of formulas.
#![tactic(auto)]

#[cfg(test)]
mod tests;
