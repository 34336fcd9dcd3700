//! Truth values, sets of numbers, and the search of formulas.
mod library;
mod set;
mod truths;
