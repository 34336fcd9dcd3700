//! Scripts with their answers.
mod answers;
mod errors;
mod faults;
mod fixture;
mod foralls;
mod generated;
mod library;
mod plain;
mod random;
mod solve;
mod texts;
mod workers;
