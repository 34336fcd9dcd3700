//! Formulas that are made and entered.
mod entry;
mod instance;
mod library;
