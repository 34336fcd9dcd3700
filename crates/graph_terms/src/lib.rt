//! Terms in a table of rows: numbers, names, rows and lists of them, and where terms are entered.
#![tactic(auto)]

pub mod entry;
pub mod memory;
pub mod name;
pub mod numbers;
pub mod table;
pub mod table_fault;
pub mod term_row;
pub mod term_rows;

pub use entry::TermEntry;
pub use memory::Memory;
pub use name::Name;
pub use numbers::{Numbers, are_below};
pub use table::{MOST_ARGS, TermTable};
pub use table_fault::TableFault;
pub use term_row::TermRow;
pub use term_rows::TermRows;
