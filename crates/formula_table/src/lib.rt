//! The table of entered formulas: nodes over terms and earlier nodes, and foralls, by number.
#![tactic(auto)]

mod body;
mod enter_body;
pub mod enter_fault;
mod enter_foralls;
mod enter_nodes;
mod enter_rows;
pub mod formula_table;
pub mod laws;
pub mod node;
mod reached;
mod row_list;
pub mod table_forall;

pub use body::Body;
pub use enter_fault::EnterFault;
pub use formula_table::FormulaTable;
pub use node::Node;
pub use table_forall::TableForall;
