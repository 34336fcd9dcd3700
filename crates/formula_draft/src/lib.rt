//! Formulas that are made but not entered: rows, nodes over rows, and foralls.
#![tactic(auto)]

pub mod draft_fault;
pub mod draft_forall;
pub mod draft_node;
pub mod draft_row;
pub mod formula;
pub mod formula_draft;
pub mod items;

pub use draft_fault::DraftFault;
pub use draft_forall::DraftForall;
pub use draft_node::DraftNode;
pub use draft_row::DraftRow;
pub use formula::Formula;
pub use formula_draft::FormulaDraft;
