//! Terms and formulas: what each tree of a command means, and its elaboration with a stack of its own.
#![tactic(auto)]

mod bodies;
mod checks;
mod context;
mod cursor;
mod elaborate;
mod foralls;
mod form;
mod frame;
mod given;
mod giving;
mod heading;
mod inside;
mod next;
mod numbers;
mod opened;
mod opening;
mod round;
mod step;
mod tokens;
mod triggers;
mod values;
mod walked;
mod walking;
mod work;

pub use bodies::{check_few_bindings, other_sort_at, variables_at};
pub use checks::{check_at_least, check_at_most, check_exactly, check_names, check_no_more};
pub use context::Context;
pub use cursor::{
    Binding, Seen, behind_one, behind_some, binding_at, kind_at, look, place_at, text_at,
};
pub use elaborate::elaborate_term;
pub use giving::bind_all;
pub use inside::Inside;
pub use numbers::{is_wide, number_of};
