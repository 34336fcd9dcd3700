//! What the names of a script stand for, and why a command is refused.
#![tactic(auto)]

mod arg;
mod bound;
mod bound_names;
mod connective;
mod definition;
mod distinct_names;
mod entries;
mod head;
mod level;
mod linked;
mod names;
mod refusal;
mod session_state;
mod signature;
mod stands;
mod stop;
mod syntax_fault;
mod value;

pub use arg::Arg;
pub use bound::Bound;
pub use bound_names::BoundNames;
pub use connective::Connective;
pub use definition::Definition;
pub use distinct_names::DistinctNames;
pub use head::Head;
pub use level::Level;
pub use names::{
    check_lawful_name, check_new_name, connective_of, is_keyword, is_numeral, is_reserved,
    is_symbol,
};
pub use refusal::Refusal;
pub use session_state::SessionState;
pub use signature::Signature;
pub use stands::Stands;
pub use stop::Stop;
pub use syntax_fault::SyntaxFault;
pub use value::Value;
