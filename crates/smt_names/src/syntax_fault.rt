//! A refusal with its place.

use crate::refusal::Refusal;
use graph_terms::Name;
use smt_text::Place;
use thiserror::Error;

/// A refusal, where it comes, and the name that it speaks of. The name is empty where it speaks of none.
#[derive(Debug, Drop, Error)]
#[error("{place}: {refusal}")]
pub struct SyntaxFault {
    pub refusal: Refusal,
    pub place: Place,
    pub name: Name,
}
