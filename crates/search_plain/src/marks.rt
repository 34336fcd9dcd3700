//! Marks at places: of terms, formulas or parts.
use crate::node::Parts;

/// Marks a place, where there is one.
pub(crate) fn mark(marks: &mut Vec<bool>, place: Option<usize>) {
    if let Some(number) = place {
        if let Some(slot) = marks.get_mut(number) {
            *slot = true;
        }
    }
}

/// Marks the places of the parts.
pub(crate) fn mark_parts(marks: &mut Vec<bool>, parts: &Parts) {
    for part in parts {
        mark(marks, *part);
    }
}

/// Whether a place is marked.
pub(crate) fn is_marked(marks: &[bool], number: usize) -> bool {
    marks.get(number).copied().unwrap_or(false)
}
