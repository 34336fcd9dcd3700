//! Formulas over terms and over formulas with earlier numbers.

/// The parts of a formula, of which there are three at most.
pub(crate) type Parts = [Option<usize>; 3];

/// A formula.
#[derive(Clone, Copy, PartialEq, Eq)]
pub(crate) enum Node {
    Equal {
        positive: bool,
        left: usize,
        right: usize,
    },
    Atom {
        positive: bool,
        term: usize,
    },
    Each(Parts),
    Either(Parts),
    Forall(usize),
}
