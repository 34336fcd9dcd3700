//! Which terms a question asks for.

/// Which terms are asked for.
#[derive(Clone, Copy, Debug, PartialEq, Eq)]
pub enum Pick {
    /// The members of a class with a symbol.
    Class { term: u32, symbol: u32 },
    /// The terms with a symbol.
    Symbol { symbol: u32 },
    /// The terms with a symbol whose argument at the place is in a class.
    Parent { term: u32, symbol: u32, place: u32 },
}
