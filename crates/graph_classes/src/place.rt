//! What a list of terms is kept under.

/// The terms that one list has.
#[derive(Clone, Copy, Debug, Hash, PartialEq, Eq)]
pub enum Place {
    /// Those of a symbol.
    Symbol {
        symbol: u32,
    },
    /// Those of a symbol with a label.
    Member {
        label: u32,
        symbol: u32,
    },
    /// Those of a symbol whose argument with this number has a label.
    Parent {
        label: u32,
        symbol: u32,
        argument: u32,
    },
}
