//! What a head makes of a list.

/// What a head makes of a list.
#[derive(Clone, Copy, Debug, PartialEq, Eq)]
pub enum Form {
    /// `let`.
    Let,
    /// `!`.
    Annotated,
    /// `forall`.
    Universal,
    /// A form that is not supported.
    Foreign,
    /// Any other name, which is applied to its arguments.
    Application,
}
