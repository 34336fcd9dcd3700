//! Informations.

/// What a script may ask about.
#[derive(Clone, Copy, Debug, PartialEq, Eq)]
pub enum Info {
    Name,
    Version,
    Authors,
    ErrorBehavior,
    /// How many levels are open.
    Levels,
    /// Why the last answer was `unknown`.
    ReasonUnknown,
    /// Anything else.
    Other,
}
