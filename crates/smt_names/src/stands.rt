//! What a bound name stands for.

use crate::value::Value;

/// What a bound name stands for.
#[derive(Clone, Copy, Debug, PartialEq, Eq)]
pub enum Stands {
    /// A value.
    Given(Value),
    /// A variable, which is no row before it is named.
    Variable { index: u32, sort: u32 },
}
