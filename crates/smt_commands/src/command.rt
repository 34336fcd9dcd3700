//! Commands.

use crate::info::Info;
use formula_draft::Formula;

/// A command that was read.
#[derive(Drop)]
pub enum Command {
    /// A declaration, a definition or something else that is only taken note of.
    Silent,
    /// Something that is not supported.
    Unsupported,
    /// A formula is asserted.
    Assert { formula: Formula },
    /// So many levels more.
    Push { count: u32 },
    /// So many levels less.
    Pop { count: u32 },
    /// The question whether the assertions can hold.
    CheckSat,
    /// The question about an information.
    GetInfo { info: Info },
    /// All as at the start.
    Reset,
    /// No assertions, declarations and levels.
    ResetAssertions,
    /// Nothing after it is read.
    Exit,
}
