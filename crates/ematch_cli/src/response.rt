//! What is answered to a command that is done.
ghost use Rattle.std.specs.Prelude.{◌≡◌, IfOk, None};
ghost use Rattle.ematch_cli.specs.Response.{success, unsupported, reason_text, info_text};

use em_printing::push_number;
use search_check::Why;
use smt_commands::Info;
use std::alloc::{AllocError, Global};

/// The line that is written where a command succeeds, or nothing where none is.
pub(crate) fn success(prints: bool) -> &'static [u8]
    ensures { result.now ≡ success prints }
{
    if prints { b"success\n" } else { b"" }
}

/// The line of a command that is not supported.
pub(crate) fn unsupported() -> &'static [u8]
    ensures { result.now ≡ unsupported }
{
    b"unsupported\n"
}

/// The line that says how many levels are open.
fn levels_text(alloc: Global, levels: u32) -> Result<Vec<u8>, AllocError>
    ensures { IfOk result (λ text. text.items ≡ info_text Info.Levels levels None) }
{
    let mut text = Vec::new(alloc);
    text.extend_from_slice(b"(:assertion-stack-levels ")?;
    push_number(&mut text, u64::from(levels))?;
    text.extend_from_slice(b")\n")?;
    Ok(text)
}

/// Why the last check was answered by `unknown`, where it was.
fn reason_text(why: Option<Why>) -> &'static [u8]
    ensures { result.now ≡ reason_text why }
{
    match why {
        None => unsupported(),
        Some(Why::Settled) => b"(:reason-unknown incomplete)\n",
        Some(Why::RoundsSpent) => b"(:reason-unknown rounds)\n",
    }
}

/// An information, where so many levels are open, and this is why the last check was answered by `unknown`, if it was.
pub(crate) fn info_text(
    alloc: Global,
    info: Info,
    levels: u32,
    why: Option<Why>,
) -> Result<Vec<u8>, AllocError>
    ensures { IfOk result (λ text. text.items ≡ info_text info levels why) }
{
    match info {
        Info::Name => Vec::from_slice(alloc, b"(:name \"ematch\")\n"),
        Info::Version => Vec::from_slice(alloc, b"(:version \"1.0\")\n"),
        Info::Authors => Vec::from_slice(alloc, b"(:authors \"ematch\")\n"),
        Info::ErrorBehavior => Vec::from_slice(alloc, b"(:error-behavior immediate-exit)\n"),
        Info::Levels => levels_text(alloc, levels),
        Info::ReasonUnknown => Vec::from_slice(alloc, reason_text(why)),
        Info::Other => Vec::from_slice(alloc, unsupported()),
    }
}
