//! The lines of errors.
ghost use Rattle.std.specs.Prelude.{◌≡◌, ◌++◌, ◌∷◌, [], unwrap_or, IfOk, OnOk};
ghost use Rattle.smt_text.specs.Word.{first_place};
ghost use Rattle.smt_commands.specs.Commands.{start};
ghost use Rattle.ematch_cli.specs.ErrorLine.{error_line, fault_text, fault_line, quoted, refusal_text, refusal_line, room_text, room_line};

use em_printing::push_number;
use formula_table::EnterFault;
use smt_names::{Refusal, SyntaxFault};
use smt_text::{ByteFault, Place, Tree};
use std::alloc::{AllocError, Global};

/// The line of an error at a place.
fn error_line(alloc: Global, place: Place, said: &[u8]) -> Result<Vec<u8>, AllocError>
    ensures { IfOk result (λ text. text.items ≡ error_line place said.now) }
{
    let mut text = Vec::new(alloc);
    text.extend_from_slice(b"(error \"line ")?;
    push_number(&mut text, u64::from(place.line))?;
    text.extend_from_slice(b" column ")?;
    push_number(&mut text, u64::from(place.column))?;
    text.extend_from_slice(b": ")?;
    text.extend_from_slice(said)?;
    text.extend_from_slice(b"\")\n")?;
    Ok(text)
}

/// What is said of a fault.
fn fault_text(fault: ByteFault) -> &'static [u8]
    ensures { result.now ≡ fault_text fault }
{
    match fault {
        ByteFault::BadByte { .. } => b"byte not allowed here",
        ByteFault::Unclosed { .. } => b"the command is not closed",
        ByteFault::Stray { .. } => b"a command must begin with (",
        ByteFault::TooDeep { .. } => b"too many open parentheses",
        ByteFault::TooLong { .. } => b"the script is too long",
    }
}

/// The line of a fault, with its place.
pub(crate) fn fault_line(alloc: Global, fault: ByteFault) -> Result<Vec<u8>, AllocError>
    ensures { IfOk result (λ text. text.items ≡ fault_line fault) }
{
    error_line(alloc, fault.place(), fault_text(fault))
}

/// Writes a byte of a name, twice where it is a quote.
fn push_quoted_byte(text: &mut Vec<u8>, byte: u8) -> Result<(), AllocError>
    ensures { OnOk result (text.new.items ≡ text.old.items ++ quoted (byte ∷ [])) }
{
    if byte == b'"' {
        text.extend_from_slice(b"\"\"")?;
        return Ok(());
    }
    text.push(byte)?;
    Ok(())
}

/// Writes a name with each quote doubled.
fn push_quoted(text: &mut Vec<u8>, name: &[u8]) -> Result<(), AllocError>
    ensures { OnOk result (text.new.items ≡ text.old.items ++ quoted name.now) }
{
    for i in 0..name.len() {
        push_quoted_byte(text, name[i])?;
    }
    Ok(())
}

/// A text with a name in it.
fn named(alloc: Global, before: &[u8], name: &[u8], behind: &[u8]) -> Result<Vec<u8>, AllocError>
    ensures { IfOk result (λ text. text.items ≡ before.now ++ quoted name.now ++ behind.now) }
{
    let mut text = Vec::from_slice(alloc, before)?;
    push_quoted(&mut text, name)?;
    text.extend_from_slice(behind)?;
    Ok(text)
}

/// What is said of a refusal that speaks of this name.
fn refusal_text(alloc: Global, refusal: Refusal, name: &[u8]) -> Result<Vec<u8>, AllocError>
    ensures { IfOk result (λ text. text.items ≡ refusal_text refusal (quoted name.now)) }
{
    match refusal {
        Refusal::UnknownName => named(alloc, b"unknown name ", name, b""),
        Refusal::AlreadyDeclared => named(alloc, b"", name, b" is already declared"),
        Refusal::WrongArity => named(alloc, b"wrong number of arguments of ", name, b""),
        Refusal::WrongSort => Vec::from_slice(alloc, b"wrong sort"),
        Refusal::BadForm => Vec::from_slice(alloc, b"not a well-formed command"),
        Refusal::NotInProfile => Vec::from_slice(alloc, b"not supported here"),
        Refusal::PatternWithoutVariable => {
            named(alloc, b"variable ", name, b" is not in the trigger")
        }
        Refusal::PatternIsVariable => {
            Vec::from_slice(alloc, b"a pattern must not be a variable")
        }
        Refusal::PatternHasConnective => {
            Vec::from_slice(alloc, b"a pattern must not hold connectives")
        }
        Refusal::TooManyVariables => Vec::from_slice(alloc, b"too many variables"),
        Refusal::TooManyArguments => Vec::from_slice(alloc, b"too many arguments"),
        Refusal::TooManyPatterns => Vec::from_slice(alloc, b"too many patterns"),
        Refusal::PatternTooLarge => Vec::from_slice(alloc, b"the pattern is too large"),
        Refusal::PopTooFar => Vec::from_slice(alloc, b"pop below the first level"),
        Refusal::LevelsFull => Vec::from_slice(alloc, b"too many levels"),
        Refusal::TermsFull => Vec::from_slice(alloc, b"too many terms"),
        Refusal::NodesFull => Vec::from_slice(alloc, b"too many formula nodes"),
    }
}

/// The line of a command that is refused.
pub(crate) fn refusal_line(alloc: Global, fault: &SyntaxFault) -> Result<Vec<u8>, AllocError>
    ensures { IfOk result (λ text. text.items ≡ refusal_line fault.now) }
{
    let said = refusal_text(alloc, fault.refusal, fault.name.as_slice())?;
    error_line(alloc, fault.place, said.as_slice())
}

/// What is said where there is no room for a formula.
fn room_text(fault: EnterFault) -> &'static [u8]
    ensures { result.now ≡ room_text fault }
{
    match fault {
        EnterFault::TermsFull => b"too many terms",
        EnterFault::NodesFull => b"too many formula nodes",
        EnterFault::Memory => b"",
    }
}

/// The place of the first token of a command, or that of the first byte where it has none.
fn place_of(tree: &Tree) -> Place
    ensures { result ≡ unwrap_or (first_place tree.now) start }
{
    if tree.len() == 0 {
        return Place { line: 1, column: 1 };
    }
    tree.token(0).place
}

/// The line of an assertion or of a search for which there is no room.
pub(crate) fn room_line(
    alloc: Global,
    tree: &Tree,
    fault: EnterFault,
) -> Result<Vec<u8>, AllocError>
    ensures { IfOk result (λ text. text.items ≡ room_line tree.now fault) }
{
    error_line(alloc, place_of(tree), room_text(fault))
}
