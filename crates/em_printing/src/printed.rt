//! Terms as text, put behind what was written before.
ghost use Rattle.std.specs.Prelude.{◌≡◌, ◌≤◌, ◌<◌, ◌-◌, ◌++◌, ℕ, length, decimal, MatchOption, OnOk};
ghost use Rattle.graph_meaning.specs.Standing.{terms_of};
ghost use Rattle.em_printing.specs.Names.{names_of};
ghost use Rattle.em_printing.specs.Printed.{symbol_text, HasTreeSize, IsTermText, IsPrinted};
ghost use Rattle.em_printing.specs.Writing.{Puts};

use graph_meaning::ClassGraph;
use itoa::Buffer;
use smt_commands::Session;
use smt_text::is_simple;
use std::alloc::AllocError;

/// The most symbols of a term that is written out.
const MOST_SYMBOLS: u32 = 256;

/// The name by which a symbol is written: those of true and false, which have the numbers 0 and 1, and of each declared
/// function.
fn name_of(session: &Session, symbol: u32) -> &[u8]
    ensures { result.now ≡ names_of session.now symbol }
{
    if symbol == 0 {
        return b"true";
    }
    if symbol == 1 {
        return b"false";
    }
    match session.name(symbol) {
        Some(name) => name,
        None => b"",
    }
}

/// Writes a symbol by its name.
fn push_symbol(text: &mut Vec<u8>, name: &[u8]) -> Result<(), AllocError>
    ensures { OnOk result (text.new.items ≡ text.old.items ++ symbol_text name.now) }
{
    if is_simple(name) {
        text.extend_from_slice(name)?;
        return Ok(());
    }
    text.push(b'|')?;
    text.extend_from_slice(name)?;
    text.push(b'|')?;
    Ok(())
}

/// Writes a number in decimal digits behind the text. `AllocError` comes for want of memory alone.
pub fn push_number(text: &mut Vec<u8>, number: u64) -> Result<(), AllocError>
    ensures { OnOk result (text.new.items ≡ text.old.items ++ decimal number) }
{
    let mut buffer = Buffer::new();
    text.extend_from_slice(buffer.format(number).as_bytes())?;
    Ok(())
}

/// What is left of so many symbols behind those of the term, or none where it has more.
fn left_after<G: ClassGraph>(graph: &G, term: u32, most: u32) -> Option<u32>
    requires { term < length (terms_of (G.standing graph.now)) }
    ensures { MatchOption result
        ((size : ℕ) → HasTreeSize (terms_of (G.standing graph.now)) term size → most < size)
        (λ left. HasTreeSize (terms_of (G.standing graph.now)) term (most - left) × (left ≤ most)) }
{
    if most == 0 {
        return None;
    }
    let _terms = graph.len();
    let args = &graph.row(term).args;
    let mut left = most - 1;
    for i in 0..args.len() {
        match left_after(graph, args.get(i), left) {
            Some(less) => left = less,
            None => return None,
        }
    }
    Some(left)
}

/// Writes a term out.
fn push_term<G: ClassGraph>(
    text: &mut Vec<u8>,
    session: &Session,
    graph: &G,
    term: u32,
) -> Result<(), AllocError>
    requires { term < length (terms_of (G.standing graph.now)) }
    ensures { OnOk result (Puts (IsTermText (names_of session.now) (terms_of (G.standing graph.now)) term) text.old.items text.new.items) }
{
    let _terms = graph.len();
    let row = graph.row(term);
    let name = name_of(session, row.symbol);
    if row.args.len() == 0 {
        push_symbol(text, name)?;
        return Ok(());
    }
    text.push(b'(')?;
    push_symbol(text, name)?;
    for i in 0..row.args.len() {
        text.push(b' ')?;
        push_term(text, session, graph, row.args.get(i))?;
    }
    text.push(b')')?;
    Ok(())
}

/// Writes a term behind the text, as the matches list it: see `write_term`. `AllocError` comes for want of memory alone.
pub fn push_printed<G: ClassGraph>(
    text: &mut Vec<u8>,
    session: &Session,
    graph: &G,
    term: u32,
) -> Result<(), AllocError>
    requires { term < length (terms_of (G.standing graph.now)) }
    ensures { OnOk result (Puts (IsPrinted (names_of session.now) (terms_of (G.standing graph.now)) term) text.old.items text.new.items) }
{
    let _terms = graph.len();
    match left_after(graph, term, MOST_SYMBOLS) {
        Some(_) => {
            push_term(text, session, graph, term)?;
            Ok(())
        }
        None => {
            text.push(b'#')?;
            push_number(text, u64::from(term))?;
            Ok(())
        }
    }
}
