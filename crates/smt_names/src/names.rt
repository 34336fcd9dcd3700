//! Names with a meaning of their own.
ghost use Rattle.std.specs.Prelude.{◌≡◌, ◌&&◌, not};
ghost use Rattle.smt_names.specs.Names.{connective, is_reserved, is_solver_name, is_symbol, is_keyword, is_numeral, word_of, lawful_name, new_name};
ghost use Rattle.smt_names.specs.Makes.{Checks};

use crate::connective::Connective;
use crate::refusal::Refusal;
use crate::stop::Stop;
use smt_text::{Kind, Place};
use std::alloc::Global;

/// What a name of the core theory stands for.
#[tactic(auto, unfolding(crate::specs::Names::connective))]
pub fn connective_of(name: &[u8]) -> Option<Connective>
    ensures { result ≡ connective name.now }
{
    if name == b"true".as_slice() {
        return Some(Connective::True);
    }
    if name == b"false".as_slice() {
        return Some(Connective::False);
    }
    if name == b"not".as_slice() {
        return Some(Connective::Not);
    }
    if name == b"and".as_slice() {
        return Some(Connective::And);
    }
    if name == b"or".as_slice() {
        return Some(Connective::Or);
    }
    if name == b"=>".as_slice() {
        return Some(Connective::Implies);
    }
    if name == b"xor".as_slice() {
        return Some(Connective::Xor);
    }
    if name == b"=".as_slice() {
        return Some(Connective::Equals);
    }
    if name == b"distinct".as_slice() {
        return Some(Connective::Distinct);
    }
    if name == b"ite".as_slice() {
        return Some(Connective::Ite);
    }
    None
}

/// Whether the name is one of the eight that are never declared, defined or bound.
#[tactic(auto, unfolding(crate::specs::Names::is_reserved))]
pub fn is_reserved(name: &[u8]) -> bool
    ensures { result ≡ is_reserved name.now }
{
    name == b"!".as_slice()
        || name == b"_".as_slice()
        || name == b"as".as_slice()
        || name == b"exists".as_slice()
        || name == b"forall".as_slice()
        || name == b"let".as_slice()
        || name == b"match".as_slice()
        || name == b"par".as_slice()
}

/// Whether the name is left to solvers.
pub(crate) fn is_solver_name(name: &[u8]) -> bool
    ensures { result ≡ is_solver_name name.now }
{
    match name {
        [] => false,
        [first, ..] => *first == b'@' || *first == b'.',
    }
}

/// Whether it is a symbol.
pub fn is_symbol(kind: Kind) -> bool
    ensures { result ≡ is_symbol kind }
{
    kind == Kind::Symbol
}

/// Whether it is a keyword.
pub fn is_keyword(kind: Kind) -> bool
    ensures { result ≡ is_keyword kind }
{
    kind == Kind::Keyword
}

/// Whether it is a numeral.
pub fn is_numeral(kind: Kind) -> bool
    ensures { result ≡ is_numeral kind }
{
    kind == Kind::Numeral
}

/// Whether the token is a symbol that is not reserved.
fn is_lawful(kind: Kind, name: &[u8]) -> bool
    ensures { result ≡ (is_symbol kind && not (is_reserved name.now)) }
{
    is_symbol(kind) && !is_reserved(name)
}

/// A name that may be bound: a symbol that is not reserved.
pub fn check_lawful_name(alloc: Global, kind: Kind, place: Place, name: &[u8]) -> Result<(), Stop>
    ensures { Checks result (lawful_name (word_of kind place name.now)) }
{
    if is_lawful(kind, name) {
        Ok(())
    } else {
        Err(Stop::at(alloc, Refusal::BadForm, place))
    }
}

/// A name that may be declared or defined: one that may be bound and is not left to solvers.
pub fn check_new_name(alloc: Global, kind: Kind, place: Place, name: &[u8]) -> Result<(), Stop>
    ensures { Checks result (new_name (word_of kind place name.now)) }
{
    check_lawful_name(alloc, kind, place, name)?;
    if is_solver_name(name) {
        return Err(Stop::at(alloc, Refusal::BadForm, place));
    }
    Ok(())
}
