//! Checks of the arguments of a name.
ghost use Rattle.std.specs.Prelude.{◌≡◌, ◌<◌, length, IfOk, true};
ghost use Rattle.smt_names.specs.Makes.{Checks};
ghost use Rattle.smt_names.specs.Names.{Core};
ghost use Rattle.smt_forms.specs.Applied.{arity_of, sort_at, wanted_by, right_sorts, right_branches, right_complements, needs, has_needed};

use graph_terms::Memory;
use smt_names::{Arg, Connective, Refusal, Stop, Value};
use smt_text::Place;
use std::alloc::Global;

/// Whether a connective takes so many parts.
pub(crate) fn takes(connective: Connective, count: usize) -> bool
    ensures { result ≡ arity_of connective count }
{
    match connective {
        Connective::True => count == 0,
        Connective::False => count == 0,
        Connective::Not => count == 1,
        Connective::And => 1 <= count,
        Connective::Or => 1 <= count,
        Connective::Implies => 2 <= count,
        Connective::Xor => 2 <= count,
        Connective::Equals => 2 <= count,
        Connective::Distinct => 2 <= count,
        Connective::Ite => count == 3,
    }
}

/// The sort of the argument at a place, Bool where there is none.
pub(crate) fn sort_of_arg(args: &[Arg], n: usize) -> u32
    ensures { result ≡ sort_at n args.now }
{
    if n < args.len() {
        args[n].value.sort()
    } else {
        0
    }
}

/// The sorts that a connective wants of its arguments.
fn wanted_sorts(alloc: Global, connective: Connective, args: &[Arg]) -> Result<Vec<u32>, Memory>
    ensures { IfOk result (λ wanted. wanted.items ≡ wanted_by connective args.now) }
{
    let mut wanted = Vec::new(alloc);
    match connective {
        Connective::Ite => {
            let branch = sort_of_arg(args, 1);
            wanted.push(0)?;
            wanted.push(branch)?;
            wanted.push(branch)?;
        }
        Connective::Equals | Connective::Distinct => {
            let first = sort_of_arg(args, 0);
            wanted.resize(args.len(), first)?;
        }
        Connective::True
        | Connective::False
        | Connective::Not
        | Connective::And
        | Connective::Or
        | Connective::Implies
        | Connective::Xor => {
            wanted.resize(args.len(), 0)?;
        }
    }
    Ok(wanted)
}

/// The first argument whose sort is not the wanted one is refused.
pub(crate) fn check_sorts(alloc: Global, wanted: &[u32], args: &[Arg]) -> Result<(), Stop>
    requires { length wanted.now ≡ length args.now }
    ensures { Checks result (right_sorts wanted.now args.now) }
{
    let mut i = 0;
    while i < args.len() {
        if args[i].value.sort() != wanted[i] {
            return Err(Stop::at(alloc, Refusal::WrongSort, args[i].place));
        }
        i += 1;
    }
    Ok(())
}

/// The sorts of the arguments of a connective, of which there are as many as it takes.
#[tactic(auto, using(crate::proofs::Wanted::length_wanted))]
pub(crate) fn check_core_sorts(
    alloc: Global,
    connective: Connective,
    args: &[Arg],
) -> Result<(), Stop>
    requires { arity_of connective (length args.now) ≡ true }
    ensures { Checks result (right_sorts (wanted_by connective args.now) args.now) }
{
    let wanted = wanted_sorts(alloc, connective, args)?;
    check_sorts(alloc, &wanted, args)
}

/// Branches that are no formulas are refused.
pub(crate) fn check_branches(
    alloc: Global,
    connective: Connective,
    head: Place,
    args: &[Arg],
) -> Result<(), Stop>
    ensures { Checks result (right_branches head (Core connective) args.now) }
{
    match connective {
        Connective::Ite => {
            if sort_of_arg(args, 1) == 0 {
                Ok(())
            } else {
                Err(Stop::at(alloc, Refusal::NotInProfile, head))
            }
        }
        Connective::True => Ok(()),
        Connective::False => Ok(()),
        Connective::Not => Ok(()),
        Connective::And => Ok(()),
        Connective::Or => Ok(()),
        Connective::Implies => Ok(()),
        Connective::Xor => Ok(()),
        Connective::Equals => Ok(()),
        Connective::Distinct => Ok(()),
    }
}

/// Whether the form needs the complement of the argument at place k of n, where the first has that sort.
fn wants_complement(connective: Connective, k: usize, n: usize, sort: u32) -> bool
    requires { k < n }
    ensures { result ≡ needs connective k n sort }
{
    match connective {
        Connective::Not => true,
        Connective::Implies => k + 1 < n,
        Connective::Xor => true,
        Connective::Equals => sort == 0,
        Connective::Distinct => sort == 0 && n == 2,
        Connective::Ite => k == 0,
        Connective::True => false,
        Connective::False => false,
        Connective::And => false,
        Connective::Or => false,
    }
}

/// Whether the argument has the complement, where the form needs it.
fn is_complete(connective: Connective, k: usize, n: usize, sort: u32, value: &Value) -> bool
    requires { k < n }
    ensures { result ≡ has_needed connective k n sort value.now }
{
    if wants_complement(connective, k, n, sort) {
        value.complement().is_some()
    } else {
        true
    }
}

/// The first argument that lacks a complement which the form needs is refused.
pub(crate) fn check_complements(
    alloc: Global,
    connective: Connective,
    sort: u32,
    args: &[Arg],
) -> Result<(), Stop>
    ensures { Checks result (right_complements connective 0 (length args.now) sort args.now) }
{
    let mut k = 0;
    while k < args.len() {
        if !is_complete(connective, k, args.len(), sort, &args[k].value) {
            return Err(Stop::at(alloc, Refusal::NotInProfile, args[k].place));
        }
        k += 1;
    }
    Ok(())
}
