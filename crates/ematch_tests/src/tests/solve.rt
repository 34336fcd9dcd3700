//! Ground scripts and their verdicts.
use super::fixture::{Faults, check_answers, run};
use em_outside::Limits;
use std::test::Fail;

const DECLARED: &str =
    "(declare-sort U 0)(declare-fun f (U) U)(declare-fun p (U) Bool)(declare-const a U)(declare-const b U)(declare-const c U)(declare-const q Bool)(declare-const r Bool)\n";

/// Scripts without foralls behind the declarations, and their verdicts.
const VERDICTS: &[(&str, &str)] = &[
    ("", ""),
    ("(check-sat)", "sat\n"),
    // the part that is left over is asserted, until nothing is
    (
        "(assert (or q r))(assert (not q))(check-sat)(assert (not r))(check-sat)",
        "sat\nunsat\n",
    ),
    // each half of a split closes
    ("(assert (xor q r))(assert (= q r))(check-sat)", "unsat\n"),
    // the first half closes, and the second does not
    (
        "(assert (or q r))(assert (or (not q) r))(assert (or (not q) (not r)))(check-sat)(assert (or q (not r)))(check-sat)",
        "sat\nunsat\n",
    ),
    // what a level says goes with it
    (
        "(push 1)(assert (p a))(assert (not (p a)))(check-sat)(pop 1)(check-sat)(reset-assertions)(check-sat)",
        "unsat\nsat\nsat\n",
    ),
    // equal arguments have equal values
    (
        "(assert (= a b))(assert (not (= (f a) (f b))))(check-sat)",
        "unsat\n",
    ),
    (
        "(assert (= a b))(assert (p a))(assert (not (p b)))(check-sat)",
        "unsat\n",
    ),
    // three and five applications that give a back give it at once
    (
        "(assert (= (f (f (f a))) a))(assert (= (f (f (f (f (f a))))) a))(check-sat)(assert (not (= (f a) a)))(check-sat)",
        "sat\nunsat\n",
    ),
    // a disjunction of equations, each of which is refuted
    (
        "(assert (or (= a b) (= a c)))(assert (not (= (f a) (f b))))(check-sat)(assert (not (= (f a) (f c))))(check-sat)",
        "sat\nunsat\n",
    ),
    // two classes for three terms that are pairwise distinct
    (
        "(assert (distinct a b c))(assert (or (= (f a) b) (= (f a) c)))(check-sat)(assert (= (f a) a))(check-sat)",
        "sat\nunsat\n",
    ),
    // a conditional, an implication and a definition
    (
        "(define-fun h ((x U)) Bool (=> (p x) q))(assert (h a))(assert (ite q (p a) (not (p a))))(assert (p a))(check-sat)(assert (not q))(check-sat)",
        "sat\nunsat\n",
    ),
    // a check changes nothing
    (
        "(assert (or q r))(check-sat)(check-sat)(push 1)(assert (not r))(check-sat)(assert (not q))(check-sat)(pop 1)(check-sat)",
        "sat\nsat\nsat\nunsat\nsat\n",
    ),
    (
        "(assert false)(check-sat)(get-info :reason-unknown)",
        "unsat\nunsupported\n",
    ),
];

#[test]
fn ground_scripts_have_their_verdicts(rt: HostRuntime) -> Result<(), Fail> {
    check_answers(
        &rt,
        rt.alloc(),
        &Limits::standard(),
        &["solve"],
        DECLARED,
        VERDICTS,
        0,
    )
}

/// Scripts with an error, and their lines.
const ERRORS: &[(&str, &str)] = &[
    (
        "(check-sat)\n(assert (",
        "sat\n(error \"line 3 column 1: the command is not closed\")\n",
    ),
    (
        "(assert (forall ((x U)) (! (p y) :pattern ((p x)))))",
        "(error \"line 2 column 31: unknown name y\")\n",
    ),
];

#[test]
fn errors_of_ground_scripts_have_their_lines(rt: HostRuntime) -> Result<(), Fail> {
    check_answers(
        &rt,
        rt.alloc(),
        &Limits::standard(),
        &["solve"],
        DECLARED,
        ERRORS,
        1,
    )
}

#[test]
fn a_read_that_fails_ends_what_is_solved(rt: HostRuntime) -> Result<(), Fail> {
    let first = Faults {
        reads: &[1],
        writes: &[],
    };
    let script = ["(declare-sort U 0)(check-sat)\n(assert ("];
    let left = run(
        rt.alloc(),
        &Limits::standard(),
        &["solve"],
        &script,
        100,
        first,
    )?;
    assert_eq!(rt; left.out.as_slice(), b"sat\n".as_slice());
    assert_eq!(rt; left.code, 3);
    assert_eq!(rt; left.err.as_slice(), b"ematch: read failed\n".as_slice());
    Ok(())
}
