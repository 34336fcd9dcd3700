//! Scripts with foralls and their verdicts.
use super::fixture::check_answers;
use em_outside::Limits;
use std::alloc::Global;
use std::process::Abort;
use std::test::Fail;

const DECLARED: &str =
    "(declare-sort U 0)(declare-fun f (U) U)(declare-fun g (U) U)(declare-fun k (U U) U)(declare-fun p (U) Bool)(declare-const a U)(declare-const b U)(declare-const c U)\n";

/// Under the words the scripts behind the declarations are answered so.
fn check_solved(
    rt: &impl Abort,
    alloc: Global,
    words: &[&str],
    answers: &[(&str, &str)],
) -> Result<(), Fail> {
    check_answers(rt, alloc, &Limits::standard(), words, DECLARED, answers, 0)
}

#[test]
fn instances_and_equations_refute_what_is_asserted(rt: HostRuntime) -> Result<(), Fail> {
    let answers = [(
        "(assert (forall ((x U)) (! (= (f (g x)) x) :pattern ((g x)))))(assert (= (g a) (g b)))(assert (not (= a b)))(check-sat)",
        "unsat\n",
    )];
    check_solved(&rt, rt.alloc(), &["solve"], &answers)
}

#[test]
fn a_search_with_nothing_new_is_unknown_and_incomplete(rt: HostRuntime) -> Result<(), Fail> {
    let answers = [(
        "(assert (forall ((x U)) (! (= (f (g x)) x) :pattern ((g x)))))(assert (= (g a) c))(assert (not (= a b)))(check-sat)(get-info :reason-unknown)",
        "unknown\n(:reason-unknown incomplete)\n",
    )];
    check_solved(&rt, rt.alloc(), &["solve"], &answers)
}

#[test]
fn a_search_without_an_end_is_unknown_when_its_rounds_are_spent(
    rt: HostRuntime,
) -> Result<(), Fail> {
    let answers = [(
        "(assert (p (f a)))(assert (forall ((x U)) (! (p (f (f x))) :pattern ((f x)))))(check-sat)(get-info :reason-unknown)",
        "unknown\n(:reason-unknown rounds)\n",
    )];
    check_solved(&rt, rt.alloc(), &["--rounds", "3", "solve"], &answers)?;
    check_solved(&rt, rt.alloc(), &["solve"], &answers)
}

#[test]
fn as_many_rounds_are_entered_as_the_words_say(rt: HostRuntime) -> Result<(), Fail> {
    let script =
        "(assert (p (f a)))(assert (not (p (f (f (f a))))))(assert (forall ((x U)) (! (=> (p x) (p (f x))) :pattern ((p x)))))(check-sat)";
    check_solved(
        &rt,
        rt.alloc(),
        &["--rounds", "0", "solve"],
        &[(script, "unknown\n")],
    )?;
    check_solved(&rt, rt.alloc(), &["solve"], &[(script, "unsat\n")])
}

#[test]
fn each_half_of_a_split_is_refuted_by_its_own_instances(rt: HostRuntime) -> Result<(), Fail> {
    let answers = [(
        "(assert (or (= a b) (= a c)))(assert (p a))(assert (= (f b) (f b)))(assert (= (f c) (f c)))(assert (forall ((x U)) (! (not (p x)) :pattern ((f x)))))(check-sat)",
        "unsat\n",
    )];
    check_solved(&rt, rt.alloc(), &["solve"], &answers)
}

#[test]
fn a_forall_that_is_not_asserted_keeps_nothing_open(rt: HostRuntime) -> Result<(), Fail> {
    let answers = [(
        "(assert (or (p a) (forall ((x U)) (! (p x) :pattern ((p x))))))(check-sat)",
        "sat\n",
    )];
    check_solved(&rt, rt.alloc(), &["solve"], &answers)
}

#[test]
fn a_reason_is_known_until_the_next_check_or_reset(rt: HostRuntime) -> Result<(), Fail> {
    let answers = [
        (
            "(get-info :reason-unknown)(assert (forall ((x U)) (! (p x) :pattern ((f x)))))(check-sat)(push 1)(assert (= (f a) a))(get-info :reason-unknown)(assert (not (p a)))(check-sat)(get-info :reason-unknown)",
            "unsupported\nunknown\n(:reason-unknown incomplete)\nunsat\nunsupported\n",
        ),
        (
            "(assert (forall ((x U)) (! (p x) :pattern ((f x)))))(check-sat)(reset-assertions)(get-info :reason-unknown)(check-sat)(get-info :reason-unknown)",
            "unknown\n(:reason-unknown incomplete)\nsat\nunsupported\n",
        ),
        (
            "(assert (forall ((x U)) (! (p x) :pattern ((f x)))))(check-sat)(reset)(get-info :reason-unknown)",
            "unknown\nunsupported\n",
        ),
    ];
    check_solved(&rt, rt.alloc(), &["solve"], &answers)
}

#[test]
fn a_search_past_a_limit_ends_the_run_with_its_line(rt: HostRuntime) -> Result<(), Fail> {
    let few = Limits {
        terms: 5,
        ..Limits::standard()
    };
    let script =
        "(assert (p (f a)))(assert (forall ((x U)) (! (p (f (f x))) :pattern ((f x)))))(check-sat)(check-sat)";
    let refused = [(script, "(error \"line 2 column 79: too many terms\")\n")];
    check_answers(&rt, rt.alloc(), &few, &["solve"], DECLARED, &refused, 1)
}
