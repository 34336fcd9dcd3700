//! Scripts without an error, and their answers.
use super::fixture::check_answers;
use em_outside::Limits;
use std::test::Fail;

pub(super) const DECLARED: &str =
    "(declare-sort U 0) (declare-fun f (U) U) (declare-fun g (U) U) (declare-fun k (U U) U) (declare-fun p (U) Bool) (declare-const a U) (declare-const b U) (declare-const c U)\n";

/// Scripts behind the declarations, and what they are answered by.
pub(super) const ANSWERS: &[(&str, &str)] = &[
    ("", ""),
    (
        "(assert (= (f a) (f a)))(assert (forall ((x U)) (! (= x x) :pattern ((f x)))))(check-sat)",
        "forall 1 trigger 1: 1\n  a\nsettled\n",
    ),
    // three tuples of two variables, in order: b came before a
    (
        "(assert (forall ((x U) (y U)) (! (= x y) :pattern ((k x y)))))(assert (= (k b a) (k b a)))(assert (= (k a b) (k a b)))(assert (= (k b b) (k b b)))(check-sat)",
        "forall 1 trigger 1: 3\n  b b\n  b a\n  a b\nsettled\n",
    ),
    ("(check-sat)", "settled\n"),
    // one tuple for each class
    (
        "(assert (= (f a) (f a)))(assert (= (f b) (f b)))(assert (= a b))(assert (forall ((x U)) (! (= x x) :pattern ((f x)))))(check-sat)",
        "forall 1 trigger 1: 1\n  a\nsettled\n",
    ),
    // a variable that stands twice is compared by class
    (
        "(assert (= (k a b) (k a b)))(assert (forall ((x U)) (! (= x x) :pattern ((k x x)))))(check-sat)(assert (= a b))(check-sat)",
        "forall 1 trigger 1: 0\nsettled\nforall 1 trigger 1: 1\n  a\nsettled\n",
    ),
    // an equation below the root makes a match
    (
        "(assert (= (f a) (f a)))(assert (forall ((x U)) (! (= x x) :pattern ((f (g x))))))(check-sat)(assert (= a (g b)))(check-sat)",
        "forall 1 trigger 1: 0\nsettled\nforall 1 trigger 1: 1\n  b\nsettled\n",
    ),
    // two patterns match together
    (
        "(assert (= (f a) (f a)))(assert (= (g b) (g b)))(assert (forall ((x U)) (! (= x x) :pattern ((f x) (g x)))))(check-sat)(assert (= a b))(check-sat)",
        "forall 1 trigger 1: 0\nsettled\nforall 1 trigger 1: 1\n  a\nsettled\n",
    ),
    // a pop takes an equation back
    (
        "(assert (= (f (f a)) (f (f a))))(assert (= (f (f b)) (f (f b))))(assert (forall ((x U)) (! (= x x) :pattern ((f (f x))))))(check-sat)(push 1)(assert (= a b))(check-sat)(pop 1)(check-sat)",
        "forall 1 trigger 1: 2\n  a\n  b\nsettled\nforall 1 trigger 1: 1\n  a\nsettled\nforall 1 trigger 1: 2\n  a\n  b\nsettled\n",
    ),
    // three and five applications that give a back give it at once
    (
        "(assert (= (f (f (f a))) a))(assert (= (f (f (f (f (f a))))) a))(assert (forall ((x U)) (! (= x x) :pattern ((f x)))))(check-sat)",
        "forall 1 trigger 1: 1\n  a\nsettled\n",
    ),
    // a class that holds its own application
    (
        "(assert (= a (f a)))(assert (forall ((x U)) (! (= x x) :pattern ((f (f x))))))(check-sat)",
        "forall 1 trigger 1: 1\n  a\nsettled\n",
    ),
    // a constant that is not present matches nothing
    (
        "(assert (= (k a b) (k a b)))(assert (forall ((x U)) (! (= x x) :pattern ((k x c)))))(check-sat)(assert (= b c))(check-sat)",
        "forall 1 trigger 1: 0\nsettled\nforall 1 trigger 1: 1\n  a\nsettled\n",
    ),
    // a name between bars is the same name, and has bars where it needs them
    (
        "(declare-const |x y| U) ; the same \" | as\n(assert (= (f |x y|) (f |a|)))(assert (|forall| ((|x| U)) (! (= x |x|) :pattern ((f x)))))(check-sat)",
        "forall 1 trigger 1: 2\n  |x y|\n  a\nsettled\n",
    ),
    // a term of more than 256 symbols is listed by its number
    (
        "(assert (let ((t1 (k a a))) (let ((t2 (k t1 t1))) (let ((t3 (k t2 t2))) (let ((t4 (k t3 t3))) (let ((t5 (k t4 t4))) (let ((t6 (k t5 t5))) (let ((t7 (k t6 t6))) (let ((t8 (k t7 t7))) (= (g t8) (g t8)))))))))))(assert (forall ((x U)) (! (= x x) :pattern ((g x)))))(check-sat)",
        "forall 1 trigger 1: 1\n  #10\nsettled\n",
    ),
    // a disjunction is not split
    (
        "(assert (or (= a b) (= a c)))(assert (= (f b) (f b)))(assert (forall ((x U)) (! (= x x) :pattern ((f x)))))(check-sat)",
        "forall 1 trigger 1: 1\n  b\nsettled\n",
    ),
    // a definition is unfolded, and formulas match as terms do
    (
        "(define-fun h ((x U)) U (f (g x)))(assert (p (h a)))(assert (forall ((x U)) (! (p (h x)) :pattern ((p (h x))))))(check-sat)",
        "forall 1 trigger 1: 1\n  a\nsettled\n",
    ),
    // a trigger goes with its level
    (
        "(push 1)(assert (forall ((x U)) (! (= x x) :pattern ((f x)))))(pop 1)(assert (= (f a) (f a)))(check-sat)",
        "settled\n",
    ),
];

#[test]
fn scripts_have_their_answers_also_byte_by_byte(rt: HostRuntime) -> Result<(), Fail> {
    check_answers(
        &rt,
        rt.alloc(),
        &Limits::standard(),
        &["matches"],
        DECLARED,
        ANSWERS,
        0,
    )
}

/// Scripts without an error, and their responses.
const RESPONSES: &[(&str, &str)] = &[
    (
        "(set-option :print-success true)(set-logic UF)(push 1)(get-info :assertion-stack-levels)(pop 1)(exit)(check-sat",
        "success\nsuccess\nsuccess\n(:assertion-stack-levels 1)\nsuccess\nsuccess\n",
    ),
    (
        "(get-info :name)(get-info :version)(get-info :authors)(get-info :error-behavior)(get-info :reason-unknown)(get-info :other)",
        "(:name \"ematch\")\n(:version \"1.0\")\n(:authors \"ematch\")\n(:error-behavior immediate-exit)\nunsupported\nunsupported\n",
    ),
    // success is printed by the new value, and at reset by the old one
    (
        "(set-option :print-success true)(set-option :print-success false)(set-option :print-success true)(push)(reset)(get-info :assertion-stack-levels)(set-logic UF)",
        "success\nsuccess\nsuccess\nsuccess\n(:assertion-stack-levels 0)\n",
    ),
    // reset-assertions leaves the option as it is, and nothing declared
    (
        "(set-option :print-success true)(declare-sort U 0)(push 2)(reset-assertions)(declare-sort U 0)(get-info :assertion-stack-levels)",
        "success\nsuccess\nsuccess\nsuccess\nsuccess\n(:assertion-stack-levels 0)\n",
    ),
    (
        "(set-option :auto_config false)(set-option :k)(set-info :k (a b))(echo \"x\")(get-model)(check-sat-assuming (a))",
        "unsupported\nunsupported\nunsupported\nunsupported\nunsupported\n",
    ),
    // names of functions and of sorts are two spaces of names, and a name after a pop is free
    (
        "(declare-sort U 0)(declare-fun U (U U) U)(push 1)(declare-const a U)(pop 1)(declare-const a U)(check-sat)",
        "settled\n",
    ),
];

#[test]
fn commands_have_their_responses(rt: HostRuntime) -> Result<(), Fail> {
    check_answers(
        &rt,
        rt.alloc(),
        &Limits::standard(),
        &["matches"],
        "",
        RESPONSES,
        0,
    )
}
