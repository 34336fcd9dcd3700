//! Scripts with an error, and its line.
ghost use Rattle.em_outside.specs.Limits.{AreLawful};

use super::fixture::check_answers;
use em_outside::Limits;
use std::alloc::{AllocError, Global};
use std::test::Fail;

/// Limits on bytes and open parentheses that short scripts pass.
pub(super) fn narrow() -> Limits
    ensures { AreLawful result }
{
    Limits {
        bytes: 24,
        depth: 2,
        ..Limits::standard()
    }
}

/// Scripts with a fault of their bytes under narrow limits, and what they are answered by.
pub(super) const FAULTS: &[(&str, &str)] = &[
    (
        "(check-sat)\n(assert\n 01)",
        "settled\n(error \"line 3 column 3: byte not allowed here\")\n",
    ),
    (
        "(check-sat)\n \"",
        "settled\n(error \"line 2 column 2: a command must begin with (\")\n",
    ),
    (
        " (|a) ",
        "(error \"line 1 column 2: the command is not closed\")\n",
    ),
    (
        "((()))",
        "(error \"line 1 column 3: too many open parentheses\")\n",
    ),
    (
        "(check-sat)\n(check-sat)\n {",
        "settled\nsettled\n(error \"line 3 column 1: the script is too long\")\n",
    ),
];

#[test]
fn a_fault_of_the_bytes_has_its_line(rt: HostRuntime) -> Result<(), Fail> {
    check_answers(&rt, rt.alloc(), &narrow(), &["matches"], "", FAULTS, 1)
}

/// Scripts of one command that is refused, and the line of the error.
const REFUSALS: &[(&str, &str)] = &[
    (
        "(pop 1)",
        "(error \"line 1 column 6: pop below the first level\")\n",
    ),
    (
        "(pop)",
        "(error \"line 1 column 2: pop below the first level\")\n",
    ),
    (
        "(push 65537)",
        "(error \"line 1 column 7: too many levels\")\n",
    ),
    (
        "(declare-const a V)",
        "(error \"line 1 column 18: unknown name V\")\n",
    ),
    (
        "(declare-fun |a\"b| () |\"|)",
        "(error \"line 1 column 23: unknown name \"\"\")\n",
    ),
    (
        "(declare-sort Bool 0)",
        "(error \"line 1 column 15: Bool is already declared\")\n",
    ),
    (
        "(declare-fun and () Bool)",
        "(error \"line 1 column 14: and is already declared\")\n",
    ),
    (
        "(declare-sort U 1)",
        "(error \"line 1 column 17: not supported here\")\n",
    ),
    (
        "(declare-sort let 0)",
        "(error \"line 1 column 15: not a well-formed command\")\n",
    ),
    (
        "(declare-sort @a 0)",
        "(error \"line 1 column 15: not a well-formed command\")\n",
    ),
    (
        "(define-sort A () Bool)",
        "(error \"line 1 column 2: not supported here\")\n",
    ),
    (
        "(assert (not))",
        "(error \"line 1 column 10: wrong number of arguments of not\")\n",
    ),
    (
        "(assert true false)",
        "(error \"line 1 column 14: not a well-formed command\")\n",
    ),
    (
        "(assert)",
        "(error \"line 1 column 2: not a well-formed command\")\n",
    ),
    (
        "(assert #b0)",
        "(error \"line 1 column 9: not supported here\")\n",
    ),
    (
        "(assert (let ((x true) (x true)) x))",
        "(error \"line 1 column 25: not a well-formed command\")\n",
    ),
    (
        "()",
        "(error \"line 1 column 1: not a well-formed command\")\n",
    ),
    (
        "(nothing)",
        "(error \"line 1 column 2: not a well-formed command\")\n",
    ),
    (
        "(set-option :print-success 1)",
        "(error \"line 1 column 28: not a well-formed command\")\n",
    ),
];

#[test]
fn refusals_have_their_lines(rt: HostRuntime) -> Result<(), Fail> {
    check_answers(
        &rt,
        rt.alloc(),
        &Limits::standard(),
        &["matches"],
        "",
        REFUSALS,
        1,
    )
}

/// What scripts of terms declare.
const TERMS_DECLARED: &str =
    "(declare-sort U 0)(declare-fun f (U) U)(declare-fun p (U) Bool)(declare-const a U)\n";

/// Triggers and terms that are refused in the second line, and the line of the error.
const TERMS: &[(&str, &str)] = &[
    (
        "(assert (forall ((x U) (y U)) (! (= x y) :pattern ((f x)))))",
        "(error \"line 2 column 51: variable y is not in the trigger\")\n",
    ),
    (
        "(assert (forall ((x U)) (! (p x) :pattern (x))))",
        "(error \"line 2 column 44: a pattern must not be a variable\")\n",
    ),
    (
        "(assert (forall ((x U)) (! (p x) :pattern ((not (p x))))))",
        "(error \"line 2 column 44: a pattern must not hold connectives\")\n",
    ),
    (
        "(assert (f a))",
        "(error \"line 2 column 9: wrong sort\")\n",
    ),
    (
        "(assert (p true))",
        "(error \"line 2 column 12: wrong sort\")\n",
    ),
    (
        "(assert (p b))",
        "(error \"line 2 column 12: unknown name b\")\n",
    ),
    (
        "(assert (forall ((x U)) (p x)))",
        "(error \"line 2 column 10: not supported here\")\n",
    ),
];

#[test]
fn terms_are_refused_where_they_are_wrong(rt: HostRuntime) -> Result<(), Fail> {
    check_answers(
        &rt,
        rt.alloc(),
        &Limits::standard(),
        &["matches"],
        TERMS_DECLARED,
        TERMS,
        1,
    )
}

/// A script with a part so many times.
fn repeated(
    alloc: Global,
    before: &str,
    part: &str,
    count: u32,
    behind: &str,
) -> Result<String, AllocError> {
    let mut script = String::from_str(alloc, before)?;
    for _ in 0..count {
        script.push_str(part)?;
    }
    script.push_str(behind)?;
    Ok(script)
}

/// A forall with so many variables.
fn forall_of(alloc: Global, count: u32) -> Result<String, AllocError> {
    let mut script = String::from_str(alloc, "(assert (forall (")?;
    for i in 0..count {
        let binding = format!(in alloc; "(x{i} U)")?;
        script.push_str(binding.as_str())?;
    }
    script.push_str(") (p x0)))")?;
    Ok(script)
}

/// What stands before the patterns of a trigger.
const TRIGGER: &str = "(assert (forall ((x U)) (! (p x) :pattern (";

/// A trigger of one pattern that holds so many applications.
fn pattern_of(alloc: Global, count: u32) -> Result<String, AllocError> {
    let mut script = repeated(alloc, TRIGGER, "(f ", count, "x")?;
    for _ in 0..count {
        script.push_str(")")?;
    }
    script.push_str("))))")?;
    Ok(script)
}

#[test]
fn the_first_too_many_is_refused(rt: HostRuntime) -> Result<(), Fail> {
    let alloc = rt.alloc();
    let variables = forall_of(alloc, 33)?;
    let arguments = repeated(alloc, "(declare-fun g (", "U ", 256, ") U)")?;
    let patterns = repeated(alloc, TRIGGER, "(p x) ", 17, "))))")?;
    let size = pattern_of(alloc, 256)?;
    let answers = [
        (
            variables.as_str(),
            "(error \"line 2 column 233: too many variables\")\n",
        ),
        (
            arguments.as_str(),
            "(error \"line 2 column 527: too many arguments\")\n",
        ),
        (
            patterns.as_str(),
            "(error \"line 2 column 140: too many patterns\")\n",
        ),
        (
            size.as_str(),
            "(error \"line 2 column 44: the pattern is too large\")\n",
        ),
    ];
    check_answers(
        &rt,
        alloc,
        &Limits::standard(),
        &["matches"],
        TERMS_DECLARED,
        &answers,
        1,
    )
}

/// What scripts of two constants declare.
const PAIR_DECLARED: &str =
    "(declare-sort U 0)(declare-fun k (U U) U)(declare-const a U)(declare-const b U)\n";

/// A script that enters three terms.
const PAIR: &str = "(assert (= (k a b) (k a b)))";

#[test]
fn a_formula_has_room_for_as_many_terms_as_may_stand(rt: HostRuntime) -> Result<(), Fail> {
    let alloc = rt.alloc();
    let few = Limits {
        terms: 4,
        ..Limits::standard()
    };
    let full = [(PAIR, "(error \"line 2 column 1: too many terms\")\n")];
    check_answers(&rt, alloc, &few, &["matches"], PAIR_DECLARED, &full, 1)?;
    let enough = Limits { terms: 5, ..few };
    check_answers(
        &rt,
        alloc,
        &enough,
        &["matches"],
        PAIR_DECLARED,
        &[(PAIR, "")],
        0,
    )?;
    let no_node = Limits { nodes: 0, ..enough };
    let refused = [(
        "(assert true)",
        "(error \"line 1 column 9: too many formula nodes\")\n",
    )];
    check_answers(&rt, alloc, &no_node, &["matches"], "", &refused, 1)
}
