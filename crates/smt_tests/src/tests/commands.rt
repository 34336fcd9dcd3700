//! A session in which each command is answered, and refusals with their places and names.
use em_outside::{Limits, SureSource};
use formula_draft::Formula;
use smt_commands::{Command, Info, Session};
use smt_names::{Refusal, Stop};
use smt_text::TreeReader;
use std::alloc::Global;
use std::process::Abort;
use std::test::Fail;

/// What a command came to.
#[derive(Clone, Copy, Debug, PartialEq, Eq)]
enum Came {
    Silent,
    Unsupported,
    /// A formula of so many rows, nodes and foralls, which is this node.
    Asserts(u32, u32, u32, u32),
    Pushes(u32),
    Pops(u32),
    Checks,
    Asks(Info),
    Resets,
    Clears,
    Exits,
    /// A refusal at a column of the first line, and how long the name is that it speaks of.
    Refused(Refusal, u32, usize),
    NoMemory,
    NoCommand,
}

use Came::{
    Asks, Asserts, Checks, Clears, Exits, Pops, Pushes, Refused, Resets, Silent, Unsupported,
};
use Refusal::{
    AlreadyDeclared, BadForm, LevelsFull, NotInProfile, PopTooFar, UnknownName, WrongArity,
    WrongSort,
};

fn came_of_formula(formula: &Formula) -> Came {
    Asserts(
        formula.rows(),
        formula.nodes(),
        formula.foralls(),
        formula.root(),
    )
}

fn came_of(answer: Result<Command, Stop>) -> Came {
    match answer {
        Ok(Command::Silent) => Silent,
        Ok(Command::Unsupported) => Unsupported,
        Ok(Command::Assert { formula }) => came_of_formula(&formula),
        Ok(Command::Push { count }) => Pushes(count),
        Ok(Command::Pop { count }) => Pops(count),
        Ok(Command::CheckSat) => Checks,
        Ok(Command::GetInfo { info }) => Asks(info),
        Ok(Command::Reset) => Resets,
        Ok(Command::ResetAssertions) => Clears,
        Ok(Command::Exit) => Exits,
        Err(Stop::Memory) => Came::NoMemory,
        Err(Stop::Refused(fault)) => Refused(
            fault.refusal,
            fault.place.column,
            fault.name.as_slice().len(),
        ),
    }
}

/// Gives the session one command.
fn take(alloc: Global, session: &mut Session, text: &str) -> Result<Came, Fail> {
    let mut reader = TreeReader::new(alloc, &Limits::standard())?;
    let mut source = SureSource::new(text.as_bytes().to_vec(alloc)?, 4096);
    match reader.next_tree(&mut source)? {
        None => Ok(Came::NoCommand),
        Some(tree) => Ok(came_of(session.command(&tree))),
    }
}

/// Gives the session commands, one after another.
fn run(
    rt: &impl Abort,
    alloc: Global,
    session: &mut Session,
    script: &[(&'static str, Came)],
) -> Result<(), Fail> {
    for (text, came) in script {
        let found = take(alloc, session, text)?;
        assert_eq!(rt; found, *came, "{text}");
    }
    Ok(())
}

/// Whether a symbol has this name.
fn has_name(session: &Session, symbol: u32, name: &[u8]) -> bool {
    match session.name(symbol) {
        None => false,
        Some(found) => found == name,
    }
}

const DECLARATIONS: &[(&str, Came)] = &[
    ("(set-logic UF)", Silent),
    ("(set-option :print-success true)", Silent),
    ("(set-option :produce-models true)", Unsupported),
    ("(set-info :status sat)", Silent),
    ("(declare-sort U 0)", Silent),
    ("(declare-fun f (U) U)", Silent),
    ("(declare-fun p (U) Bool)", Silent),
    ("(declare-const c U)", Silent),
];

const LEVELS: &[(&str, Came)] = &[
    ("(push 2)", Pushes(2)),
    ("(define-fun d ((x U)) Bool (p (f x)))", Silent),
    ("(declare-const e U)", Silent),
    ("(assert (d c))", Asserts(3, 2, 0, 0)),
    ("(assert (not (d e)))", Asserts(3, 2, 0, 1)),
    (
        "(assert (forall ((x U)) (! (= (f x) c) :pattern ((f x)))))",
        Asserts(3, 3, 1, 2),
    ),
    ("(check-sat)", Checks),
    ("(get-info :name)", Asks(Info::Name)),
    ("(get-info :assertion-stack-levels)", Asks(Info::Levels)),
    ("(get-info :memory)", Asks(Info::Other)),
    ("(get-value (c))", Unsupported),
];

const AFTER_A_POP: &[(&str, Came)] = &[
    ("(pop)", Pops(1)),
    ("(assert (d c))", Refused(UnknownName, 10, 1)),
    ("(push)", Pushes(1)),
    ("(pop 2)", Pops(2)),
];

const ENDING: &[(&str, Came)] = &[
    ("(reset-assertions)", Clears),
    ("(declare-const c Bool)", Silent),
    ("(assert c)", Asserts(1, 2, 0, 0)),
];

const LAST: &[(&str, Came)] = &[
    ("(reset)", Resets),
    ("(assert c)", Refused(UnknownName, 9, 1)),
    ("(exit)", Exits),
];

#[test]
fn a_session_answers_each_command(rt: HostRuntime) -> Result<(), Fail> {
    let alloc = rt.alloc();
    let mut session = Session::new(alloc, &Limits::standard());
    run(&rt, alloc, &mut session, DECLARATIONS)?;
    assert!(rt; session.prints_success());
    assert!(rt; has_name(&session, 2, b"f".as_slice()));
    run(&rt, alloc, &mut session, LEVELS)?;
    assert_eq!(rt; session.levels(), 2);
    assert!(rt; has_name(&session, 5, b"e".as_slice()));
    run(&rt, alloc, &mut session, AFTER_A_POP)?;
    assert_eq!(rt; session.levels(), 0);
    assert!(rt; !has_name(&session, 5, b"e".as_slice()));
    run(&rt, alloc, &mut session, ENDING)?;
    assert!(rt; session.prints_success());
    run(&rt, alloc, &mut session, LAST)?;
    assert!(rt; !session.prints_success());
    Ok(())
}

const STANDING: &[(&str, Came)] = &[
    ("(declare-sort U 0)", Silent),
    ("(declare-fun f (U) U)", Silent),
    ("(declare-fun p (U) Bool)", Silent),
    ("(declare-const c U)", Silent),
    ("(define-fun d ((x U)) Bool (p x))", Silent),
];

const REFUSALS: &[(&str, Came)] = &[
    ("()", Refused(BadForm, 1, 0)),
    ("((push))", Refused(BadForm, 2, 0)),
    ("(3)", Refused(BadForm, 2, 0)),
    ("(frobnicate)", Refused(BadForm, 2, 0)),
    ("(define-sort A () U)", Refused(NotInProfile, 2, 0)),
    ("(set-logic)", Refused(BadForm, 2, 0)),
    ("(set-logic 3)", Refused(BadForm, 12, 0)),
    ("(set-logic A B)", Refused(BadForm, 14, 0)),
    ("(set-option :print-success maybe)", Refused(BadForm, 28, 0)),
    ("(set-option :k :v)", Refused(BadForm, 16, 0)),
    ("(set-info k)", Refused(BadForm, 11, 0)),
    ("(push -1)", Refused(BadForm, 7, 0)),
    ("(push 1 1)", Refused(BadForm, 9, 0)),
    ("(push 65537)", Refused(LevelsFull, 7, 0)),
    (
        "(push 340282366920938463463374607431768211456)",
        Refused(BadForm, 7, 0),
    ),
    ("(pop)", Refused(PopTooFar, 2, 0)),
    ("(pop 1)", Refused(PopTooFar, 6, 0)),
    ("(check-sat 1)", Refused(BadForm, 12, 0)),
    ("(get-info)", Refused(BadForm, 2, 0)),
    ("(get-info name)", Refused(BadForm, 11, 0)),
    ("(exit 0)", Refused(BadForm, 7, 0)),
];

const NAMES: &[(&str, Came)] = &[
    ("(declare-sort U 1)", Refused(AlreadyDeclared, 15, 1)),
    ("(declare-sort Bool 0)", Refused(AlreadyDeclared, 15, 4)),
    ("(declare-sort V 1)", Refused(NotInProfile, 17, 0)),
    ("(declare-sort @V 0)", Refused(BadForm, 15, 0)),
    ("(declare-sort let 0)", Refused(BadForm, 15, 0)),
    ("(declare-fun d () U)", Refused(AlreadyDeclared, 14, 1)),
    ("(declare-fun and () U)", Refused(AlreadyDeclared, 14, 3)),
    ("(declare-fun g U U)", Refused(BadForm, 16, 0)),
    ("(declare-fun g (Bool) U)", Refused(NotInProfile, 17, 0)),
    ("(declare-fun g (U) Wide)", Refused(UnknownName, 20, 4)),
    ("(declare-const c U)", Refused(AlreadyDeclared, 16, 1)),
    ("(declare-const e (U))", Refused(NotInProfile, 18, 0)),
];

const TERMS: &[(&str, Came)] = &[
    (
        "(define-fun f ((x Bool)) W zz)",
        Refused(AlreadyDeclared, 13, 1),
    ),
    (
        "(define-fun e ((x Bool)) W zz)",
        Refused(NotInProfile, 19, 0),
    ),
    ("(define-fun e ((x U)) W zz)", Refused(UnknownName, 23, 1)),
    ("(define-fun e ((x U)) U zz)", Refused(UnknownName, 25, 2)),
    ("(define-fun e ((x U)) Bool x)", Refused(WrongSort, 28, 0)),
    ("(define-fun e ((x U) (x U)) U x)", Refused(BadForm, 23, 0)),
    (
        "(define-fun e () Bool (forall ((x U)) (! (p x) :pattern ((p x)))))",
        Refused(NotInProfile, 24, 0),
    ),
    ("(assert)", Refused(BadForm, 2, 0)),
    ("(assert true true)", Refused(BadForm, 14, 0)),
    ("(assert c)", Refused(WrongSort, 9, 0)),
    ("(assert (p q))", Refused(UnknownName, 12, 1)),
    ("(assert (d))", Refused(WrongArity, 10, 1)),
    ("(assert (d c))", Asserts(2, 2, 0, 0)),
];

/// A binding that lacks a part is refused at its head, and at its parenthesis where it has none.
const BINDINGS: &[(&str, Came)] = &[
    ("(assert (let ((x)) true))", Refused(BadForm, 16, 0)),
    ("(assert (forall ((x)) (p x)))", Refused(BadForm, 19, 0)),
    ("(define-fun e ((x)) U c)", Refused(BadForm, 17, 0)),
    ("(assert (let (()) true))", Refused(BadForm, 15, 0)),
    ("(assert (let (((f c))) true))", Refused(BadForm, 15, 0)),
    ("(assert (let ((x c c)) true))", Refused(BadForm, 20, 0)),
    ("(assert (let (((f c) c)) true))", Refused(BadForm, 16, 0)),
];

#[test]
fn a_binding_that_lacks_a_part_is_refused_at_its_head(rt: HostRuntime) -> Result<(), Fail> {
    let alloc = rt.alloc();
    let mut session = Session::new(alloc, &Limits::standard());
    run(&rt, alloc, &mut session, STANDING)?;
    run(&rt, alloc, &mut session, BINDINGS)
}

#[test]
fn a_refusal_has_its_place_and_its_name(rt: HostRuntime) -> Result<(), Fail> {
    let alloc = rt.alloc();
    let mut session = Session::new(alloc, &Limits::standard());
    run(&rt, alloc, &mut session, STANDING)?;
    run(&rt, alloc, &mut session, REFUSALS)?;
    run(&rt, alloc, &mut session, NAMES)?;
    run(&rt, alloc, &mut session, TERMS)
}
