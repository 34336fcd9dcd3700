//! Foralls with triggers, and how each trigger is refused.
use em_outside::{Limits, SureSource};
use formula_draft::{DraftForall, FormulaDraft};
use graph_terms::Numbers;
use graph_trigger::{PatternRow, Trigger};
use smt_names::{BoundNames, Refusal, SessionState, Signature, Stop};
use smt_terms::{Context, Inside, elaborate_term};
use smt_text::{Kind, Place, Tree, TreeReader};
use std::alloc::Global;
use std::process::Abort;
use std::test::Fail;

const HERE: Place = Place { line: 1, column: 1 };

/// What came of a formula.
#[derive(Clone, Copy, Debug, PartialEq, Eq)]
enum Came {
    /// A forall: how many rows and nodes there are, how many triggers and patterns of the first it has, and the symbol of
    /// the first pattern.
    Forall(u32, u32, u32, u32, u32),
    /// A refusal, at a column of the first line, and how long the name is that it speaks of.
    Refused(Refusal, u32, usize),
    /// No forall with a trigger that keeps to the rules, or no memory.
    Other,
}

use Came::{Forall, Refused};

fn declare(
    alloc: Global,
    state: &mut SessionState,
    name: &[u8],
    arguments: &[u32],
    sort: u32,
) -> Result<(), Stop> {
    let arguments = Numbers::from_slice(alloc, arguments)?;
    state.check_function_name(Kind::Symbol, HERE, name)?;
    state.declare_function(name, Signature { arguments, sort })?;
    Ok(())
}

/// A sort U, a predicate p of one argument, whose symbol is 2, and functions f of one and g of two, 3 and 4.
fn declared(alloc: Global) -> Result<SessionState, Stop> {
    let mut state = SessionState::new(alloc, &Limits::standard());
    state.check_sort_name(Kind::Symbol, HERE, b"U".as_slice())?;
    state.declare_sort(b"U".as_slice())?;
    declare(alloc, &mut state, b"p".as_slice(), &[1], 0)?;
    declare(alloc, &mut state, b"f".as_slice(), &[1], 1)?;
    declare(alloc, &mut state, b"g".as_slice(), &[1, 1], 1)?;
    Ok(state)
}

/// The symbol of a trigger's first pattern, and 0 where it has none.
fn first_symbol(trigger: &Trigger) -> u32 {
    let roots = trigger.roots.as_slice();
    if roots.len() == 0 {
        return 0;
    }
    let root = roots[0];
    if root >= trigger.rows.len() {
        return 0;
    }
    match trigger.rows.get(root) {
        PatternRow::Var { .. } => 0,
        PatternRow::App { symbol, .. } => *symbol,
    }
}

fn forall_so(rows: u32, nodes: u32, forall: &DraftForall) -> Came {
    if forall.triggers.len() == 0 {
        return Came::Other;
    }
    let first = forall.triggers.get(0);
    if !first.valid() {
        return Came::Other;
    }
    let patterns = first.roots.len();
    Forall(
        rows,
        nodes,
        forall.triggers.len(),
        patterns,
        first_symbol(first),
    )
}

/// What comes of the tree at the beginning of a command.
fn came_of_tree(alloc: Global, state: &SessionState, tree: &Tree) -> Came {
    let mut draft = FormulaDraft::new(alloc, 1000, 1000);
    let mut bound = BoundNames::new(alloc);
    let inside = Inside {
        in_forall: false,
        in_definition: false,
    };
    let context = Context {
        alloc,
        state,
        tree,
        inside,
    };
    match elaborate_term(&context, &mut draft, &mut bound, 0, HERE) {
        Err(Stop::Memory) => Came::Other,
        Err(Stop::Refused(fault)) => Refused(
            fault.refusal,
            fault.place.column,
            fault.name.as_slice().len(),
        ),
        Ok(_) => {
            if draft.foralls() == 0 {
                return Came::Other;
            }
            forall_so(draft.rows(), draft.nodes(), draft.forall_at(0))
        }
    }
}

/// What comes of a formula.
fn came_of(alloc: Global, state: &SessionState, text: &str) -> Result<Came, Fail> {
    let mut reader = TreeReader::new(alloc, &Limits::standard())?;
    let mut source = SureSource::new(text.as_bytes().to_vec(alloc)?, 4096);
    match reader.next_tree(&mut source)? {
        None => Ok(Came::Other),
        Some(tree) => Ok(came_of_tree(alloc, state, &tree)),
    }
}

/// Each formula comes to this.
fn check(rt: &impl Abort, alloc: Global, rows: &[(&'static str, Came)]) -> Result<(), Fail> {
    let state = declared(alloc)?;
    for (text, came) in rows {
        let found = came_of(alloc, &state, text)?;
        assert_eq!(rt; found, *came, "{text}");
    }
    Ok(())
}

const FORALLS: &[(&str, Came)] = &[
    (
        "(forall ((x U)) (! (p x) :pattern ((p x))))",
        Forall(2, 3, 1, 1, 2),
    ),
    (
        "(forall ((x U) (y U)) (! (= (g x (f y)) x) :pattern ((f x) (f y)) :pattern ((g x (f y)))))",
        Forall(5, 3, 2, 2, 3),
    ),
    (
        "(forall ((x U)) (! (! (p x) :named n :pattern ((p x))) :pattern ((f x))))",
        Forall(3, 3, 2, 1, 3),
    ),
    (
        "(let ((c true)) (forall ((x U)) (! (and (p x) c) :pattern ((! (p x) :named n)))))",
        Forall(2, 7, 1, 1, 2),
    ),
];

#[test]
fn foralls_have_their_triggers_in_order(rt: HostRuntime) -> Result<(), Fail> {
    check(&rt, rt.alloc(), FORALLS)
}

const FAULTS: &[(&str, Came)] = &[
    (
        "(forall ((x U)) (p x))",
        Refused(Refusal::NotInProfile, 2, 0),
    ),
    (
        "(forall ((x U)) (! (f x) :pattern ((p x))))",
        Refused(Refusal::WrongSort, 20, 0),
    ),
    (
        "(forall ((x U)) (! (p x) :pattern))",
        Refused(Refusal::BadForm, 26, 0),
    ),
    (
        "(forall ((x U)) (! (p x) :pattern :named n))",
        Refused(Refusal::BadForm, 26, 0),
    ),
    (
        "(forall ((x U)) (! (p x) :pattern x))",
        Refused(Refusal::BadForm, 35, 0),
    ),
    (
        "(forall ((x U)) (! (p x) :pattern ()))",
        Refused(Refusal::BadForm, 35, 0),
    ),
    (
        "(forall ((x U)) (! (p x) :pattern (x)))",
        Refused(Refusal::PatternIsVariable, 36, 0),
    ),
    (
        "(forall ((x U)) (! (p x) :pattern ((not (p x)))))",
        Refused(Refusal::PatternHasConnective, 36, 0),
    ),
    (
        "(forall ((x U)) (! (p x) :pattern ((f x) (= x x))))",
        Refused(Refusal::PatternHasConnective, 42, 0),
    ),
    (
        "(forall ((x U)) (! (p x) :pattern ((p x) 3)))",
        Refused(Refusal::NotInProfile, 42, 0),
    ),
    (
        "(forall ((x U)) (! (p x) :pattern ((forall ((y U)) (p y)))))",
        Refused(Refusal::NotInProfile, 37, 0),
    ),
];

#[test]
fn each_fault_of_a_trigger_has_its_place(rt: HostRuntime) -> Result<(), Fail> {
    check(&rt, rt.alloc(), FAULTS)
}

const LARGE: &[(&str, Came)] = &[
    (
        "(forall ((x U) (why U)) (! (p x) :pattern ((p x) (f x))))",
        Refused(Refusal::PatternWithoutVariable, 43, 3),
    ),
    (
        "(forall ((x U)) (! (p x) :pattern ((p x) (p x) (p x) (p x) (p x) (p x) (p x) (p x) (p x) (p x) (p x) (p x) (p x) (p x) (p x) (p x))))",
        Forall(2, 3, 1, 16, 2),
    ),
    (
        "(forall ((x U)) (! (p x) :pattern (x (p x) (p x) (p x) (p x) (p x) (p x) (p x) (p x) (p x) (p x) (p x) (p x) (p x) (p x) (p x) h)))",
        Refused(Refusal::TooManyPatterns, 128, 0),
    ),
    (
        "(forall ((x U)) (! (p x) :pattern ((let ((x (g x x))) (let ((x (g x x))) (let ((x (g x x))) (let ((x (g x x))) (let ((x (g x x))) (let ((x (g x x))) (let ((x (g x x))) (f x))))))))))))",
        Forall(10, 3, 1, 1, 3),
    ),
    (
        "(forall ((x U)) (! (p x) :pattern ((let ((x (g x x))) (let ((x (g x x))) (let ((x (g x x))) (let ((x (g x x))) (let ((x (g x x))) (let ((x (g x x))) (let ((x (g x x))) (f (f x)))))))))))))",
        Refused(Refusal::PatternTooLarge, 36, 0),
    ),
];

#[test]
fn a_trigger_has_each_variable_and_not_too_much(rt: HostRuntime) -> Result<(), Fail> {
    check(&rt, rt.alloc(), LARGE)
}
