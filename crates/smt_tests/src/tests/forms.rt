//! Each connective, a declared function and a definition once.
use em_outside::Limits;
use formula_draft::{DraftNode, DraftRow, FormulaDraft};
use graph_terms::Numbers;
use smt_forms::{Site, apply, put_node, put_row};
use smt_names::{Arg, Connective, Definition, Head, Refusal, SessionState, Signature, Stop, Value};
use smt_text::{Kind, Place};
use std::alloc::{AllocError, Global};
use std::test::Fail;

const HERE: Place = Place { line: 1, column: 9 };

const SITE: Site = Site {
    at: HERE,
    head: HERE,
};

fn arg(value: Value) -> Arg {
    Arg { place: HERE, value }
}

/// A formula with a complement.
fn formula(itself: u32, complement: u32) -> Arg {
    arg(Value::Formula {
        itself,
        complement: Some(complement),
    })
}

/// A term of the first declared sort.
fn term(row: u32) -> Arg {
    arg(Value::Term { row, sort: 1 })
}

/// What a connective is put over: formulas with complements, or terms.
#[derive(Clone, Copy)]
enum Over {
    Formulas,
    Terms,
}

/// Connectives, over so many arguments: how many nodes are put, and the node that it is.
const ROWS: &[(Connective, Over, usize, u32, u32)] = &[
    (Connective::True, Over::Formulas, 0, 2, 0),
    (Connective::Not, Over::Formulas, 1, 0, 31),
    (Connective::And, Over::Formulas, 3, 2, 0),
    (Connective::Xor, Over::Formulas, 3, 12, 10),
    (Connective::Equals, Over::Terms, 3, 6, 4),
    (Connective::Distinct, Over::Terms, 3, 8, 6),
    (Connective::Ite, Over::Formulas, 3, 6, 4),
];

/// At most three arguments.
fn args(alloc: Global, over: Over, count: usize) -> Result<Vec<Arg>, AllocError> {
    let three = match over {
        Over::Formulas => [formula(30, 31), formula(32, 33), formula(34, 35)],
        Over::Terms => [term(0), term(1), term(2)],
    };
    let mut args = Vec::from_slice(alloc, &three)?;
    args.truncate(count);
    Ok(args)
}

/// How many nodes a connective puts for these arguments, and the node that it is.
fn put(alloc: Global, connective: Connective, args: &[Arg]) -> Result<(u32, u32), Stop> {
    let mut draft = FormulaDraft::new(alloc, 100, 100);
    let state = SessionState::new(alloc, &Limits::standard());
    let head = Head::Core(connective);
    let value = apply(alloc, &mut draft, &state, SITE, b"", head, args)?;
    Ok((draft.nodes(), value.node()))
}

#[test]
fn each_connective_puts_its_nodes(rt: HostRuntime) -> Result<(), Fail> {
    for (connective, over, count, nodes, node) in ROWS {
        let args = args(rt.alloc(), *over, *count)?;
        let found = put(rt.alloc(), *connective, args.as_slice())?;
        assert_eq!(rt; found, (*nodes, *node), "{connective:?}");
    }
    Ok(())
}

/// Declares a sort and a function of one argument.
fn declare(alloc: Global, state: &mut SessionState) -> Result<(), Stop> {
    state.check_sort_name(Kind::Symbol, HERE, b"U".as_slice())?;
    state.declare_sort(b"U".as_slice())?;
    let arguments = Numbers::from_slice(alloc, &[1])?;
    state.check_function_name(Kind::Symbol, HERE, b"p".as_slice())?;
    state.declare_function(b"p".as_slice(), Signature { arguments, sort: 0 })?;
    Ok(())
}

/// The atom of the function for a parameter.
fn atom(alloc: Global, state: &SessionState) -> Result<Definition, Stop> {
    let mut draft = FormulaDraft::new(alloc, 100, 100);
    let row = put_row(alloc, &mut draft, HERE, DraftRow::Var { index: 0 })?;
    let args = [term(row)];
    let p = b"p".as_slice();
    let head = Head::Function(0);
    let value = apply(alloc, &mut draft, state, SITE, p, head, &args)?;
    let parameters = Numbers::from_slice(alloc, &[1])?;
    Ok(Definition {
        parameters,
        sort: 0,
        draft,
        value,
    })
}

/// A function p of one argument, and the definition d of its atom for a parameter.
fn declared(alloc: Global) -> Result<SessionState, Stop> {
    let mut state = SessionState::new(alloc, &Limits::standard());
    declare(alloc, &mut state)?;
    let definition = atom(alloc, &state)?;
    state.check_function_name(Kind::Symbol, HERE, b"d".as_slice())?;
    state.define(b"d".as_slice(), definition)?;
    Ok(state)
}

/// A constant, and the definition of it: how many rows and nodes there are, and the node of the value.
fn defined(alloc: Global, state: &SessionState) -> Result<(u32, u32, u32), Stop> {
    let mut draft = FormulaDraft::new(alloc, 100, 100);
    let args = Numbers::from_slice(alloc, &[])?;
    let row = put_row(alloc, &mut draft, HERE, DraftRow::App { symbol: 9, args })?;
    let parts = Numbers::from_slice(alloc, &[])?;
    let _truth = put_node(alloc, &mut draft, HERE, DraftNode::And { parts })?;
    let args = [term(row)];
    let d = b"d".as_slice();
    let head = Head::Definition(0);
    let value = apply(alloc, &mut draft, state, SITE, d, head, &args)?;
    Ok((draft.rows(), draft.nodes(), value.node()))
}

#[test]
fn a_definition_puts_its_rows_and_nodes_for_the_argument(rt: HostRuntime) -> Result<(), Fail> {
    let state = declared(rt.alloc())?;
    assert_eq!(rt; defined(rt.alloc(), &state)?, (2, 3, 1));
    Ok(())
}
