//! Each public call once.
use em_outside::Limits;
use formula_draft::FormulaDraft;
use graph_terms::{Memory, Numbers};
use smt_names::{
    BoundNames, Connective, Definition, DistinctNames, Head, Refusal, SessionState, Signature,
    Stands, Stop, Value, check_lawful_name, is_keyword, is_numeral,
};
use smt_text::{Kind, Place};
use std::alloc::Global;
use std::test::Fail;

const HERE: Place = Place { line: 1, column: 9 };

fn declare_sort(state: &mut SessionState, name: &[u8]) -> Result<(), Stop> {
    state.check_sort_name(Kind::Symbol, HERE, name)?;
    state.declare_sort(name)?;
    Ok(())
}

fn declare_function(
    state: &mut SessionState,
    name: &[u8],
    signature: Signature,
) -> Result<(), Stop> {
    state.check_function_name(Kind::Symbol, HERE, name)?;
    state.declare_function(name, signature)?;
    Ok(())
}

fn define(state: &mut SessionState, name: &[u8], definition: Definition) -> Result<(), Stop> {
    state.check_function_name(Kind::Symbol, HERE, name)?;
    state.define(name, definition)?;
    Ok(())
}

fn open_level(state: &mut SessionState) -> Result<(), Stop> {
    if state.levels() < state.limits().levels {
        state.push(1)?;
    }
    Ok(())
}

fn close_level(state: &mut SessionState) {
    if state.levels() > 0 {
        state.pop(1);
    }
}

/// A function of two arguments.
fn signature(alloc: Global) -> Result<Signature, Memory> {
    let arguments = Numbers::from_slice(alloc, &[1, 2])?;
    Ok(Signature { arguments, sort: 1 })
}

/// A definition without rows and nodes.
fn definition(alloc: Global) -> Result<Definition, Memory> {
    let parameters = Numbers::from_slice(alloc, &[])?;
    let value = Value::Formula {
        itself: 0,
        complement: None,
    };
    Ok(Definition {
        parameters,
        sort: 0,
        draft: FormulaDraft::new(alloc, 4, 4),
        value,
    })
}

/// Two sorts, a function in a level, and a definition in a level more.
fn declared(alloc: Global) -> Result<SessionState, Stop> {
    let mut state = SessionState::new(alloc, &Limits::standard());
    declare_sort(&mut state, b"U")?;
    declare_sort(&mut state, b"V")?;
    open_level(&mut state)?;
    declare_function(&mut state, b"f", signature(alloc)?)?;
    open_level(&mut state)?;
    define(&mut state, b"d", definition(alloc)?)?;
    Ok(state)
}

/// What is known of the state: what `f` and `d` stand for, the number of the sort V, and the name of the first function.
fn known(state: &SessionState) -> (Head, Head, Option<u32>, bool) {
    let named = match state.function_name(0) {
        None => false,
        Some(found) => found == b"f".as_slice(),
    };
    (state.head(b"f"), state.head(b"d"), state.sort(b"V"), named)
}

/// The sorts of the values of the first function and the first definition.
fn sorts(state: &SessionState) -> (Option<u32>, Option<u32>) {
    let function = match state.signature(0) {
        None => None,
        Some(found) => Some(found.sort),
    };
    let definition = match state.definition(0) {
        None => None,
        Some(found) => Some(found.sort),
    };
    (function, definition)
}

/// The refusal of a step that was refused.
fn refusal<T: Drop>(step: Result<T, Stop>) -> Result<Option<Refusal>, Memory> {
    match step {
        Ok(_) => Ok(None),
        Err(Stop::Memory) => Err(Memory),
        Err(Stop::Refused(fault)) => Ok(Some(fault.refusal)),
    }
}

#[test]
fn names_stand_for_what_was_declared_until_their_level_is_closed(
    rt: HostRuntime,
) -> Result<(), Fail> {
    let mut state = declared(rt.alloc())?;
    let all = (Head::Function(0), Head::Definition(0), Some(2), true);
    assert_eq!(rt; known(&state), all);
    assert_eq!(rt; sorts(&state), (Some(1), Some(0)));
    close_level(&mut state);
    let left = (Head::Function(0), Head::Unknown, Some(2), true);
    assert_eq!(rt; known(&state), left);
    assert!(rt; state.head(b"=>") == Head::Core(Connective::Implies));
    Ok(())
}

#[test]
fn clearing_keeps_the_option_and_a_reset_does_not(rt: HostRuntime) -> Result<(), Fail> {
    let mut state = declared(rt.alloc())?;
    state.set_prints_success(true);
    state.clear();
    assert_eq!(rt; (state.sort(b"U"), state.prints_success()), (None, true));
    state.reset();
    assert!(rt; !state.prints_success());
    Ok(())
}

fn function_refusal(state: &SessionState, name: &[u8]) -> Result<Option<Refusal>, Memory> {
    refusal(state.check_function_name(Kind::Symbol, HERE, name))
}

fn sort_refusal(state: &SessionState, name: &[u8]) -> Result<Option<Refusal>, Memory> {
    refusal(state.check_sort_name(Kind::Symbol, HERE, name))
}

#[test]
fn names_are_refused_for_the_first_reason(rt: HostRuntime) -> Result<(), Fail> {
    let state = declared(rt.alloc())?;
    assert_eq!(rt; function_refusal(&state, b"g")?, None);
    assert_eq!(rt;
        function_refusal(&state, b"f")?,
        Some(Refusal::AlreadyDeclared)
    );
    assert_eq!(rt; sort_refusal(&state, b"let")?, Some(Refusal::BadForm));
    Ok(())
}

/// The refusals of a sort, and of one other than Bool.
fn token_refusals(
    state: &SessionState,
    name: &[u8],
) -> Result<(Option<Refusal>, Option<Refusal>), Memory> {
    let any = refusal(state.sort_of_token(Kind::Symbol, HERE, name))?;
    let other = refusal(state.other_sort_of_token(Kind::Symbol, HERE, name))?;
    Ok((any, other))
}

#[test]
fn bool_is_a_sort_and_no_other_sort(rt: HostRuntime) -> Result<(), Fail> {
    let state = declared(rt.alloc())?;
    let refused = (None, Some(Refusal::NotInProfile));
    assert_eq!(rt; token_refusals(&state, b"Bool")?, refused);
    Ok(())
}

#[test]
fn a_keyword_is_no_name(rt: HostRuntime) -> Result<(), Fail> {
    let name = check_lawful_name(rt.alloc(), Kind::Keyword, HERE, b":g");
    assert_eq!(rt; refusal(name)?, Some(Refusal::BadForm));
    assert!(rt; is_keyword(Kind::Keyword) && is_numeral(Kind::Numeral));
    Ok(())
}

fn stands_of(bound: &BoundNames, name: &[u8]) -> Option<Stands> {
    match bound.find(name) {
        None => None,
        Some(binding) => Some(binding.stands),
    }
}

#[test]
fn the_last_binding_of_a_name_wins(rt: HostRuntime) -> Result<(), Fail> {
    let mut bound = BoundNames::new(rt.alloc());
    let value = Stands::Given(Value::Term { row: 7, sort: 1 });
    let variable = Stands::Variable { index: 0, sort: 1 };
    bound.push(b"x", variable)?;
    bound.push(b"x", value)?;
    assert_eq!(rt; stands_of(&bound, b"x"), Some(value));
    bound.truncate(1);
    assert_eq!(rt; stands_of(&bound, b"x"), Some(variable));
    assert_eq!(rt; bound.len(), 1);
    Ok(())
}

#[test]
fn a_name_stands_once_among_distinct_names(rt: HostRuntime) -> Result<(), Fail> {
    let mut names = DistinctNames::new(rt.alloc());
    if !names.contains(b"x") {
        names.push(b"x")?;
    }
    assert_eq!(rt; names.find(b"x"), Some(0));
    assert_eq!(rt; names.find(b"z"), None);
    Ok(())
}

#[test]
fn values_tell_their_parts(rt: HostRuntime) {
    let term = Value::Term { row: 7, sort: 1 };
    assert_eq!(rt; (term.row(), term.sort(), term.complement()), (7, 1, None));
    let formula = Value::Formula {
        itself: 3,
        complement: Some(4),
    };
    assert_eq!(rt; (formula.node(), formula.other()), (3, 4));
    assert_eq!(rt; formula.swapped().node(), 4);
}
