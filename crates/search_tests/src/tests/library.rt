//! What whoever embeds the search writes: formulas are read, asserted, and searched together.
use em_outside::{Limits, SureSource};
use formula_assert::AssertionStack;
use formula_assert::laws::{exactly_law, tables_law};
use formula_draft::Formula;
use formula_table::EnterFault;
use match_graph::Alone;
use search_check::{Outcome, Why, check};
use smt_commands::{Command, Session};
use smt_text::TreeReader;
use std::alloc::Global;
use std::test::Fail;

/// The formulas that a script asserts, in order.
fn formulas_of(alloc: Global, script: &str) -> Result<Vec<Formula>, Fail> {
    let limits = Limits::standard();
    let mut source = SureSource::new(script.as_bytes().to_vec(alloc)?, 4096);
    let mut reader = TreeReader::new(alloc, &limits)?;
    let mut session = Session::new(alloc, &limits);
    let mut formulas = Vec::new(alloc);
    for _turn in 0..u64::MAX {
        match reader.next_tree(&mut source)? {
            None => break,
            Some(tree) => {
                if let Command::Assert { formula } = session.command(&tree)? {
                    formulas.push(formula)?;
                }
            }
        }
    }
    Ok(formulas)
}

/// How the search of what the formulas say together ends, with up to 4 rounds of instances.
fn outcome_of(alloc: Global, formulas: &[Formula]) -> Result<Outcome, EnterFault> {
    tables_law();
    exactly_law();
    let mut stack = AssertionStack::new(alloc, 100, 100)?;
    for formula in formulas {
        let _formula = formula.root();
        stack.assert(formula)?;
    }
    check(alloc, &Alone, &mut stack, 4)
}

#[test]
fn two_formulas_and_a_forall_are_searched(rt: HostRuntime) -> Result<(), Fail> {
    let alloc = rt.alloc();
    let script =
        "(declare-sort U 0)(declare-fun f (U) U)(declare-fun g (U) U)(declare-const a U)(declare-const b U)\
        (assert (forall ((x U)) (! (= (f (g x)) x) :pattern ((g x)))))(assert (= (g a) (g b)))(assert (not (= a b)))";
    let formulas = formulas_of(alloc, script)?;
    assert!(rt; formulas.len() == 3);
    let first = outcome_of(alloc, &formulas[..2])?;
    assert!(rt;
        matches!(
            first,
            Outcome::Unknown {
                why: Why::Settled,
                ..
            }
        )
    );
    let last = outcome_of(alloc, &formulas[1..])?;
    assert!(rt; matches!(last, Outcome::Sat { .. }));
    assert!(rt; matches!(outcome_of(alloc, formulas.as_slice())?, Outcome::Unsat));
    Ok(())
}
