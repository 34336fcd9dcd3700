//! Triggers, and which are valid.
use graph_terms::{Memory, Numbers};
use graph_trigger::{PatternRow, PatternRows, Trigger, Triggers};
use std::alloc::Global;
use std::test::Fail;

/// A pattern row as a test writes it.
#[derive(Clone, Copy)]
enum Row<'a> {
    Var(u32),
    App(u32, &'a [u32]),
}

fn trigger(alloc: Global, variables: u32, rows: &[Row], roots: &[u32]) -> Result<Trigger, Memory> {
    let mut all = PatternRows::new(alloc);
    for row in rows {
        all.push(match row {
            Row::Var(index) => PatternRow::Var { index: *index },
            Row::App(symbol, args) => PatternRow::App {
                symbol: *symbol,
                args: Numbers::from_slice(alloc, args)?,
            },
        })?;
    }
    Ok(Trigger {
        forall: 0,
        place: 0,
        variables,
        rows: all,
        roots: Numbers::from_slice(alloc, roots)?,
    })
}

#[test]
fn triggers_keep_their_items(rt: HostRuntime) -> Result<(), Fail> {
    let alloc = rt.alloc();
    let mut triggers = Triggers::new(alloc);
    triggers.push(trigger(alloc, 1, &[Row::Var(0), Row::App(5, &[0])], &[1])?)?;
    assert_eq!(rt; triggers.len(), 1);
    let copied = triggers.get(0).copy(alloc)?;
    assert_eq!(rt; copied.variables, 1);
    assert_eq!(rt; copied.rows.len(), 2);
    Ok(())
}

#[test]
fn valid_triggers_keep_to_the_rules(rt: HostRuntime) -> Result<(), Fail> {
    let alloc = rt.alloc();
    let unary = [Row::Var(0), Row::App(5, &[0])];
    let twice = [Row::Var(0), Row::App(5, &[0, 0]), Row::App(5, &[0, 0])];
    let later = [Row::Var(0), Row::App(5, &[0, 2]), Row::App(6, &[])];
    let tree = [
        Row::App(2, &[]),
        Row::App(3, &[0, 0, 0, 0]),
        Row::App(3, &[1, 1, 1, 1]),
        Row::App(3, &[2, 2, 2]),
        Row::App(3, &[3, 3, 3, 2, 2, 1, 1, 1, 1, 0]),
        Row::App(3, &[3, 3, 3, 2, 2, 1, 1, 1, 1, 0, 0]),
    ];
    let table: [(u32, &[Row], &[u32], bool); 13] = [
        (1, &unary, &[1], true),
        (1, &unary, &[1, 1], true),
        (1, &unary, &[0, 1], false),
        (1, &unary, &[], false),
        (1, &unary, &[1; 16], true),
        (1, &unary, &[1; 17], false),
        (2, &unary, &[1], false),
        (0, &unary, &[1], false),
        (1, &twice, &[1, 2], false),
        (1, &later, &[1], false),
        (0, &tree[..5], &[4], true),
        (0, &tree[..4], &[2], false),
        (0, &tree, &[4, 5], false),
    ];
    for (variables, rows, roots, wanted) in table {
        let found = trigger(alloc, variables, rows, roots)?;
        assert_eq!(rt;
            found.valid(),
            wanted,
            "roots {roots:?} of {variables} variables"
        );
    }
    Ok(())
}
