//! The plain graph against classes that are computed otherwise, on lists of operations drawn by a fixed generator.
use graph_meaning::{ClassGraph, Op};
use graph_plain::PlainGraph;
use graph_terms::{Memory, Numbers};
use std::alloc::{AllocError, Global};
use std::test::Fail;

/// Terms of a symbol and at most one argument, equations between them, and how many of both stood at each push.
#[derive(Drop)]
struct Plain {
    rows: Vec<(u32, Option<u32>)>,
    ends: Vec<(u32, u32)>,
    levels: Vec<(usize, usize)>,
}

/// Gives all terms of two labels the lower one.
fn join(labels: &mut Vec<u32>, left: u32, right: u32) {
    let one = labels.get(left as usize).copied().unwrap_or(0);
    let other = labels.get(right as usize).copied().unwrap_or(0);
    for label in labels.iter_mut() {
        if *label == one.max(other) {
            *label = one.min(other);
        }
    }
}

/// Whether two terms have one symbol, and arguments of one label.
fn is_congruent(plain: &Plain, labels: &Vec<u32>, left: u32, right: u32) -> bool {
    match (
        plain.rows.get(left as usize),
        plain.rows.get(right as usize),
    ) {
        (Some((f, Some(s))), Some((g, Some(t)))) => {
            *f == *g && labels.get(*s as usize).copied() == labels.get(*t as usize).copied()
        }
        _ => false,
    }
}

/// The least term of each class, by as many passes as there are terms.
fn leaders(alloc: Global, plain: &Plain) -> Result<Vec<u32>, AllocError> {
    let count = u32::try_from(plain.rows.len()).unwrap_or(0);
    let mut labels: Vec<u32> = (0..count).collect(alloc)?;
    for _pass in 0..count {
        for (left, right) in plain.ends.iter() {
            join(&mut labels, *left, *right);
        }
        for left in 0..count {
            for right in 0..count {
                if is_congruent(plain, &labels, left, right) {
                    join(&mut labels, left, right);
                }
            }
        }
    }
    Ok(labels)
}

/// The operation that the number stands for, among those that the terms allow.
fn drawn(alloc: Global, plain: &mut Plain, number: u32) -> Result<Op, Memory> {
    let count = u32::try_from(plain.rows.len()).unwrap_or(1).max(1);
    let first = number / 8 % count;
    let second = number / 1024 % count;
    match number % 8 {
        0 => {
            plain.levels.push((plain.rows.len(), plain.ends.len()))?;
            Ok(Op::Push)
        }
        1 => {
            let (rows, ends) = plain.levels.pop().unwrap_or((2, 0));
            plain.rows.truncate(rows);
            plain.ends.truncate(ends);
            Ok(Op::Pop)
        }
        2 | 3 => {
            plain.ends.push((first, second))?;
            Ok(Op::Merge {
                left: first,
                right: second,
            })
        }
        4 => {
            plain.rows.push((9, None))?;
            Ok(Op::Add {
                symbol: 9,
                args: Numbers::from_slice(alloc, &[])?,
            })
        }
        f => {
            plain.rows.push((f, Some(first)))?;
            Ok(Op::Add {
                symbol: f,
                args: Numbers::from_slice(alloc, &[first])?,
            })
        }
    }
}

/// A copy of the terms and equations.
fn copy(alloc: Global, plain: &Plain) -> Result<Plain, AllocError> {
    Ok(Plain {
        rows: Vec::from_slice(alloc, plain.rows.as_slice())?,
        ends: Vec::from_slice(alloc, plain.ends.as_slice())?,
        levels: Vec::from_slice(alloc, plain.levels.as_slice())?,
    })
}

#[test]
fn classes_are_those_of_the_equations_that_stand(rt: HostRuntime) -> Result<(), Fail> {
    let alloc = rt.alloc();
    let mut seed = 7u64;
    for _list in 0..12 {
        let mut graph = PlainGraph::new(alloc, 40)?;
        let mut plain = Plain {
            rows: vec![in alloc; (0, None), (1, None)]?,
            ends: Vec::new(alloc),
            levels: Vec::new(alloc),
        };
        for _operation in 0..30 {
            seed = seed
                .wrapping_mul(6_364_136_223_846_793_005)
                .wrapping_add(1_442_695_040_888_963_407);
            let mut next = copy(alloc, &plain)?;
            let op = drawn(alloc, &mut next, (seed >> 33) as u32)?;
            if graph.lawful(&op) {
                graph.apply(op)?;
                plain = next;
            }
        }
        let wanted = leaders(alloc, &plain)?;
        assert_eq!(rt; graph.len() as usize, wanted.len());
        for term in 0..graph.len() {
            assert_eq!(rt;
                Some(graph.leader(term)),
                wanted.get(term as usize).copied()
            );
        }
    }
    Ok(())
}
