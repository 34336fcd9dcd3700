//! The generated script of a size: it is written, or its matches are counted.
use super::fixture::{Faults, NO_FAULTS, run};
use super::workers::answer_by;
use em_outside::Limits;
use std::alloc::Global;
use std::process::Abort;
use std::test::Fail;
use std::thread::Threads;

/// The generated script of the least size.
const SCRIPT: &str = "\
(set-logic UF)
(declare-sort U 0)
(declare-fun f (U) U)
(declare-fun g (U U) U)
(declare-const c0 U)
(declare-const c1 U)
(assert (forall ((x U) (y U)) (! (= (g x (f y)) x) :pattern ((g x (f y))))))
(assert (forall ((x U)) (! (= (f x) x) :pattern ((f x) (g x x)))))
(assert (= (g c0 c0) (f c0)))
(assert (= (g c1 c1) (f c1)))
(check-sat)
(push 1)
(assert (= c0 (f c1)))
(check-sat)
(push 1)
(assert (= c1 c0))
(check-sat)
(pop 1)
(check-sat)
(pop 1)
(check-sat)
";

/// What is told of it.
const TOLD: &str = "\
drill 2
check 1: 0 2
check 2: 1 2
check 3: 1 1
check 4: 1 2
check 5: 0 2
total 12
";

/// The first read fails, so that a run that reads has status 3.
const NO_READ: Faults<'static> = Faults {
    reads: &[0],
    writes: &[],
};

#[test]
fn the_script_is_written_and_nothing_is_read(rt: HostRuntime) -> Result<(), Fail> {
    let limits = Limits::standard();
    let left = run(rt.alloc(), &limits, &["make", "2"], &["(exit)"], 9, NO_READ)?;
    assert_eq!(rt; (left.code, left.reads, left.err.len()), (0, 0, 0));
    assert_eq!(rt; left.out.as_slice(), SCRIPT.as_bytes());
    Ok(())
}

#[test]
fn each_check_is_told_and_nothing_is_read(rt: HostRuntime) -> Result<(), Fail> {
    let limits = Limits::standard();
    let left = run(
        rt.alloc(),
        &limits,
        &["drill", "2"],
        &["(exit)"],
        9,
        NO_READ,
    )?;
    assert_eq!(rt; (left.code, left.reads, left.err.len()), (0, 0, 0));
    assert_eq!(rt; left.out.as_slice(), TOLD.as_bytes());
    Ok(())
}

#[test]
fn an_error_is_told_and_no_total(rt: HostRuntime) -> Result<(), Fail> {
    let few = Limits {
        terms: 4,
        ..Limits::standard()
    };
    let left = run(rt.alloc(), &few, &["drill", "2"], &[], 9, NO_FAULTS)?;
    assert_eq!(rt; (left.code, left.err.len()), (1, 0));
    let told = "drill 2\n(error \"line 9 column 1: too many terms\")\n";
    assert_eq!(rt; left.out.as_slice(), told.as_bytes());
    Ok(())
}

#[test]
fn a_write_that_fails_leaves_a_front(rt: HostRuntime) -> Result<(), Fail> {
    let second = Faults {
        reads: &[],
        writes: &[1],
    };
    let limits = Limits::standard();
    let left = run(rt.alloc(), &limits, &["drill", "2"], &[], 9, second)?;
    assert_eq!(rt; (left.code, left.writes), (4, 1));
    assert_eq!(rt; left.out.as_slice(), b"drill 2\n".as_slice());
    Ok(())
}

#[test]
fn other_sizes_are_refused(rt: HostRuntime) -> Result<(), Fail> {
    for words in [["make", "1"], ["drill", "4001"]] {
        let left = run(rt.alloc(), &Limits::standard(), &words, &[], 9, NO_FAULTS)?;
        assert_eq!(rt; (left.code, left.out.len()), (2, 0));
    }
    Ok(())
}

/// What is told of the script of size 500.
const TOLD_500: &str = "\
drill 500
check 1: 0 500
check 2: 499 500
check 3: 1 1
check 4: 499 500
check 5: 0 500
total 3000
";

/// So many workers count the matches of the script of size 500.
fn check_drill<R: Threads + Abort + Sync>(
    rt: &R,
    alloc: Global,
    workers: &str,
) -> Result<(), Fail> {
    let words = ["--workers", workers, "drill", "500"];
    let (code, written) = answer_by(rt, alloc, &words, "")?;
    assert_eq!(rt; code, 0);
    assert_eq!(rt; written.as_slice(), TOLD_500.as_bytes());
    Ok(())
}

#[test]
fn no_workers_count(rt: HostRuntime) -> Result<(), Fail> {
    check_drill(&rt, rt.alloc(), "0")
}

#[test]
fn one_worker_counts(rt: HostRuntime) -> Result<(), Fail> {
    check_drill(&rt, rt.alloc(), "1")
}

#[test]
fn three_workers_count(rt: HostRuntime) -> Result<(), Fail> {
    check_drill(&rt, rt.alloc(), "3")
}

#[test]
fn sixty_four_workers_count(rt: HostRuntime) -> Result<(), Fail> {
    check_drill(&rt, rt.alloc(), "64")
}
