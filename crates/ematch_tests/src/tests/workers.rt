//! Scripts by workers: the bytes are the same, however many there are.
use super::answers::{ANSWERS, DECLARED};
use super::fixture::joined;
use em_outside::{Limits, MemSink, MemSource};
use ematch_cli::run;
use std::alloc::{AllocError, Global};
use std::process::Abort;
use std::test::Fail;
use std::thread::Threads;

/// Scripts behind the declarations, and their verdicts.
const VERDICTS: &[(&str, &str)] = &[
    // a disjunction that is split
    (
        "(assert (or (= a b) (= a c)))(assert (not (= (f a) (f b))))(check-sat)(push)(assert (not (= (f a) (f c))))(check-sat)(pop)(check-sat)",
        "sat\nunsat\nsat\n",
    ),
    // two instances in one round
    (
        "(assert (forall ((x U)) (! (= (f (g x)) x) :pattern ((g x)))))(assert (= (g a) (g b)))(check-sat)(assert (not (= a b)))(check-sat)",
        "unknown\nunsat\n",
    ),
    // a round after another
    (
        "(assert (p a))(assert (not (p (f (f (f a))))))(assert (forall ((x U)) (! (=> (p x) (p (f x))) :pattern ((p x)))))(check-sat)",
        "unsat\n",
    ),
];

/// The status of a script under these words, and what was written.
pub(super) fn answer_by<R: Threads + Sync>(
    rt: &R,
    alloc: Global,
    words: &[&str],
    script: &str,
) -> Result<(u8, Vec<u8>), AllocError> {
    let mut given = Vec::new(alloc);
    for word in words {
        given.push(String::from_str(alloc, word)?)?;
    }
    let mut input = MemSource::new(joined(alloc, &[DECLARED, script])?, 100, Vec::new(alloc));
    let mut out = MemSink::new(alloc, Vec::new(alloc));
    let mut err = MemSink::new(alloc, Vec::new(alloc));
    let status = run(
        rt,
        alloc,
        given.as_slice(),
        &Limits::standard(),
        &mut input,
        &mut out,
        &mut err,
    );
    let written = Vec::from_slice(alloc, out.bytes())?;
    Ok((status.code(), written))
}

/// So many workers answer each script so, under this command.
fn check_all<R: Threads + Abort + Sync>(
    rt: &R,
    alloc: Global,
    workers: &str,
    command: &str,
    answers: &[(&str, &str)],
) -> Result<(), Fail> {
    for (script, answer) in answers {
        let words = ["--workers", workers, command];
        let (code, written) = answer_by(rt, alloc, &words, script)?;
        assert!(rt;
            code == 0 && written.as_slice() == answer.as_bytes(),
            "{script}"
        );
    }
    Ok(())
}

/// So many workers list all matches, and find what a search needs.
fn check_workers<R: Threads + Abort + Sync>(
    rt: &R,
    alloc: Global,
    workers: &str,
) -> Result<(), Fail> {
    check_all(rt, alloc, workers, "matches", ANSWERS)?;
    check_all(rt, alloc, workers, "solve", VERDICTS)
}

#[test]
fn no_workers_write_the_answers(rt: HostRuntime) -> Result<(), Fail> {
    check_workers(&rt, rt.alloc(), "0")
}

#[test]
fn one_worker_writes_the_answers(rt: HostRuntime) -> Result<(), Fail> {
    check_workers(&rt, rt.alloc(), "1")
}

#[test]
fn three_workers_write_the_answers(rt: HostRuntime) -> Result<(), Fail> {
    check_workers(&rt, rt.alloc(), "3")
}

#[test]
fn sixty_four_workers_write_the_answers(rt: HostRuntime) -> Result<(), Fail> {
    check_workers(&rt, rt.alloc(), "64")
}

#[test]
fn more_workers_are_refused(rt: HostRuntime) -> Result<(), Fail> {
    let words = ["--workers", "65", "matches"];
    let (code, written) = answer_by(&rt, rt.alloc(), &words, "(check-sat)")?;
    assert_eq!(rt; (code, written.len()), (2, 0));
    Ok(())
}
