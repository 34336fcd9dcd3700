//! Reads and writes that fail, ends inside a command, and words that are refused.
use super::answers::{ANSWERS, DECLARED};
use super::fixture::{Faults, NO_FAULTS, run};
use em_outside::{Failed, Limits, MemSink, MemSource, Source};
use ematch_cli::run_alone;
use std::alloc::{AllocError, Global};
use std::process::Abort;
use std::test::Fail;

const UNFINISHED: &str = "(declare-sort U 0)(check-sat)\n(assert (";

#[test]
fn the_end_inside_a_command_is_an_error_where_it_is_known(rt: HostRuntime) -> Result<(), Fail> {
    let alloc = rt.alloc();
    let limits = Limits::standard();
    let ended = run(alloc, &limits, &["matches"], &[UNFINISHED], 100, NO_FAULTS)?;
    assert_eq!(rt;
        ended.out.as_slice(),
        b"settled\n(error \"line 2 column 1: the command is not closed\")\n".as_slice()
    );
    assert_eq!(rt; (ended.code, ended.err.len()), (1, 0));
    let first = Faults {
        reads: &[1],
        writes: &[],
    };
    let failed = run(alloc, &limits, &["matches"], &[UNFINISHED], 100, first)?;
    assert_eq!(rt; failed.out.as_slice(), b"settled\n".as_slice());
    assert_eq!(rt; failed.code, 3);
    assert_eq!(rt; failed.err.as_slice(), b"ematch: read failed\n".as_slice());
    Ok(())
}

/// Where this read fails, the run ends with its status and a front of the answer.
fn check_read(
    rt: &impl Abort,
    alloc: Global,
    script: &str,
    answer: &str,
    call: u64,
) -> Result<(), Fail> {
    let calls = [call];
    let faults = Faults {
        reads: &calls,
        writes: &[],
    };
    let left = run(
        alloc,
        &Limits::standard(),
        &["matches"],
        &[DECLARED, script],
        200,
        faults,
    )?;
    assert!(rt; left.code == 3 || left.reads == 0, "{script}");
    assert!(rt;
        answer.as_bytes().starts_with(left.out.as_slice()),
        "{script}"
    );
    Ok(())
}

/// Where this write fails, the run ends with its status and a front of the answer.
fn check_write(
    rt: &impl Abort,
    alloc: Global,
    script: &str,
    answer: &str,
    call: u64,
) -> Result<(), Fail> {
    let calls = [call];
    let faults = Faults {
        reads: &[],
        writes: &calls,
    };
    let left = run(
        alloc,
        &Limits::standard(),
        &["matches"],
        &[DECLARED, script],
        4096,
        faults,
    )?;
    assert!(rt; left.code == 4 || left.writes == 0, "{script}");
    assert!(rt;
        left.err.as_slice() == b"ematch: write failed\n".as_slice() || left.writes == 0,
        "{script}"
    );
    assert!(rt;
        answer.as_bytes().starts_with(left.out.as_slice()),
        "{script}"
    );
    Ok(())
}

#[test]
fn each_read_and_write_that_fails_ends_the_run_with_a_front(rt: HostRuntime) -> Result<(), Fail> {
    for (script, answer) in &ANSWERS[1..4] {
        for call in 0..3u64 {
            check_read(&rt, rt.alloc(), script, answer, call)?;
            check_write(&rt, rt.alloc(), script, answer, call)?;
        }
    }
    Ok(())
}

/// Words that are refused.
const WORDS: &[&[&str]] = &[
    &["matches", "x"],
    &["--workers", "65", "matches"],
    &["--rounds", "03", "solve"],
    &["drill"],
    &[],
    &["--workers", "1", "matches"],
    &["--workers", "1", "solve"],
    &["make", "1"],
    &["--workers", "1", "make", "2"],
];

#[test]
fn other_words_are_refused(rt: HostRuntime) -> Result<(), Fail> {
    let limits = Limits::standard();
    for words in WORDS {
        let left = run(rt.alloc(), &limits, words, &["(check-sat)"], 100, NO_FAULTS)?;
        assert_eq!(rt; (left.code, left.out.len()), (2, 0));
        assert_eq!(rt; left.err.as_slice(), b"ematch: words refused\n".as_slice());
    }
    Ok(())
}

/// A source in memory that counts its reads.
#[derive(Drop)]
struct CountedSource {
    source: MemSource,
    reads: u64,
}

impl Source for CountedSource {
    ghost use Rattle.std.specs.Prelude.{Some};

    ghost left = { λ s. Some s.source.left };

    ghost fault_count = { λ s. s.source.faults };

    fn read(&mut self, into: &mut [u8]) -> Result<usize, Failed> {
        self.reads = self.reads.saturating_add(1);
        self.source.read(into)
    }

    fn faults(&self) -> u64 {
        self.source.faults()
    }
}

#[test]
fn nothing_is_read_behind_exit(rt: HostRuntime) -> Result<(), Fail> {
    let alloc = rt.alloc();
    let words = vec![in alloc; String::from_str(alloc, "matches")?]?;
    let script = b"(check-sat) (exit) (check-sat)".as_slice();
    let mut input = CountedSource {
        source: MemSource::new(script.to_vec(alloc)?, 9, Vec::new(alloc)),
        reads: 0,
    };
    let mut out = MemSink::new(alloc, Vec::new(alloc));
    let mut err = MemSink::new(alloc, Vec::new(alloc));
    let status = run_alone(
        alloc,
        words.as_slice(),
        &Limits::standard(),
        &mut input,
        &mut out,
        &mut err,
    );
    assert_eq!(rt; status.code(), 0);
    assert_eq!(rt; out.bytes(), b"settled\n".as_slice());
    assert_eq!(rt; input.reads, 2);
    Ok(())
}
