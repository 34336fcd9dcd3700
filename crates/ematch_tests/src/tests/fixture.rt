//! Runs of the top call over a source and sinks in memory.
ghost use Rattle.em_outside.specs.Limits.{AreLawful};

use em_outside::{Limits, MemSink, MemSource, Sink, Source};
use ematch_cli::run_alone;
use std::alloc::{AllocError, Global};
use std::process::Abort;
use std::test::Fail;

/// The calls that fail, by number from 0.
#[derive(Clone, Copy, Debug)]
pub(super) struct Faults<'a> {
    pub(super) reads: &'a [u64],
    pub(super) writes: &'a [u64],
}

/// No call fails.
pub(super) const NO_FAULTS: Faults<'static> = Faults {
    reads: &[],
    writes: &[],
};

/// What a run left: its status, the bytes on the two sinks, and how many reads and writes failed.
#[derive(Drop)]
pub(super) struct Left {
    pub(super) code: u8,
    pub(super) out: Vec<u8>,
    pub(super) err: Vec<u8>,
    pub(super) reads: u64,
    pub(super) writes: u64,
}

/// The bytes of the parts, one after another.
pub(super) fn joined(alloc: Global, parts: &[&str]) -> Result<Vec<u8>, AllocError> {
    let mut bytes = Vec::new(alloc);
    for part in parts {
        bytes.extend_from_slice(part.as_bytes())?;
    }
    Ok(bytes)
}

/// Runs the program on a script, which comes in pieces of so many bytes.
pub(super) fn run(
    alloc: Global,
    limits: &Limits,
    words: &[&str],
    script: &[&str],
    piece: usize,
    faults: Faults,
) -> Result<Left, AllocError>
    requires { AreLawful limits.now }
{
    let mut given = Vec::new(alloc);
    for word in words {
        given.push(String::from_str(alloc, word)?)?;
    }
    let reads = Vec::from_slice(alloc, faults.reads)?;
    let mut input = MemSource::new(joined(alloc, script)?, piece.max(1), reads);
    let mut out = MemSink::new(alloc, Vec::from_slice(alloc, faults.writes)?);
    let mut err = MemSink::new(alloc, Vec::new(alloc));
    let status = run_alone(
        alloc,
        given.as_slice(),
        limits,
        &mut input,
        &mut out,
        &mut err,
    );
    Ok(Left {
        code: status.code(),
        out: Vec::from_slice(alloc, out.bytes())?,
        err: Vec::from_slice(alloc, err.bytes())?,
        reads: input.faults(),
        writes: out.faults(),
    })
}

/// Whether the words' task answers a script so, and ends with this status.
fn is_answered(
    alloc: Global,
    limits: &Limits,
    words: &[&str],
    script: &[&str],
    piece: usize,
    answer: &str,
    code: u8,
) -> Result<bool, AllocError>
    requires { AreLawful limits.now }
{
    let left = run(alloc, limits, words, script, piece, NO_FAULTS)?;
    Ok(left.code == code && left.out.as_slice() == answer.as_bytes())
}

/// Under the words each script behind these declarations is answered so, with this status, whole and byte by byte.
pub(super) fn check_answers(
    rt: &impl Abort,
    alloc: Global,
    limits: &Limits,
    words: &[&str],
    declared: &str,
    answers: &[(&str, &str)],
    code: u8,
) -> Result<(), Fail>
    requires { AreLawful limits.now }
{
    for (script, answer) in answers {
        let parts = [declared, *script];
        assert!(rt;
            is_answered(alloc, limits, words, &parts, 4096, answer, code)?,
            "{script}"
        );
        assert!(rt;
            is_answered(alloc, limits, words, &parts, 1, answer, code)?,
            "{script}, byte by byte"
        );
    }
    Ok(())
}
