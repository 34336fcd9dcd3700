//! What whoever embeds the top call writes: a script in memory, its answer, and the status.
use em_outside::{Limits, MemSink, MemSource};
use ematch_cli::run_alone;
use std::alloc::{AllocError, Global};
use std::test::Fail;

/// The status of `matches` on a script, and what it wrote.
fn answer_of(alloc: Global, script: &str) -> Result<(u8, Vec<u8>), AllocError> {
    let mut words = Vec::new(alloc);
    words.push(String::from_str(alloc, "matches")?)?;
    let bytes = Vec::from_slice(alloc, script.as_bytes())?;
    let mut input = MemSource::new(bytes, 4096, Vec::new(alloc));
    let mut out = MemSink::new(alloc, Vec::new(alloc));
    let mut err = MemSink::new(alloc, Vec::new(alloc));
    let status = run_alone(
        alloc,
        words.as_slice(),
        &Limits::standard(),
        &mut input,
        &mut out,
        &mut err,
    );
    let written = Vec::from_slice(alloc, out.bytes())?;
    Ok((status.code(), written))
}

#[test]
fn a_script_in_memory_is_answered(rt: HostRuntime) -> Result<(), Fail> {
    let (code, written) = answer_of(rt.alloc(), "(get-info :name)")?;
    assert_eq!(rt; code, 0);
    assert_eq!(rt; written.as_slice(), b"(:name \"ematch\")\n".as_slice());
    Ok(())
}
