//! The generated script of a size: it is written, or its matches are counted.
ghost use Rattle.std.specs.Prelude.{◌≡◌, ◌≢◌, IfOk};
ghost use Rattle.em_generated.specs.GeneratedScript.{script_text};
ghost use Rattle.em_outside.specs.Causes.{Rose};
ghost use Rattle.em_outside.specs.Limits.{AreLawful};
ghost use Rattle.em_words.specs.Work.{IsSize};
ghost use Rattle.ematch_cli.specs.Generated.{drill_line, IsMade, IsMadeFront, IsDrill, IsDrillFront};
ghost use Rattle.ematch_cli.specs.Headline.{StandsOf};

use crate::Status;
use crate::count::count_script;
use crate::script::write_text;
use em_generated::write_script;
use em_outside::{Limits, MemSink, Sink};
use em_printing::push_number;
use match_graph::Matchers;
use std::alloc::{AllocError, Global};

/// Writes the generated script of the size.
pub(crate) fn make<O: Sink>(count: u32, out: &mut O) -> Status
    requires { IsSize count }
    ensures stands { StandsOf (IsMade count) (IsMadeFront count) (O.written out.old) (O.written out.new) result }
    ensures write_fault { result ≡ Status.WriteFault → Rose (O.fault_count out.old) (O.fault_count out.new) }
    ensures quiet_out { result ≢ Status.WriteFault → O.fault_count out.new ≡ O.fault_count out.old }
{
    match write_script(count, out) {
        Ok(()) => Status::Done,
        Err(_) => Status::WriteFault,
    }
}

/// The line of a drill.
fn drill_text(alloc: Global, count: u32) -> Result<Vec<u8>, AllocError>
    ensures { IfOk result (λ text. text.items ≡ drill_line count) }
{
    let mut text = Vec::new(alloc);
    text.extend_from_slice(b"drill ")?;
    push_number(&mut text, u64::from(count))?;
    text.push(b'\n')?;
    Ok(text)
}

/// The bytes of the generated script of the size.
fn script_bytes(alloc: Global, count: u32) -> Result<Vec<u8>, AllocError>
    requires { IsSize count }
    ensures { IfOk result (λ script. script.items ≡ script_text count) }
{
    let mut sink = MemSink::new(alloc, Vec::new(alloc));
    match write_script(count, &mut sink) {
        Ok(()) => Vec::from_slice(alloc, sink.bytes()),
        Err(_) => Err(AllocError),
    }
}

/// Writes the line of the drill, and then what is told where the matches of the generated script of the size are counted.
pub(crate) fn drill<M: Matchers, O: Sink>(
    alloc: Global,
    matchers: &M,
    limits: &Limits,
    count: u32,
    out: &mut O,
) -> Status
    requires lawful { AreLawful limits.now }
    requires size { IsSize count }
    ensures stands { StandsOf (IsDrill limits.now count) (IsDrillFront limits.now count) (O.written out.old) (O.written out.new) result }
    ensures write_fault { result ≡ Status.WriteFault → Rose (O.fault_count out.old) (O.fault_count out.new) }
    ensures quiet_out { result ≢ Status.WriteFault → O.fault_count out.new ≡ O.fault_count out.old }
{
    let Ok(line) = drill_text(alloc, count) else {
        return Status::NoMemory;
    };
    if !write_text(out, line.as_slice()) {
        return Status::WriteFault;
    }
    match script_bytes(alloc, count) {
        Ok(script) => count_script(alloc, matchers, limits, script, out),
        Err(AllocError) => Status::NoMemory,
    }
}
