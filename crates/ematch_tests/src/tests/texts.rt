//! Texts: a term by itself, and errors as a caller of the library prints them.
ghost use Rattle.em_outside.specs.Limits.{AreLawful};

use super::errors::{FAULTS, narrow};
use em_outside::{Limits, MemSink, MemSource};
use em_printing::{TermStop, write_term};
use em_words::WordsFault;
use ematch_cli::{Status, report};
use graph_meaning::ClassGraph;
use match_graph::MatchingGraph;
use smt_commands::Session;
use smt_text::{TextFault, TreeReader};
use std::alloc::{AllocError, Global};
use std::test::Fail;

#[test]
fn a_term_is_written_by_itself(rt: HostRuntime) -> Result<(), Fail> {
    let alloc = rt.alloc();
    let session = Session::new(alloc, &Limits::standard());
    let graph = MatchingGraph::new(alloc, 2)?;
    let mut out = MemSink::new(alloc, Vec::new(alloc));
    let _terms = graph.len();
    let written = write_term(alloc, &session, &graph, 1, &mut out);
    assert!(rt; written.is_ok());
    assert_eq!(rt; out.bytes(), b"false".as_slice());
    Ok(())
}

/// The line of the first fault of a script, by the text of the reader's fault.
fn told_line(alloc: Global, limits: &Limits, script: &str) -> Result<String, AllocError>
    requires { AreLawful limits.now }
{
    let bytes = Vec::from_slice(alloc, script.as_bytes())?;
    let mut source = MemSource::new(bytes, 100, Vec::new(alloc));
    let Ok(mut reader) = TreeReader::new(alloc, limits) else {
        return Err(AllocError);
    };
    for _ in 0..3 {
        match reader.next_tree(&mut source) {
            Ok(_) => {}
            Err(fault) => return format!(in alloc; "(error \"{fault}\")\n"),
        }
    }
    Ok(String::new(alloc))
}

#[test]
fn faults_have_the_texts_of_their_lines(rt: HostRuntime) -> Result<(), Fail> {
    let limits = narrow();
    for (script, answer) in FAULTS {
        let line = told_line(rt.alloc(), &limits, script)?;
        assert!(rt;
            line.len() > 0 && answer.ends_with(line.as_str()),
            "{script}"
        );
    }
    Ok(())
}

/// What is said of a status on the error stream.
fn reported(alloc: Global, status: Status) -> Result<Vec<u8>, AllocError> {
    let mut err = MemSink::new(alloc, Vec::new(alloc));
    report(&mut err, status);
    Vec::from_slice(alloc, err.bytes())
}

#[test]
fn errors_have_the_texts_of_the_error_stream(rt: HostRuntime) -> Result<(), Fail> {
    let alloc = rt.alloc();
    let words = format!(in alloc; "ematch: {}\n", WordsFault::Refused)?;
    let read = format!(in alloc; "ematch: {}\n", TextFault::ReadFault)?;
    let memory = format!(in alloc; "ematch: {}\n", TextFault::Memory)?;
    let stop = format!(in alloc; "ematch: {}\n", TermStop::Memory)?;
    assert_eq!(rt;
        reported(alloc, Status::WordsRefused)?.as_slice(),
        words.as_bytes()
    );
    assert_eq!(rt;
        reported(alloc, Status::ReadFault)?.as_slice(),
        read.as_bytes()
    );
    assert_eq!(rt;
        reported(alloc, Status::NoMemory)?.as_slice(),
        memory.as_bytes()
    );
    assert_eq!(rt; stop.as_bytes(), memory.as_bytes());
    Ok(())
}
