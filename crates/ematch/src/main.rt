//! The program: the words of the command line and the standard streams, handed to the library.
#![tactic(auto)]

use em_outside::{Limits, StdSink, StdSource};
use ematch_cli::{Status, report, run};
use std::alloc::AllocError;
use std::process::ExitCode;
use std::rt::Env;
use std::{env, io};

/// The words after the program's name. A word that is no text makes them none, which are no words of the form.
fn words(rt: &(impl Env + AllocGlobal)) -> Result<Vec<String>, AllocError> {
    let mut words = Vec::new(rt.alloc());
    match env::args(rt) {
        Ok(all) => {
            for word in all.skip(1) {
                words.push(word)?;
            }
            Ok(words)
        }
        Err(error) => match error.kind() {
            io::ErrorKind::OutOfMemory => Err(AllocError),
            _ => Ok(words),
        },
    }
}

fn main(rt: HostRuntime) -> ExitCode {
    let mut input = StdSource::new(rt.stdin());
    let mut out = StdSink::new(rt.stdout());
    let mut err = StdSink::new(rt.stderr());
    let limits = Limits::standard();
    let status = match words(&rt) {
        Ok(words) => run(
            &rt,
            rt.alloc(),
            words.as_slice(),
            &limits,
            &mut input,
            &mut out,
            &mut err,
        ),
        Err(_) => {
            report(&mut err, Status::NoMemory);
            Status::NoMemory
        }
    };
    ExitCode::from(status.code())
}
