//! The top call of whoever starts no threads.
ghost use Rattle.std.specs.Prelude.{◌≡◌, ◌≢◌, ◌⊎◌, None, IfSome};
ghost use Rattle.em_outside.specs.Causes.{Rose};
ghost use Rattle.em_outside.specs.Limits.{AreLawful};
ghost use Rattle.ematch_cli.specs.Headline.{Reports};
ghost use Rattle.ematch_cli.specs.Leaves.{KeepsInput, Leaves};
ghost use Rattle.em_words.specs.Work.{work_alone};

use crate::program::report;
use crate::status::Status;
use crate::work::do_work;
use em_outside::{Limits, Sink, Source};
use em_words::read_work;
use match_graph::Alone;
use std::alloc::{AllocError, Global};

/// Does what the words ask for.
fn run_words<I: Source, O: Sink>(
    alloc: Global,
    words: &[String],
    limits: &Limits,
    input: &mut I,
    out: &mut O,
) -> Status
    requires { AreLawful limits.now }
    ensures refused { result ≡ Status.WordsRefused → work_alone words.now ≡ None }
    ensures others { work_alone words.now ≡ None → (result ≡ Status.WordsRefused) ⊎ (result ≡ Status.NoMemory) }
    ensures untouched { work_alone words.now ≡ None → (input.new ≡ input.old) × (out.new ≡ out.old) }
    ensures leaves { IfSome (work_alone words.now) (λ work.
        Leaves work limits.now (I.left input.old) (I.left input.new) (O.written out.old) (O.written out.new) result) }
    ensures unread { IfSome (work_alone words.now) (λ work. KeepsInput work input.old input.new) }
    ensures read_fault { result ≡ Status.ReadFault → Rose (I.fault_count input.old) (I.fault_count input.new) }
    ensures write_fault { result ≡ Status.WriteFault → Rose (O.fault_count out.old) (O.fault_count out.new) }
    ensures quiet_in { result ≢ Status.ReadFault → I.fault_count input.new ≡ I.fault_count input.old }
    ensures quiet_out { result ≢ Status.WriteFault → O.fault_count out.new ≡ O.fault_count out.old }
{
    match read_work(alloc, words) {
        Ok(Some(work)) => do_work(alloc, &Alone, work, limits, input, out),
        Ok(None) => Status::WordsRefused,
        Err(AllocError) => Status::NoMemory,
    }
}

/// Does what the words ask for, writes the answer to the output, and says on `err` what went wrong outside. A script is
/// read on the input and answered; the generated script of a size is written, or its matches are counted. It does all of it
/// in the thread of the caller: words that ask for workers are refused.
///
/// The words are those behind the program's name. It returns in every case, whatever the bytes, the faults and the memory.
pub fn run_alone<I: Source, O: Sink, E: Sink>(
    alloc: Global,
    words: &[String],
    limits: &Limits,
    input: &mut I,
    out: &mut O,
    err: &mut E,
) -> Status
    requires { AreLawful limits.now }

    // The words are refused exactly where they are not of the form or ask for workers, but for memory, and then nothing is read
    // or written.
    ensures refused { result ≡ Status.WordsRefused → work_alone words.now ≡ None }
    ensures others { work_alone words.now ≡ None → (result ≡ Status.WordsRefused) ⊎ (result ≡ Status.NoMemory) }
    ensures untouched { work_alone words.now ≡ None → (input.new ≡ input.old) × (out.new ≡ out.old) }

    // What stands on the output is the answer, as far as the status says, and an error has its own status. Where the script
    // is generated nothing is read.
    ensures leaves { IfSome (work_alone words.now) (λ work.
        Leaves work limits.now (I.left input.old) (I.left input.new) (O.written out.old) (O.written out.new) result) }
    ensures unread { IfSome (work_alone words.now) (λ work. KeepsInput work input.old input.new) }

    // A fault is answered only where the count of what failed rose.
    ensures read_fault { result ≡ Status.ReadFault → Rose (I.fault_count input.old) (I.fault_count input.new) }
    ensures write_fault { result ≡ Status.WriteFault → Rose (O.fault_count out.old) (O.fault_count out.new) }
    ensures quiet_in { result ≢ Status.ReadFault → I.fault_count input.new ≡ I.fault_count input.old }
    ensures quiet_out { result ≢ Status.WriteFault → O.fault_count out.new ≡ O.fault_count out.old }

    // The status is told on `err`, and a fault of `err` changes nothing else.
    ensures reports { Reports (E.written err.old) (E.written err.new) (E.fault_count err.old) (E.fault_count err.new) result }
{
    let status = run_words(alloc, words, limits, input, out);
    report(err, status);
    status
}
