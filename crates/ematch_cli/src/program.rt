//! The top calls that the program makes.
ghost use Rattle.std.specs.Prelude.{◌≡◌, ◌≢◌, ◌⊎◌, None, IfSome};
ghost use Rattle.em_outside.specs.Causes.{Rose};
ghost use Rattle.em_outside.specs.Limits.{AreLawful};
ghost use Rattle.ematch_cli.specs.Headline.{Reports};
ghost use Rattle.ematch_cli.specs.Leaves.{KeepsInput, Leaves};
ghost use Rattle.em_words.specs.Asked.{asked_of};

use crate::status::{Status, text_of};
use crate::work::do_work;
use em_outside::{Limits, Sink, Source, write_all};
use em_words::read_asked;
use match_workers::Workers;
use std::alloc::{AllocError, Global};
use std::thread::Threads;

/// Does what the words ask for, by as many workers as they say.
fn run_asked<R: Threads + Sync, I: Source, O: Sink>(
    rt: &R,
    alloc: Global,
    words: &[String],
    limits: &Limits,
    input: &mut I,
    out: &mut O,
) -> Status
    requires { AreLawful limits.now }
    ensures refused { result ≡ Status.WordsRefused → asked_of words.now ≡ None }
    ensures others { asked_of words.now ≡ None → (result ≡ Status.WordsRefused) ⊎ (result ≡ Status.NoMemory) }
    ensures untouched { asked_of words.now ≡ None → (input.new ≡ input.old) × (out.new ≡ out.old) }
    ensures leaves { IfSome (asked_of words.now) (λ asked.
        Leaves asked.work limits.now (I.left input.old) (I.left input.new) (O.written out.old) (O.written out.new) result) }
    ensures unread { IfSome (asked_of words.now) (λ asked. KeepsInput asked.work input.old input.new) }
    ensures read_fault { result ≡ Status.ReadFault → Rose (I.fault_count input.old) (I.fault_count input.new) }
    ensures write_fault { result ≡ Status.WriteFault → Rose (O.fault_count out.old) (O.fault_count out.new) }
    ensures quiet_in { result ≢ Status.ReadFault → I.fault_count input.new ≡ I.fault_count input.old }
    ensures quiet_out { result ≢ Status.WriteFault → O.fault_count out.new ≡ O.fault_count out.old }
{
    match read_asked(alloc, words) {
        Ok(Some(asked)) => {
            let workers = Workers::new(rt, asked.workers);
            do_work(alloc, &workers, asked.work, limits, input, out)
        }
        Ok(None) => Status::WordsRefused,
        Err(AllocError) => Status::NoMemory,
    }
}

/// Does what the words ask for, writes the answer to the output, and says on `err` what went wrong outside. A script is
/// read on the input and answered; the generated script of a size is written, or its matches are counted. As many workers
/// as the words say find the matches, each in a thread of its own.
///
/// The answer is defined by the work, the limits and the script alone: nothing in it speaks of workers, so for every number
/// of them the bytes are the same.
///
/// The words are those behind the program's name. It returns in every case, whatever the bytes, the faults and the memory.
pub fn run<R: Threads + Sync, I: Source, O: Sink, E: Sink>(
    rt: &R,
    alloc: Global,
    words: &[String],
    limits: &Limits,
    input: &mut I,
    out: &mut O,
    err: &mut E,
) -> Status
    requires { AreLawful limits.now }

    // The words are refused exactly where they are not of the form, but for memory, and then nothing is read or written.
    ensures refused { result ≡ Status.WordsRefused → asked_of words.now ≡ None }
    ensures others { asked_of words.now ≡ None → (result ≡ Status.WordsRefused) ⊎ (result ≡ Status.NoMemory) }
    ensures untouched { asked_of words.now ≡ None → (input.new ≡ input.old) × (out.new ≡ out.old) }

    // What stands on the output is the answer, as far as the status says, whatever the workers are, and an error has its own
    // status. Where the script is generated nothing is read.
    ensures leaves { IfSome (asked_of words.now) (λ asked.
        Leaves asked.work limits.now (I.left input.old) (I.left input.new) (O.written out.old) (O.written out.new) result) }
    ensures unread { IfSome (asked_of words.now) (λ asked. KeepsInput asked.work input.old input.new) }

    // A fault is answered only where the count of what failed rose.
    ensures read_fault { result ≡ Status.ReadFault → Rose (I.fault_count input.old) (I.fault_count input.new) }
    ensures write_fault { result ≡ Status.WriteFault → Rose (O.fault_count out.old) (O.fault_count out.new) }
    ensures quiet_in { result ≢ Status.ReadFault → I.fault_count input.new ≡ I.fault_count input.old }
    ensures quiet_out { result ≢ Status.WriteFault → O.fault_count out.new ≡ O.fault_count out.old }

    // The status is told on `err`, and a fault of `err` changes nothing else.
    ensures reports { Reports (E.written err.old) (E.written err.new) (E.fault_count err.old) (E.fault_count err.new) result }
{
    let status = run_asked(rt, alloc, words, limits, input, out);
    report(err, status);
    status
}

/// Says on `err` what the status means, in a line, or nothing where all went well outside.
pub fn report<E: Sink>(err: &mut E, status: Status)
    ensures { Reports (E.written err.old) (E.written err.new) (E.fault_count err.old) (E.fault_count err.new) status }
{
    match write_all(err, text_of(status)) {
        Ok(()) => {}
        Err(_) => {}
    }
}
