//! Does what the words ask for.
ghost use Rattle.std.specs.Prelude.{◌≡◌, ◌≢◌};
ghost use Rattle.em_outside.specs.Causes.{Rose};
ghost use Rattle.em_outside.specs.Limits.{AreLawful};
ghost use Rattle.em_words.specs.Work.{HasSize};
ghost use Rattle.ematch_cli.specs.Leaves.{KeepsInput, Leaves};

use crate::Status;
use crate::generated::{drill, make};
use crate::script::answer_script;
use em_outside::{Limits, Sink, Source};
use em_words::Work;
use match_graph::Matchers;
use std::alloc::Global;

/// Does what the words ask for. Whoever the matchers are, the output is the same.
pub(crate) fn do_work<M: Matchers, I: Source, O: Sink>(
    alloc: Global,
    matchers: &M,
    work: Work,
    limits: &Limits,
    input: &mut I,
    out: &mut O,
) -> Status
    requires lawful { AreLawful limits.now }
    requires size { HasSize work }
    ensures leaves { Leaves work limits.now (I.left input.old) (I.left input.new) (O.written out.old) (O.written out.new) result }
    ensures unread { KeepsInput work input.old input.new }
    ensures read_fault { result ≡ Status.ReadFault → Rose (I.fault_count input.old) (I.fault_count input.new) }
    ensures write_fault { result ≡ Status.WriteFault → Rose (O.fault_count out.old) (O.fault_count out.new) }
    ensures quiet_in { result ≢ Status.ReadFault → I.fault_count input.new ≡ I.fault_count input.old }
    ensures quiet_out { result ≢ Status.WriteFault → O.fault_count out.new ≡ O.fault_count out.old }
    ensures not_refused { result ≢ Status.WordsRefused }
{
    match work {
        Work::Answer { task } => answer_script(alloc, matchers, task, limits, input, out),
        Work::Make { count } => make(count, out),
        Work::Drill { count } => drill(alloc, matchers, limits, count, out),
    }
}
