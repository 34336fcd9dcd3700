//! What the program does.
ghost use Rattle.std.specs.Prelude.{◌≡◌, IfOk, IfSome};
ghost use Rattle.em_words.specs.Work.{HasSize, work_alone, work_of};

use crate::{Job, Task, WordsFault, read_words};
use std::alloc::{AllocError, Global};

/// What the program does.
#[derive(Clone, Copy, Debug, PartialEq, Eq)]
pub enum Work {
    /// It answers the script on its input.
    Answer {
        task: Task,
    },
    /// It writes the generated script of a size.
    Make {
        /// The size, from 2 to 4,000.
        count: u32,
    },
    /// It counts the matches of the generated script of a size.
    Drill {
        /// The size, from 2 to 4,000.
        count: u32,
    },
}

/// The work of a job, where a search may have so many rounds.
pub(crate) fn work_of(job: Job, rounds: u32) -> Work
    ensures { result ≡ work_of job rounds }
{
    match job {
        Job::Matches => Work::Answer {
            task: Task::Matches,
        },
        Job::Solve => Work::Answer {
            task: Task::Solve { rounds },
        },
        Job::Make { count } => Work::Make { count },
        Job::Drill { count } => Work::Drill { count },
    }
}

/// The work that the words behind the program's name ask for, where they are of the form and ask for no workers. It fails
/// only for want of memory.
pub fn read_work(alloc: Global, words: &[String]) -> Result<Option<Work>, AllocError>
    ensures work { IfOk result (λ work. work ≡ work_alone words.now) }
    ensures size { IfOk result (λ work. IfSome work HasSize) }
{
    match read_words(alloc, words) {
        Ok(read) if read.workers == 0 => Ok(Some(work_of(read.job, read.rounds))),
        Ok(_) | Err(WordsFault::Refused) => Ok(None),
        Err(WordsFault::Memory) => Err(AllocError),
    }
}
