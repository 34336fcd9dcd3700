//! What the words ask of the program.
ghost use Rattle.std.specs.Prelude.{◌≡◌, ◌≤◌, IfOk, IfSome};
ghost use Rattle.em_words.specs.Asked.{asked_in, asked_of};
ghost use Rattle.em_words.specs.Work.{HasSize};

use crate::fault::WordsFault;
use crate::words::{Words, read_words};
use crate::work::{Work, work_of};
use std::alloc::{AllocError, Global};

/// What the words ask of the program: what it does, and by how many workers matches are found.
#[derive(Clone, Copy, Debug, PartialEq, Eq)]
pub struct Asked {
    /// What it does.
    pub work: Work,
    /// How many workers, from 0 to 64. With 0 the caller matches.
    pub workers: u32,
}

/// What is asked by words that are of the form.
fn asked_in(words: &Words) -> Asked
    ensures { result ≡ asked_in words.now }
{
    Asked {
        work: work_of(words.job, words.rounds),
        workers: words.workers,
    }
}

/// What the words behind the program's name ask for, where they are of the form. The workers are 64 at most. It fails only
/// for want of memory.
pub fn read_asked(alloc: Global, words: &[String]) -> Result<Option<Asked>, AllocError>
    ensures asked { IfOk result (λ asked. asked ≡ asked_of words.now) }
    ensures workers { IfOk result (λ asked. IfSome asked (λ a. a.workers ≤ 64)) }
    ensures size { IfOk result (λ asked. IfSome asked (λ a. HasSize a.work)) }
{
    match read_words(alloc, words) {
        Ok(read) => Ok(Some(asked_in(&read))),
        Err(WordsFault::Refused) => Ok(None),
        Err(WordsFault::Memory) => Err(AllocError),
    }
}
