//! What the words ask for.
ghost use Rattle.std.specs.Prelude.{◌≡◌, IfOk, map, option_map, string_bytes};
ghost use Rattle.em_words.specs.Texts.{texts_of};
ghost use Rattle.em_words.specs.Meaning.{alone, job_of, meaning, setting, size, words_of};

use crate::fault::WordsFault;
use crate::given::{Given, split_words};
use crate::job::Job;
use crate::number::number_in;
use std::alloc::Global;

/// What the words of the command line ask for.
#[derive(Clone, Copy, Debug, PartialEq, Eq)]
pub struct Words {
    /// How many workers, from 0 to 64.
    pub workers: u32,
    /// How many rounds, from 0 to 1,000.
    pub rounds: u32,
    /// What to do.
    pub job: Job,
}

/// The number that an option has, or its default.
fn setting(text: Option<&str>, default: u32, most: u32) -> Option<u32>
    ensures { result ≡ setting (option_map (λ s. s.now) text.entry) default most }
{
    match text {
        None => Some(default),
        Some(text) => number_in(text, 0, most),
    }
}

/// The count.
fn size(text: Option<&str>) -> Option<u32>
    ensures { result ≡ size (option_map (λ s. s.now) text.entry) }
{
    match text {
        None => None,
        Some(text) => number_in(text, 2, 4000),
    }
}

/// A job that has no count.
fn alone(count: Option<&str>, job: Job) -> Option<Job>
    ensures { result ≡ alone (option_map (λ s. s.now) count.entry) job }
{
    match count {
        None => Some(job),
        Some(_) => None,
    }
}

/// The job of a command, with its count.
fn job_of(command: &str, count: Option<&str>) -> Option<Job>
    ensures { result ≡ job_of command.now (option_map (λ s. s.now) count.entry) }
{
    if command == "matches" {
        alone(count, Job::Matches)
    } else if command == "solve" {
        alone(count, Job::Solve)
    } else if command == "make" {
        size(count).map(|count| Job::Make { count })
    } else if command == "drill" {
        size(count).map(|count| Job::Drill { count })
    } else {
        None
    }
}

/// What the texts ask for.
fn words_of(given: &Given<'_>) -> Option<Words>
    ensures { result ≡ words_of (texts_of given.now) }
{
    let workers = setting(given.workers, 0, 64)?;
    let rounds = setting(given.rounds, 32, 1000)?;
    let job = job_of(given.command?, given.count)?;
    Some(Words {
        workers,
        rounds,
        job,
    })
}

/// Reads the words of the command line, those behind the program's name:
/// `[--workers N] [--rounds N] COMMAND [COUNT]`.
///
/// The words are refused exactly where they mean nothing.
pub fn read_words(alloc: Global, words: &[String]) -> Result<Words, WordsFault>
    ensures ok { IfOk result (λ read. meaning (map string_bytes words.now) ≡ Some read) }
    ensures refused { result ≡ Err WordsFault.Refused → meaning (map string_bytes words.now) ≡ None }
{
    let given = split_words(alloc, words)?;
    words_of(&given).ok_or(WordsFault::Refused)
}
