//! Command lines and what they mean.
use super::*;
use std::alloc::{AllocError, Global};
use std::test::Fail;

/// The words of a line, with a bar between two.
fn words(alloc: Global, line: &str) -> Result<Vec<String>, AllocError> {
    let mut words = Vec::new(alloc);
    for word in line.split('|') {
        words.push(String::from_str(alloc, word)?)?;
    }
    Ok(words)
}

/// What the words of a line ask for: the workers, the rounds and the job.
fn answer(alloc: Global, line: &str) -> Result<String, AllocError> {
    let words = words(alloc, line)?;
    match read_words(alloc, words.as_slice()) {
        Ok(read) => format!(in alloc; "{} {} {:?}", read.workers, read.rounds, read.job),
        Err(WordsFault::Refused) => String::from_str(alloc, "refused").map_err(|_| AllocError),
        Err(WordsFault::Memory) => String::from_str(alloc, "no memory").map_err(|_| AllocError),
    }
}

/// Lines with their answers.
const ROWS: &str = "\
matches -> 0 32 Matches
solve -> 0 32 Solve
make|2 -> 0 32 Make { count: 2 }
make|4000 -> 0 32 Make { count: 4000 }
drill|500 -> 0 32 Drill { count: 500 }
--workers|3|matches -> 3 32 Matches
matches|--workers|3 -> 3 32 Matches
matches|--workers=64 -> 64 32 Matches
--workers=0|matches -> 0 32 Matches
solve|--rounds|1000 -> 0 1000 Solve
--rounds=0|solve -> 0 0 Solve
--rounds=7|make|--workers=8|5 -> 8 7 Make { count: 5 }
drill|--rounds|7|5|--workers|8 -> 8 7 Drill { count: 5 }
--|matches -> 0 32 Matches
matches|-- -> 0 32 Matches
make|--|5 -> 0 32 Make { count: 5 }
--workers|3|--|matches -> 3 32 Matches
 -> refused
matches| -> refused
-- -> refused
--workers|3 -> refused
other -> refused
Matches -> refused
matches  -> refused
ü -> refused
make|ü -> refused
matches|5 -> refused
solve|5 -> refused
matches|matches -> refused
make -> refused
drill -> refused
5|make -> refused
make|5|6 -> refused
make|1 -> refused
make|4001 -> refused
make|05 -> refused
make|+5 -> refused
make|5.0 -> refused
make| 5 -> refused
make|0 -> refused
make|99999999999 -> refused
make|- -> refused
make|-5 -> refused
make|--|-5 -> refused
make|--|5|--workers|8 -> refused
- -> refused
-5 -> refused
--workers|65|matches -> refused
--workers=65|matches -> refused
--workers|03|matches -> refused
--workers|00|matches -> refused
--workers|+3|matches -> refused
--workers||matches -> refused
--workers=|matches -> refused
--workers|ü|matches -> refused
--workers|-|matches -> refused
--workers|-1|matches -> refused
--workers=-1|matches -> refused
--workers=5=5|matches -> refused
--workers|=5|matches -> refused
--workers|--|matches -> refused
--workers|--rounds|5|matches -> refused
matches|--workers -> refused
matches|--workers|1|--workers|2 -> refused
matches|--workers=1|--workers=1 -> refused
matches|--workers=1|--workers|2 -> refused
matches|--workers=1|--workers -> refused
--rounds|1001|solve -> refused
--rounds=032|solve -> refused
solve|--rounds|1|--rounds=2 -> refused
matches|--|-- -> refused
--|--|matches -> refused
make|--|-- -> refused
matches|--|--workers=1 -> refused
matches|--work|3 -> refused
matches|--work=3 -> refused
--WORKERS|3|matches -> refused
--workers |3|matches -> refused
-workers|3|matches -> refused
---workers|3|matches -> refused
--=3|matches -> refused
matches|-ü -> refused
matches|--ü -> refused
matches|-h -> refused
matches|--help -> refused
matches|-V -> refused
matches|--version -> refused
help -> refused
help|matches -> refused
matches|help -> refused";

#[test]
fn lines_have_their_answers(rt: HostRuntime) -> Result<(), Fail> {
    for row in ROWS.split('\n') {
        let (line, wanted) = row.split_once(" -> ").ok_or("no answer")?;
        let given = answer(rt.alloc(), line)?;
        assert_eq!(rt; given.as_str(), wanted, "at {line:?}");
    }
    Ok(())
}

#[test]
fn no_words_are_refused(rt: HostRuntime) -> Result<(), Fail> {
    let words = Vec::new(rt.alloc());
    assert_eq!(rt;
        read_words(rt.alloc(), words.as_slice()),
        Err(WordsFault::Refused)
    );
    Ok(())
}

/// What the program is asked by the words of a line.
fn asked(alloc: Global, line: &str) -> Result<Option<Asked>, AllocError> {
    let words = words(alloc, line)?;
    read_asked(alloc, words.as_slice())
}

#[test]
fn words_ask_for_a_work_and_workers(rt: HostRuntime) -> Result<(), Fail> {
    let alloc = rt.alloc();
    let matches = Asked {
        work: Work::Answer {
            task: Task::Matches,
        },
        workers: 64,
    };
    let solve = Asked {
        work: Work::Answer {
            task: Task::Solve { rounds: 7 },
        },
        workers: 0,
    };
    let drill = Asked {
        work: Work::Drill { count: 4000 },
        workers: 3,
    };
    assert_eq!(rt; asked(alloc, "--workers|64|matches")?, Some(matches));
    assert_eq!(rt; asked(alloc, "solve|--rounds=7")?, Some(solve));
    assert_eq!(rt; asked(alloc, "drill|4000|--workers=3")?, Some(drill));
    assert_eq!(rt; asked(alloc, "--workers=65|matches")?, None);
    assert_eq!(rt; asked(alloc, "make|1")?, None);
    Ok(())
}

#[test]
fn work_for_no_workers(rt: HostRuntime) -> Result<(), Fail> {
    let alloc = rt.alloc();
    let line = words(alloc, "make|2")?;
    let made = Some(Work::Make { count: 2 });
    assert_eq!(rt; read_work(alloc, line.as_slice())?, made);
    let shared = words(alloc, "--workers=1|make|2")?;
    assert_eq!(rt; read_work(alloc, shared.as_slice())?, None);
    Ok(())
}
