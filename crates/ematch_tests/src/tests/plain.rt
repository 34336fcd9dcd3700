//! Random scripts with foralls beside a plain search, which shares nothing with the program's.
use super::fixture::check_answers;
use em_outside::Limits;
use search_plain::{DECLARED, script_of};
use std::test::Fail;

/// How many rounds there are, as a number and as a word.
const ROUNDS: [(usize, &str); 4] = [(0, "0"), (1, "1"), (2, "2"), (3, "3")];

#[test]
fn random_scripts_with_foralls_end_as_the_plain_search_does(rt: HostRuntime) -> Result<(), Fail> {
    let alloc = rt.alloc();
    for seed in 0..10u64 {
        for (rounds, word) in ROUNDS {
            let script = script_of(alloc, seed, rounds)?;
            let answers = [(script.text.as_str(), script.answer.as_str())];
            check_answers(
                &rt,
                alloc,
                &Limits::standard(),
                &["--rounds", word, "solve"],
                DECLARED,
                &answers,
                0,
            )?;
        }
    }
    Ok(())
}
