//! Random scripts with foralls, and what the plain search answers.
use crate::author::Author;
use crate::draft::Draft;
use crate::random::Random;
use crate::search::{Verdict, search};
use crate::world::World;
use std::alloc::{AllocError, Global};

/// What the scripts declare: a sort, functions of one and two arguments, predicates and constants.
pub const DECLARED: &str =
    "(declare-sort U 0)(declare-fun f (U) U)(declare-fun g (U) U)(declare-fun k (U U) U)(declare-fun p (U) Bool)(declare-fun r (U U) Bool)(declare-const a U)(declare-const b U)(declare-const c U)(declare-const q Bool)\n";

/// How many commands a script has before its last check, the most steps of a search, and the most terms of a state.
const COMMANDS: usize = 16;

const MOST_STEPS: usize = 150;

const MOST_TERMS: usize = 60;

/// A script so far, to stand behind `DECLARED`, the lines that answer it, what is entered and asserted, and what was when
/// each open level was opened.
#[derive(Drop)]
pub struct Script {
    pub text: String,
    pub answer: String,
    drafts: Vec<Draft>,
    world: World,
    saved: Vec<World>,
}

impl Script {
    /// A formula is asserted.
    fn assert_one(&mut self, alloc: Global, random: Random) -> Result<Random, AllocError> {
        let mut author = Author {
            alloc,
            random,
            draft: Draft::new(alloc),
            variables: 0,
        };
        let (text, root) = if author.random.below(5) < 2 {
            author.with_forall()?
        } else {
            let formula = author.any()?;
            (formula.text, formula.node)
        };
        let line = format!(in alloc; "(assert {text})\n")?;
        self.text.push_str(line.as_str())?;
        let Author { draft, random, .. } = author;
        let number = self.drafts.len();
        let entered = self
            .world
            .enter(alloc, number, &draft, root, &[None, None])?;
        self.world.assert(entered);
        self.drafts.push(draft)?;
        Ok(random)
    }

    /// A level is opened.
    fn open_level(&mut self) -> Result<(), AllocError> {
        self.saved.push(self.world.copy()?)?;
        self.text.push_str("(push 1)\n")
    }

    /// The last level ends, if one is open.
    fn end_level(&mut self) -> Result<(), AllocError> {
        if let Some(before) = self.saved.pop() {
            self.world = before;
            self.text.push_str("(pop 1)\n")?;
        }
        Ok(())
    }

    /// A check, with its verdict and its reason, unless the plain search of it would be long.
    fn check_now(&mut self, alloc: Global, rounds: usize) -> Result<(), AllocError> {
        let world = self.world.copy()?;
        let drafts = self.drafts.as_slice();
        let ending = search(alloc, drafts, world, rounds, MOST_STEPS, MOST_TERMS)?;
        if let Some(verdict) = ending {
            self.text
                .push_str("(check-sat)(get-info :reason-unknown)\n")?;
            self.answer.push_str(answer_of(verdict))?;
        }
        Ok(())
    }
}

/// What is written at a check and at the question for a reason.
fn answer_of(verdict: Verdict) -> &'static str {
    match verdict {
        Verdict::Unsat => "unsat\nunsupported\n",
        Verdict::Sat => "sat\nunsupported\n",
        Verdict::Incomplete => "unknown\n(:reason-unknown incomplete)\n",
        Verdict::Rounds => "unknown\n(:reason-unknown rounds)\n",
    }
}

/// The script of a seed: assertions in levels, with a check now and then and one at its end, each answered with so many
/// rounds at most, and a question for its reason. A check whose plain search would be long is left out. The error is want
/// of memory.
pub fn script_of(alloc: Global, seed: u64, rounds: usize) -> Result<Script, AllocError> {
    let mut random = Random { state: seed };
    let mut script = Script {
        text: String::new(alloc),
        answer: String::new(alloc),
        drafts: Vec::new(alloc),
        world: World::new(alloc)?,
        saved: Vec::new(alloc),
    };
    for _ in 0..COMMANDS {
        match random.below(9) {
            0 => script.open_level()?,
            1 => script.end_level()?,
            2 => script.check_now(alloc, rounds)?,
            _ => random = script.assert_one(alloc, random)?,
        }
    }
    script.check_now(alloc, rounds)?;
    Ok(script)
}
