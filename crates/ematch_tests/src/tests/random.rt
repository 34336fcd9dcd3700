//! Random ground scripts beside all truth values of their atoms.
ghost use Rattle.std.specs.Prelude.{◌≢◌};

use super::fixture::check_answers;
use em_outside::Limits;
use std::alloc::{AllocError, Global};
use std::test::Fail;

/// What the scripts declare, and how their atoms are written.
const DECLARED: &str =
    "(declare-sort U 0)(declare-const a U)(declare-const b U)(declare-const c U)(declare-const q Bool)(declare-const r Bool)(declare-const s Bool)\n";

const ATOMS: [&str; 6] = ["(= a b)", "(= c b)", "(= a c)", "q", "r", "s"];

/// For each atom the worlds in which it is true. A world is a bit: its number's i-th bit tells whether atom i is true there.
const WORLDS: [u64; 6] = [
    0xaaaa_aaaa_aaaa_aaaa,
    0xcccc_cccc_cccc_cccc,
    0xf0f0_f0f0_f0f0_f0f0,
    0xff00_ff00_ff00_ff00,
    0xffff_0000_ffff_0000,
    0xffff_ffff_0000_0000,
];

/// The worlds in which equality is transitive: of the three equations not just two are true.
const POSSIBLE: u64 = 0x9797_9797_9797_9797;

/// Numbers that look random, from a seed.
#[derive(Drop)]
struct Random {
    state: u64,
}

impl Random {
    /// The next number below a bound, which is above 0.
    fn below(&mut self, bound: u64) -> u64
        requires { bound ≢ 0 }
    {
        self.state = self
            .state
            .wrapping_mul(6_364_136_223_846_793_005)
            .wrapping_add(1_442_695_040_888_963_407);
        (self.state >> 33) % bound
    }
}

/// A formula, and the worlds in which it is true.
#[derive(Drop)]
struct Shape {
    text: String,
    worlds: u64,
}

/// One of the atoms.
fn atom(alloc: Global, random: &mut Random) -> Result<Shape, AllocError> {
    let i = random.below(6) as usize;
    match (ATOMS.get(i), WORLDS.get(i)) {
        (Some(text), Some(worlds)) => Ok(Shape {
            text: String::from_str(alloc, text)?,
            worlds: *worlds,
        }),
        _ => Err(AllocError),
    }
}

/// Two formulas under a connective.
fn joined(alloc: Global, choice: u64, one: Shape, other: Shape) -> Result<Shape, AllocError> {
    let (word, worlds) = match choice {
        0 => ("and", one.worlds & other.worlds),
        1 => ("or", one.worlds | other.worlds),
        2 => ("xor", one.worlds ^ other.worlds),
        3 => ("=>", !one.worlds | other.worlds),
        _ => ("=", !(one.worlds ^ other.worlds)),
    };
    let text = format!(in alloc; "({word} {} {})", one.text, other.text)?;
    Ok(Shape { text, worlds })
}

/// The formula denied.
fn denied(alloc: Global, shape: Shape) -> Result<Shape, AllocError> {
    let text = format!(in alloc; "(not {})", shape.text)?;
    Ok(Shape {
        text,
        worlds: !shape.worlds,
    })
}

/// The formula under one more connective, at either side of it.
fn grown(alloc: Global, random: &mut Random, shape: Shape) -> Result<Shape, AllocError> {
    let choice = random.below(6);
    if choice == 5 {
        return denied(alloc, shape);
    }
    let other = atom(alloc, random)?;
    if random.below(2) == 0 {
        return joined(alloc, choice, shape, other);
    }
    joined(alloc, choice, other, shape)
}

/// A formula of four connectives.
fn formula(alloc: Global, random: &mut Random) -> Result<Shape, AllocError> {
    let first = atom(alloc, random)?;
    let second = grown(alloc, random, first)?;
    let third = grown(alloc, random, second)?;
    let fourth = grown(alloc, random, third)?;
    grown(alloc, random, fourth)
}

/// A script so far, its verdicts, the worlds in which all that stands is true, and those of each open level.
#[derive(Drop)]
struct Script {
    text: String,
    answer: String,
    worlds: u64,
    saved: Vec<u64>,
}

/// A formula is asserted.
fn assert_one(alloc: Global, random: &mut Random, script: &mut Script) -> Result<(), AllocError> {
    let shape = formula(alloc, random)?;
    script.worlds &= shape.worlds;
    let line = format!(in alloc; "(assert {})", shape.text)?;
    script.text.push_str(line.as_str())
}

/// A level is opened.
fn open_level(script: &mut Script) -> Result<(), AllocError> {
    script.saved.push(script.worlds)?;
    script.text.push_str("(push 1)")
}

/// The last level ends, if one is open.
fn end_level(script: &mut Script) -> Result<(), AllocError> {
    if let Some(before) = script.saved.pop() {
        script.worlds = before;
        script.text.push_str("(pop 1)")?;
    }
    Ok(())
}

/// A check, with its verdict.
fn check_now(script: &mut Script) -> Result<(), AllocError> {
    script.text.push_str("(check-sat)\n")?;
    let verdict = if script.worlds == 0 {
        "unsat\n"
    } else {
        "sat\n"
    };
    script.answer.push_str(verdict)
}

/// A script of assertions in levels, each followed by a check.
fn script_of(alloc: Global, seed: u64) -> Result<Script, AllocError> {
    let mut random = Random { state: seed };
    let mut script = Script {
        text: String::new(alloc),
        answer: String::new(alloc),
        worlds: POSSIBLE,
        saved: Vec::new(alloc),
    };
    for _ in 0..10 {
        match random.below(5) {
            0 => open_level(&mut script)?,
            1 => end_level(&mut script)?,
            _ => assert_one(alloc, &mut random, &mut script)?,
        }
        check_now(&mut script)?;
    }
    Ok(script)
}

#[test]
fn random_ground_scripts_are_sat_where_a_world_makes_them_true(
    rt: HostRuntime,
) -> Result<(), Fail> {
    let alloc = rt.alloc();
    for seed in 0..40u64 {
        let script = script_of(alloc, seed)?;
        let answers = [(script.text.as_str(), script.answer.as_str())];
        check_answers(
            &rt,
            alloc,
            &Limits::standard(),
            &["solve"],
            DECLARED,
            &answers,
            0,
        )?;
    }
    Ok(())
}
