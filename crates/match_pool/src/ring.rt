//! Matchers in a ring: each steals from the next one's deque, and the last one from the first one's.
ghost use Rattle.std.specs.Prelude.{◌≡◌, ◌+◌, ◌<◌, ◌++◌, [], ℕ, All, Some, None, IfOk, OnOk, length, replicate};
ghost use Rattle.std.specs.List.{AllZip};
ghost use Rattle.std.specs.Thread.{IsSync};
ghost use Rattle.crossbeam_deque.specs.Handles.{worker_flavor, worker_view};
ghost use Rattle.match_pool.specs.Once.{IsAnswerIn, IsAsked, items_of};
ghost use Rattle.match_pool.specs.Ring.{Follow, HasWorked, IsAlone, IsFresh, IsOneOf, IsRing, answers_by, pushed_by, starved_by, taken_by, workers_by};
ghost use Rattle.match_pool.specs.Stealing.{Fits, IsSameOwner, stolen};
ghost use Rattle.match_pool.specs.Weights.{weigh, weigh_below};

use crate::deal::{Halves, Owner, Push};
use crate::findings::Findings;
use crate::gate::Gate;
use crate::matcher::{Matcher, pop_own, run_matcher};
use crate::pieces::Pieces;
use crate::thief::Thief;
use graph_meaning::ClassGraph;
use graph_terms::Memory;
use match_forest::CodeForest;
use match_machine::Batch;
use std::alloc::Global;
use std::thread::{Threads, join_mut};

/// The slots that a deque begins with.
const SLOTS: usize = 4;

/// A matcher with nothing to do, and room for so many starved numbers.
fn new_matcher(alloc: Global, worker: u32, room: usize) -> Result<Matcher, Memory>
    ensures alone { IfOk result (λ m. (workers : ℕ) → worker < workers → IsAlone workers m) }
    ensures pushed { IfOk result (λ m. (worker_view m.own).pushed ≡ []) }
{
    let found = Findings {
        answers: Vec::new(alloc),
        starved: Vec::with_capacity(alloc, room)?,
    };
    let own = Owner::fifo_as(alloc, SLOTS)?;
    Ok(Matcher {
        worker,
        own,
        next: None,
        found,
    })
}

/// So many matchers with nothing to do.
pub fn new_matchers(alloc: Global, workers: u32, room: usize) -> Result<Vec<Matcher>, Memory>
    ensures alone { IfOk result (λ ms. All (IsAlone workers) ms.items) }
    ensures pushed { IfOk result (λ ms. (h : ℕ → ℕ) → pushed_by h ms.items ≡ 0) }
    ensures many { IfOk result (λ ms. length ms.items ≡ workers) }
{
    let mut matchers = Vec::new(alloc);
    for worker in 0..workers {
        matchers.push(new_matcher(alloc, worker, room)?)?;
    }
    Ok(matchers)
}

/// Pushes one number, which is starved where that is refused.
fn hand_out(own: &mut Owner, number: u32, starved: &mut Vec<u32>) -> Result<(), Memory>
    requires { 0 < (worker_view own.old).parts }
    ensures flavor { worker_flavor own.new ≡ worker_flavor own.old }
    ensures parts { (worker_view own.new).parts ≡ (worker_view own.old).parts }
    ensures taken { (worker_view own.new).taken ≡ (worker_view own.old).taken }
    ensures pushed { OnOk result ((h : ℕ → ℕ) → weigh h (worker_view own.new).pushed + weigh h starved.new.items ≡ weigh h (worker_view own.old).pushed + weigh h starved.old.items + h number) }
{
    match own.push_as::<Push>(number) {
        Ok(()) => Ok(()),
        Err(number) => match starved.push(number) {
            Ok(()) => Ok(()),
            Err(_) => Err(Memory),
        },
    }
}

/// Pushes one number to the matcher whose turn it is.
fn deal_one(
    matchers: &mut [Matcher],
    at: usize,
    number: u32,
    starved: &mut Vec<u32>,
    workers: u32,
) -> Result<(), Memory>
    requires at { at < length matchers.old }
    requires alone { All (IsAlone workers) matchers.old }
    ensures many { length matchers.new ≡ length matchers.old }
    ensures alone { All (IsAlone workers) matchers.new }
    ensures pushed { OnOk result ((h : ℕ → ℕ) → pushed_by h matchers.new + weigh h starved.new.items ≡ pushed_by h matchers.old + weigh h starved.old.items + h number) }
{
    hand_out(&mut matchers[at].own, number, starved)
}

/// Pushes the numbers below `count`, each to the matcher with that number modulo the number of matchers. Those for which
/// there is no memory are starved.
pub fn deal(
    matchers: &mut [Matcher],
    workers: u32,
    count: u32,
    starved: &mut Vec<u32>,
) -> Result<(), Memory>
    requires workers { (0 < workers) × (length matchers.old ≡ workers) }
    requires alone { All (IsAlone workers) matchers.old }
    ensures alone { All (IsAlone workers) matchers.new }
    ensures pushed { OnOk result ((h : ℕ → ℕ) → pushed_by h matchers.new + weigh h starved.new.items ≡ pushed_by h matchers.old + weigh h starved.old.items + weigh_below h count) }
{
    for number in 0..count {
        deal_one(
            matchers,
            (number % workers) as usize,
            number,
            starved,
            workers,
        )?;
    }
    Ok(())
}

/// A thief of this deque.
fn thief_of(own: &mut Owner) -> Result<Thief, Memory>
    requires parts { (worker_view own.old).parts ≡ 2 }
    ensures flavor { worker_flavor own.new ≡ worker_flavor own.old }
    ensures pushed { (worker_view own.new).pushed ≡ (worker_view own.old).pushed }
    ensures taken { (worker_view own.new).taken ≡ (worker_view own.old).taken }
    ensures fits { IfOk result (λ thief. Fits (Some thief) own.new) }
    ensures stolen { IfOk result (λ thief. stolen (Some thief) ≡ []) }
{
    let robber = own.stealer()?;
    let pass = own.another::<Halves>();
    Ok(Thief { robber, pass })
}

/// Gives each matcher the thief of the next one's deque, and the last one `closing`.
fn link_rest(
    owner: &Owner,
    next: &mut Option<Thief>,
    rest: &mut [Matcher],
    closing: Thief,
    workers: u32,
) -> Result<(), Memory>
    requires alone { All (IsAlone workers) rest.old }
    requires closing { Fits (Some closing) owner.now × (stolen (Some closing) ≡ []) }
    ensures follow { OnOk result (Follow owner.now next.new rest.new × (stolen next.new ≡ [])) }
    ensures fresh { OnOk result (All IsFresh rest.new × All (IsOneOf workers) rest.new) }
    ensures pushed { OnOk result ((h : ℕ → ℕ) → pushed_by h rest.new ≡ pushed_by h rest.old) }
{
    let Some((m, more)) = rest.split_first_mut() else {
        *next = Some(closing);
        return Ok(());
    };
    *next = Some(thief_of(&mut m.own)?);
    link_rest(owner, &mut m.next, more, closing, workers)
}

/// Gives each matcher the thief of the next one's deque, and the last one that of the first one's. One matcher alone has
/// no thief.
pub fn link(matchers: &mut [Matcher], workers: u32) -> Result<(), Memory>
    requires alone { All (IsAlone workers) matchers.old }
    ensures ring { OnOk result (IsRing matchers.new) }
    ensures fresh { OnOk result (All IsFresh matchers.new × All (IsOneOf workers) matchers.new) }
    ensures pushed { OnOk result ((h : ℕ → ℕ) → pushed_by h matchers.new ≡ pushed_by h matchers.old) }
{
    let Some((first, rest)) = matchers.split_first_mut() else {
        return Ok(());
    };
    if rest.len() == 0 {
        return Ok(());
    }
    let closing = thief_of(&mut first.own)?;
    link_rest(&first.own, &mut first.next, rest, closing, workers)
}

/// Runs a list of matchers, by halves.
pub fn run_matchers<R: Threads + Sync, G: ClassGraph + Sync, T: Gate + Sync>(
    rt: &R,
    alloc: Global,
    forest: &CodeForest,
    graph: &G,
    gate: &T,
    batch: &Batch,
    matchers: &mut [Matcher],
)
    requires asked { All (IsAsked forest.now) batch.now }
    requires fresh { All IsFresh matchers.old }
    ensures { AllZip (HasWorked (IsAnswerIn (G.standing graph.now) (G.done graph.now) forest.now batch.now)) matchers.old matchers.new }
{
    if matchers.len() < 2 {
        if let [matcher] = matchers {
            run_matcher(alloc, forest, graph, gate, batch, matcher);
        }
        return;
    }
    let middle = matchers.len() / 2;
    let (front, back) = matchers.split_at_mut(middle);
    join_mut(
        rt,
        &mut ||
            requires { IsSync R.row × IsSync G.row × IsSync T.row × All (IsAsked forest.now) batch.now × All IsFresh front.now }
            ensures { AllZip (HasWorked (IsAnswerIn (G.standing graph.entry.now) (G.done graph.entry.now) forest.entry.now batch.entry.now)) front.entry.now front.exit.now }
        { run_matchers(rt, alloc, forest, graph, gate, batch, front) },
        &mut ||
            requires { IsSync R.row × IsSync G.row × IsSync T.row × All (IsAsked forest.now) batch.now × All IsFresh back.now }
            ensures { AllZip (HasWorked (IsAnswerIn (G.standing graph.entry.now) (G.done graph.entry.now) forest.entry.now batch.entry.now)) back.entry.now back.exit.now }
        { run_matchers(rt, alloc, forest, graph, gate, batch, back) },
    );
}

/// Takes a thief's pass back.
fn absorb(own: &mut Owner, thief: Option<Thief>)
    requires { Fits thief own.old }
    ensures flavor { worker_flavor own.new ≡ worker_flavor own.old }
    ensures parts { (worker_view own.new).parts ≡ 2 }
    ensures pushed { (worker_view own.new).pushed ≡ (worker_view own.old).pushed }
    ensures taken { (worker_view own.new).taken ≡ (worker_view own.old).taken ++ stolen thief }
{
    if let Some(thief) = thief {
        let Thief { robber: _, pass } = thief;
        own.absorb::<Halves>(pass);
    }
}

/// Takes out what is left.
fn drain(own: &mut Owner, starved: &mut Vec<u32>) -> Result<(), Memory>
    requires { (worker_flavor own.old ≡ 0) × ((worker_view own.old).parts ≡ 2) }
    ensures { OnOk result ((h : ℕ → ℕ) → weigh h (worker_view own.old).pushed + weigh h starved.old.items ≡ weigh h (worker_view own.old).taken + weigh h starved.new.items) }
{
    for round in 0..u64::MAX {
        let _turn = round;
        let Some(number) = pop_own(own) else {
            return Ok(());
        };
        starved.push(number)?;
    }
    Err(Memory)
}

/// Takes back the pass with which a deque was stolen from, and starves what is left in it.
fn close(own: &mut Owner, thief: Option<Thief>, starved: &mut Vec<u32>) -> Result<(), Memory>
    requires { (worker_flavor own.old ≡ 0) × Fits thief own.old }
    ensures { OnOk result ((h : ℕ → ℕ) → weigh h (worker_view own.old).pushed + weigh h starved.old.items ≡ weigh h (worker_view own.old).taken + weigh h (stolen thief) + weigh h starved.new.items) }
{
    absorb(own, thief);
    drain(own, starved)
}

/// Puts the worker's number last so often.
fn put_worker(ran: &mut Vec<u32>, worker: u32, many: usize) -> Result<(), Memory>
    ensures { OnOk result (ran.new.items ≡ ran.old.items ++ replicate many worker) }
{
    let Some(all) = ran.len().checked_add(many) else {
        return Err(Memory);
    };
    ran.resize(all, worker)?;
    Ok(())
}

/// Puts what one matcher found last.
pub fn put_found(pieces: &mut Pieces, worker: u32, found: &mut Findings) -> Result<(), Memory>
    ensures answers { OnOk result (pieces.new.answers.items ≡ pieces.old.answers.items ++ found.old.answers.items) }
    ensures ran { OnOk result (pieces.new.ran.items ≡ pieces.old.ran.items ++ replicate (length found.old.answers.items) worker) }
    ensures starved { OnOk result (pieces.new.starved.items ≡ pieces.old.starved.items ++ found.old.starved.items) }
    ensures shut { pieces.new.shut.items ≡ pieces.old.shut.items }
{
    put_worker(&mut pieces.ran, worker, found.answers.len())?;
    pieces.answers.append(&mut found.answers)?;
    pieces.starved.append(&mut found.starved)?;
    Ok(())
}

/// Takes the passes back one by one, beginning with `next`, and puts last what these matchers found. The last of them
/// steals from the owner's deque.
fn gather_rest(
    owner: &mut Owner,
    next: Option<Thief>,
    rest: &mut [Matcher],
    pieces: &mut Pieces,
) -> Result<(), Memory>
    requires { (worker_flavor owner.old ≡ 0) × Follow owner.old next rest.old }
    ensures answers { OnOk result (pieces.new.answers.items ≡ pieces.old.answers.items ++ answers_by rest.old) }
    ensures ran { OnOk result (pieces.new.ran.items ≡ pieces.old.ran.items ++ workers_by rest.old) }
    ensures starved { OnOk result ((h : ℕ → ℕ) → weigh h pieces.old.starved.items + weigh h (worker_view owner.old).pushed + pushed_by h rest.old + starved_by h rest.old ≡ weigh h pieces.new.starved.items + weigh h (worker_view owner.old).taken + weigh h (stolen next) + taken_by h rest.old) }
    ensures shut { pieces.new.shut.items ≡ pieces.old.shut.items }
{
    let Some((m, more)) = rest.split_first_mut() else {
        return close(owner, next, &mut pieces.starved);
    };
    close(&mut m.own, next, &mut pieces.starved)?;
    put_found(pieces, m.worker, &mut m.found)?;
    gather_rest(owner, m.next.take(), more, pieces)
}

/// Takes all passes back, and puts last what the matchers found, and among the starved what is left in the deques.
pub fn gather(matchers: &mut [Matcher], pieces: &mut Pieces) -> Result<(), Memory>
    requires { IsRing matchers.old }
    ensures answers { OnOk result (pieces.new.answers.items ≡ pieces.old.answers.items ++ answers_by matchers.old) }
    ensures ran { OnOk result (pieces.new.ran.items ≡ pieces.old.ran.items ++ workers_by matchers.old) }
    ensures starved { OnOk result ((h : ℕ → ℕ) → weigh h pieces.old.starved.items + pushed_by h matchers.old + starved_by h matchers.old ≡ weigh h pieces.new.starved.items + taken_by h matchers.old) }
    ensures shut { pieces.new.shut.items ≡ pieces.old.shut.items }
{
    let Some((first, rest)) = matchers.split_first_mut() else {
        return Ok(());
    };
    put_found(pieces, first.worker, &mut first.found)?;
    gather_rest(&mut first.own, first.next.take(), rest, pieces)
}
