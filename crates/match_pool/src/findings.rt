//! What a matcher found.
ghost use Rattle.std.specs.Prelude.{◌≡◌, ◌+◌, ◌<◌, ◌≤◌, All, vec_len, vec_capacity, IfSome};
ghost use Rattle.match_pool.specs.Once.{IsAnswerIn, IsAsked};
ghost use Rattle.match_pool.specs.Found.{Puts, TakesOn};

use crate::gate::Gate;
use graph_meaning::ClassGraph;
use match_forest::CodeForest;
use match_machine::run::run;
use match_machine::{Answer, Batch};
use std::alloc::Global;

/// Answers, and the numbers of items for which there was no memory.
#[derive(Drop)]
pub struct Findings {
    pub answers: Vec<Answer>,
    pub starved: Vec<u32>,
}

/// The answer to the item with the number, or `None` where there is no memory for it.
fn answer_to<G: ClassGraph, T: Gate>(
    alloc: Global,
    forest: &CodeForest,
    graph: &G,
    gate: &T,
    batch: &Batch,
    worker: u32,
    number: u32,
) -> Option<Answer>
    requires { All (IsAsked forest.now) batch.now }
    ensures item { IfSome result (λ answer. answer.item ≡ number) }
    ensures answer { IfSome result (λ answer. IsAnswerIn (G.standing graph.now) (G.done graph.now) forest.now batch.now answer) }
{
    if number >= batch.len() {
        return None;
    }
    gate.at_item(worker, number);
    run(alloc, forest, graph, batch.get(number)).ok()
}

impl Findings {
    /// Puts the answer last. Where there is none, or no room for it, the number is starved.
    fn put(&mut self, number: u32, answer: Option<Answer>)
        requires { vec_len self.old.starved < vec_capacity self.old.starved }
        ensures puts { Puts number answer self.old self.new }
        ensures few { (vec_len self.new.starved ≤ vec_len self.old.starved + 1) × (vec_capacity self.new.starved ≡ vec_capacity self.old.starved) }
    {
        let Some(answer) = answer else {
            self.starved.push_reserved(number);
            return;
        };
        match self.answers.push(answer) {
            Ok(()) => {}
            Err(_) => self.starved.push_reserved(number),
        }
    }

    /// Runs the item with the number.
    pub fn take_on<G: ClassGraph, T: Gate>(
        &mut self,
        alloc: Global,
        forest: &CodeForest,
        graph: &G,
        gate: &T,
        batch: &Batch,
        worker: u32,
        number: u32,
    )
        requires asked { All (IsAsked forest.now) batch.now }
        requires room { vec_len self.old.starved < vec_capacity self.old.starved }
        ensures takes { TakesOn (IsAnswerIn (G.standing graph.now) (G.done graph.now) forest.now batch.now) number self.old self.new }
        ensures few { (vec_len self.new.starved ≤ vec_len self.old.starved + 1) × (vec_capacity self.new.starved ≡ vec_capacity self.old.starved) }
    {
        let answer = answer_to(alloc, forest, graph, gate, batch, worker, number);
        self.put(number, answer);
    }
}
