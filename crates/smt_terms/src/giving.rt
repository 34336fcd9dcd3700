//! Gives values to open lists.
ghost use Rattle.std.specs.Prelude.{◌≡◌, ◌≤◌, ◌+◌, ◌++◌, reverse, OnOk};
ghost use Rattle.smt_terms.specs.Cursor.{trees_from, word_at};
ghost use Rattle.smt_terms.specs.Machine.{weight, load, base_of, Continues, Gives, GivesOn, PutsIn, binds_in};

use crate::cursor::{binding_at, text_at};
use crate::frame::Frame;
use crate::given::Given;
use crate::next::Next;
use crate::round::Round;
use crate::work::Work;
use graph_terms::{Memory, Name};
use smt_names::{Arg, Bound, BoundNames, Stands};
use smt_text::{Place, Tree};
use std::alloc::Global;

/// Binds more names.
pub fn bind_all(bound: &mut BoundNames, more: &[Bound]) -> Result<(), Memory>
    ensures { OnOk result (bound.new ≡ bound.old ++ more.now) }
{
    for b in more {
        bound.push(b.name.as_slice(), b.stands)?;
    }
    Ok(())
}

/// A `let` goes on with the binding that comes next, or else with its body.
pub(crate) fn enter_binding(
    tree: &Tree,
    frames: &mut Vec<Frame>,
    bound: &mut BoundNames,
    round: &Round,
    done: Vec<Bound>,
    next: u32,
    body: u32,
) -> Result<u32, Memory>
    ensures { Continues tree.now frames.new.items bound.new (base_of (reverse frames.old.items) bound.old)
        (1 + weight tree.now (trees_from tree.now next) + weight tree.now (trees_from tree.now body) + weight tree.now (trees_from tree.now round.now.after) + load tree.now (reverse frames.old.items))
        result (binds_in tree.now frames.old.items bound.old round.now.paren round.now.head round.now.after done.items next body) }
{
    match binding_at(tree, next) {
        Some(binding) => {
            frames.push(Frame {
                paren: round.paren,
                head: round.head,
                after: round.after,
                work: Work::Let {
                    name: binding.name,
                    done,
                    next: binding.behind,
                    body,
                },
            })?;
            Ok(binding.name + 1)
        }
        None => {
            let outside = bound.len();
            bind_all(bound, done.as_slice())?;
            frames.push(Frame {
                paren: round.paren,
                head: round.head,
                after: round.after,
                work: Work::Pass { bound: outside },
            })?;
            Ok(body)
        }
    }
}

/// The innermost open list has a value, and goes on, or has a value itself.
fn put_in(
    alloc: Global,
    tree: &Tree,
    frames: &mut Vec<Frame>,
    bound: &mut BoundNames,
    frame: Frame,
    next: u32,
    arg: Arg,
) -> Result<Given, Memory>
    ensures { PutsIn tree.now frames.old.items bound.old frames.new.items bound.new frame next arg.place arg.value result }
{
    let Frame {
        paren,
        head: head_place,
        after,
        work,
    } = frame;
    match work {
        Work::Pass { bound: outside } => {
            bound.truncate(outside);
            Ok(Given::Outer {
                at: paren,
                next: after,
            })
        }
        Work::Apply {
            called,
            head,
            mut args,
        } => {
            args.push(arg)?;
            frames.push(Frame {
                paren,
                head: head_place,
                after,
                work: Work::Apply { called, head, args },
            })?;
            Ok(Given::At(next))
        }
        Work::Let {
            name,
            mut done,
            next: further,
            body,
        } => {
            let name = Name::from_slice(alloc, text_at(tree, name))?;
            done.push(Bound {
                name,
                stands: Stands::Given(arg.value),
            })?;
            let round = Round {
                paren,
                head: head_place,
                after,
            };
            let i = enter_binding(tree, frames, bound, &round, done, further, body)?;
            Ok(Given::At(i))
        }
    }
}

/// The value goes to the innermost open list.
fn give_one(
    alloc: Global,
    tree: &Tree,
    frames: &mut Vec<Frame>,
    bound: &mut BoundNames,
    next: u32,
    arg: Arg,
) -> Result<Given, Memory>
    ensures { Gives tree.now frames.old.items bound.old frames.new.items bound.new next arg.place arg.value result }
{
    match frames.pop() {
        None => Ok(Given::Whole),
        Some(frame) => match put_in(alloc, tree, frames, bound, frame, next, arg) {
            Err(memory) => Err(memory),
            Ok(given) => Ok(given),
        },
    }
}

/// The value goes to the innermost open list, and on where it is that list's value too.
pub(crate) fn give(
    alloc: Global,
    tree: &Tree,
    frames: &mut Vec<Frame>,
    bound: &mut BoundNames,
    next: u32,
    arg: Arg,
) -> Result<Next, Memory>
    ensures { GivesOn tree.now frames.old.items bound.old frames.new.items bound.new next arg.place arg.value result }
{
    let value = arg.value;
    let mut at = arg.place;
    let mut i = next;
    loop {
        match give_one(alloc, tree, frames, bound, i, Arg { place: at, value }) {
            Err(memory) => return Err(memory),
            Ok(Given::Whole) => return Ok(Next::Whole(value)),
            Ok(Given::At(next)) => return Ok(Next::At(next)),
            Ok(Given::Outer { at: outer, next }) => {
                at = outer;
                i = next;
            }
        }
    }
}
