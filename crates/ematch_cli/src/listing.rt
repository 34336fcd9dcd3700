//! The listing of all matches, as a text.
ghost use Rattle.std.specs.Prelude.{◌≡◌, ◌<◌, ◌++◌, All, length, slice_get, Some, IfOk, OnOk};
ghost use Rattle.graph_meaning.specs.Match.{AreMatches};
ghost use Rattle.graph_meaning.specs.Standing.{terms_of, triggers_of};
ghost use Rattle.graph_trigger.specs.declared.trigger.Trigger.{Trigger};
ghost use Rattle.em_printing.specs.Names.{names_of};
ghost use Rattle.ematch_cli.specs.Joined.{AreJoined};
ghost use Rattle.ematch_cli.specs.Listing.{IsEntry, heading, IsTupleLine, IsTriggerListing, IsListing};
ghost use Rattle.em_printing.specs.Writing.{Puts};

use em_printing::{push_number, push_printed};
use graph_meaning::ClassGraph;
use graph_terms::{Memory, Numbers};
use graph_trigger::Trigger;
use match_graph::{Matchers, MatchingGraph};
use smt_commands::Session;
use std::alloc::{AllocError, Global};

/// Writes the heading of a trigger with so many matches.
fn push_heading(text: &mut Vec<u8>, trigger: &Trigger, tuples: usize) -> Result<(), AllocError>
    ensures { OnOk result (text.new.items ≡ text.old.items ++ heading trigger.now tuples) }
{
    text.extend_from_slice(b"forall ")?;
    push_number(text, u64::from(trigger.forall) + 1)?;
    text.extend_from_slice(b" trigger ")?;
    push_number(text, u64::from(trigger.place) + 1)?;
    text.extend_from_slice(b": ")?;
    push_number(text, tuples as u64)?;
    text.push(b'\n')?;
    Ok(())
}

/// Writes an entry of a tuple: a blank, and the term as it is listed.
fn push_entry<G: ClassGraph>(
    text: &mut Vec<u8>,
    session: &Session,
    graph: &G,
    term: u32,
) -> Result<(), AllocError>
    requires { term < length (terms_of (G.standing graph.now)) }
    ensures { OnOk result (Puts (IsEntry (names_of session.now) (terms_of (G.standing graph.now)) term) text.old.items text.new.items) }
{
    text.push(b' ')?;
    push_printed(text, session, graph, term)?;
    Ok(())
}

/// Writes a tuple on a line of its own.
fn push_tuple<G: ClassGraph>(
    text: &mut Vec<u8>,
    session: &Session,
    graph: &G,
    tuple: &[u32],
) -> Result<(), AllocError>
    requires { All (λ term. term < length (terms_of (G.standing graph.now))) tuple.now }
    ensures { OnOk result (Puts (IsTupleLine (names_of session.now) (G.standing graph.now) tuple.now) text.old.items text.new.items) }
{
    text.push(b' ')?;
    push_entries(text, session, graph, tuple)?;
    text.push(b'\n')?;
    Ok(())
}

/// Writes the entries of a tuple.
fn push_entries<G: ClassGraph>(
    text: &mut Vec<u8>,
    session: &Session,
    graph: &G,
    tuple: &[u32],
) -> Result<(), AllocError>
    requires { All (λ term. term < length (terms_of (G.standing graph.now))) tuple.now }
    ensures { OnOk result (Puts (AreJoined (IsEntry (names_of session.now) (terms_of (G.standing graph.now))) tuple.now) text.old.items text.new.items) }
{
    for i in 0..tuple.len() {
        push_entry(text, session, graph, tuple[i])?;
    }
    Ok(())
}

/// Writes tuples, each on a line of its own.
fn push_tuples<G: ClassGraph>(
    text: &mut Vec<u8>,
    session: &Session,
    graph: &G,
    tuples: &[Numbers],
) -> Result<(), AllocError>
    requires { All (All (λ term. term < length (terms_of (G.standing graph.now)))) tuples.now }
    ensures { OnOk result (Puts (AreJoined (IsTupleLine (names_of session.now) (G.standing graph.now)) tuples.now) text.old.items text.new.items) }
{
    for i in 0..tuples.len() {
        let tuple = &tuples[i];
        push_tuple(text, session, graph, tuple.as_slice())?;
    }
    Ok(())
}

/// Writes the heading of the live trigger with the number, and its matches.
fn push_trigger(
    text: &mut Vec<u8>,
    session: &Session,
    graph: &MatchingGraph,
    n: u32,
    tuples: &[Numbers],
) -> Result<(), AllocError>
    requires n { n < length (triggers_of graph.now.standing) }
    requires matches { (trigger : Trigger) → slice_get (triggers_of graph.now.standing) n ≡ Some trigger → AreMatches graph.now.standing trigger tuples.now }
    ensures { OnOk result (Puts (λ added. (trigger : Trigger) × (slice_get (triggers_of graph.now.standing) n ≡ Some trigger) × IsTriggerListing (names_of session.now) graph.now.standing trigger added) text.old.items text.new.items) }
{
    let _terms = graph.len();
    push_heading(text, graph.trigger(n), tuples.len())?;
    push_tuples(text, session, graph, tuples)?;
    Ok(())
}

/// Writes the listings of all live triggers in order.
fn push_triggers<M: Matchers>(
    alloc: Global,
    matchers: &M,
    text: &mut Vec<u8>,
    session: &Session,
    graph: &MatchingGraph,
) -> Result<(), Memory>
    ensures { OnOk result (Puts (AreJoined (IsTriggerListing (names_of session.now) graph.now.standing) (triggers_of graph.now.standing)) text.old.items text.new.items) }
{
    let _terms = graph.len();
    let matches = matchers.all_matches(alloc, graph)?;
    for n in 0..graph.triggers() {
        let tuples = matches[n as usize].as_slice();
        push_trigger(text, session, graph, n, tuples)?;
    }
    Ok(())
}

/// The listing at a check, of the matches that the matchers find.
pub(crate) fn listing<M: Matchers>(
    alloc: Global,
    matchers: &M,
    session: &Session,
    graph: &MatchingGraph,
) -> Result<Vec<u8>, Memory>
    ensures { IfOk result (λ text. IsListing (names_of session.now) graph.now.standing text.items) }
{
    let mut text = Vec::new(alloc);
    push_triggers(alloc, matchers, &mut text, session, graph)?;
    text.extend_from_slice(b"settled\n")?;
    Ok(text)
}
