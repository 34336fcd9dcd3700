//! Claims as items of matching work.
ghost use Rattle.std.specs.Prelude.{◌≡◌, true, false, ◌<◌, ◌≤◌, ◌↔◌, ℕ, [], length, slice_get, Some, IfOk, OnOk, IsTrue, Contains};
ghost use Rattle.graph_meaning.specs.declared.claim.Claim.{Claim as SpecClaim};
ghost use Rattle.match_owed.specs.Asked.{AreClaims, AreEntries, Ascend, AskFor, AsksFor, IsAsked, IsBefore, IsBeside, IsRun, Joins, PutsRun};
ghost use Rattle.match_owed.specs.declared.asked.Asked.{Asked as SpecAsked};
ghost use Rattle.match_owed.specs.Items.{AreAsked, IsEntry};

use crate::asked::Asked;
use crate::claim_list::ClaimList;
use graph_meaning::Claim;
use graph_terms::{Memory, Numbers};
use match_forest::CodeForest;
use match_machine::{Batch, Item};
use std::alloc::Global;

/// What is asked for a claim.
fn asked_for(forest: &CodeForest, claim: Claim) -> Asked
    requires { (entry : ℕ) × IsEntry forest.now entry claim }
    ensures { IsAsked forest.now claim result }
{
    let entry = forest.entry_of(claim.trigger, claim.start);
    let _entries = forest.entries();
    Asked {
        tree: forest.tree_with(entry),
        root: claim.root,
        entry,
    }
}

/// The claim at the place.
fn claim_at(claims: &[Claim], at: usize) -> Claim
    requires { at < length claims.now }
    ensures { slice_get claims.now at ≡ Some result }
{
    claims[at]
}

/// What is asked for the claims, in their order.
fn asked_for_each(
    alloc: Global,
    forest: &CodeForest,
    claims: &[Claim],
) -> Result<Vec<Asked>, Memory>
    requires { (claim : SpecClaim) → Contains claims.now claim → (entry : ℕ) × IsEntry forest.now entry claim }
    ensures { IfOk result (λ asked. AskFor forest.now claims.now asked.items) }
{
    let mut asked = Vec::new(alloc);
    for i in 0..claims.len() {
        asked.push(asked_for(forest, claim_at(claims, i)))?;
    }
    Ok(asked)
}

/// What is asked for the claims, by tree, then by root, then by entry.
pub fn asked_in_order(
    alloc: Global,
    forest: &CodeForest,
    claims: &[Claim],
) -> Result<Vec<Asked>, Memory>
    requires { (claim : SpecClaim) → Contains claims.now claim → (entry : ℕ) × IsEntry forest.now entry claim }
    ensures in_order { IfOk result (λ asked. Ascend IsBefore asked.items) }
    ensures exact { IfOk result (λ asked. AsksFor forest.now claims.now asked.items) }
{
    let mut asked = asked_for_each(alloc, forest, claims)?;
    asked.sort_unstable();
    asked.dedup();
    Ok(asked)
}

/// What is asked for at the place.
fn asked_at(asked: &[Asked], at: usize) -> Asked
    requires { at < length asked.now }
    ensures { slice_get asked.now at ≡ Some result }
{
    asked[at]
}

/// Whether two are of one tree and one root.
fn is_beside(a: Asked, b: Asked) -> bool
    ensures { IsTrue result ↔ IsBeside a b }
{
    a.tree == b.tree && a.root == b.root
}

/// Whether there is one at the place that is of the tree and the root of this one.
fn goes_on(asked: &[Asked], first: Asked, at: usize) -> bool
    ensures yes { result ≡ true → (one : SpecAsked) × (slice_get asked.now at ≡ Some one) × IsBeside first one }
    ensures no { result ≡ false → (one : SpecAsked) → slice_get asked.now at ≡ Some one → IsBeside first one → ⊥ }
{
    if at >= asked.len() {
        return false;
    }
    is_beside(first, asked_at(asked, at))
}

/// Up to where all are of the tree and the root of the one at the place.
fn run_end(asked: &[Asked], at: usize) -> usize
    requires { at < length asked.now }
    ensures { (first : SpecAsked) → slice_get asked.now at ≡ Some first → IsRun asked.now at result first }
{
    let first = asked_at(asked, at);
    let mut end = at + 1;
    while goes_on(asked, first, end) {
        end += 1;
    }
    end
}

/// The entries from the one place up to the other.
fn entries_in(alloc: Global, asked: &[Asked], at: usize, end: usize) -> Result<Numbers, Memory>
    requires order { at ≤ end }
    requires within { end ≤ length asked.now }
    ensures { IfOk result (λ entries. AreEntries asked.now at end entries) }
{
    let mut entries = Vec::new(alloc);
    for i in at..end {
        entries.push(asked_at(asked, i).entry)?;
    }
    Numbers::from_slice(alloc, &entries)
}

/// The claims that an item of this root asks for by these entries.
fn claims_of(
    alloc: Global,
    forest: &CodeForest,
    root: u32,
    entries: &Numbers,
) -> Result<ClaimList, Memory>
    requires { (entry : ℕ) → Contains entries.now entry → entry < length forest.now.entries }
    ensures { IfOk result (λ claims. AreClaims forest.now root entries.now claims) }
{
    let mut claims = ClaimList::new(alloc);
    for i in 0..entries.len() {
        let entry = entries.get(i);
        claims.push(Claim {
            trigger: forest.trigger_of(entry),
            start: forest.start_of(entry),
            root,
        })?;
    }
    Ok(claims)
}

/// Puts the item of a run last, and the list of its claims.
fn put_run(
    alloc: Global,
    forest: &CodeForest,
    asked: &[Asked],
    at: usize,
    end: usize,
    batch: &mut Batch,
    lists: &mut Vec<ClaimList>,
) -> Result<(), Memory>
    requires order { at < end }
    requires within { end ≤ length asked.now }
    requires entries { (one : SpecAsked) → Contains asked.now one → one.entry < length forest.now.entries }
    ensures { OnOk result (PutsRun forest.now asked.now at end batch.old batch.new lists.old.items lists.new.items) }
{
    let first = asked_at(asked, at);
    let wanted = entries_in(alloc, asked, at, end)?;
    let claims = claims_of(alloc, forest, first.root, &wanted)?;
    let number = batch.len();
    batch.push(Item {
        number,
        tree: first.tree,
        root: first.root,
        wanted,
    })?;
    lists.push(claims)?;
    Ok(())
}

/// The items of what is asked for, and the claims of each.
pub fn joined(
    alloc: Global,
    forest: &CodeForest,
    asked: &[Asked],
    lists: &mut Vec<ClaimList>,
) -> Result<Batch, Memory>
    requires in_order { Ascend IsBefore asked.now }
    requires entries { (one : SpecAsked) → Contains asked.now one → one.entry < length forest.now.entries }
    requires empty { lists.old.items ≡ [] }
    ensures joins { IfOk result (λ items. Joins asked.now items) }
    ensures asked { IfOk result (λ items. AreAsked forest.now items lists.new.items) }
{
    let mut batch = Batch::new(alloc);
    let mut at = 0;
    while at < asked.len() {
        let end = run_end(asked, at);
        put_run(alloc, forest, asked, at, end, &mut batch, lists)?;
        at = end;
    }
    Ok(batch)
}
