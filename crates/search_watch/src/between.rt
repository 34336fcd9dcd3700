//! What has to be looked at where differences were found.
ghost use Rattle.std.specs.Prelude.{◌≡◌, ℕ, ◌<◌, ◌≤◌, ◌++◌, ◌↔◌, ◌⊎◌, IsTrue, List, length, All, Contains, OnOk};
ghost use Rattle.graph_meaning.specs.Standing.{terms_of};
ghost use Rattle.graph_meaning.specs.Same.{Same, IsLeader};
ghost use Rattle.search_watch.specs.Chains.{chain_at};
ghost use Rattle.search_watch.specs.Covers.{Covers, ItemsBelow};
ghost use Rattle.search_watch.specs.Watched.{HaveChains, Gathers};
ghost use Rattle.search_watch.specs.Evaluate.{AreDiffers};
ghost use Rattle.search_watch.specs.Found.{IsFoundClash};
ghost use Rattle.search_watch.specs.Follow.{HasBetween};

use crate::chains::Chains;
use crate::watch::gather;
use graph_meaning::ClassGraph;
use std::alloc::AllocError;

/// Whether a difference on the list has equal ends.
fn has_found_clash<G: ClassGraph>(graph: &G, differs: &[(u32, u32)], found: &[u32]) -> bool
    requires differs { AreDiffers (length (terms_of (G.standing graph.now))) differs.now }
    requires found { All (λ d. d < length differs.now) found.now }
    ensures { IsTrue result ↔ IsFoundClash (G.standing graph.now) differs.now found.now }
{
    for i in 0..found.len() {
        let d = found[i] as usize;
        let one = differs[d].0;
        let other = differs[d].1;
        if graph.same(one, other) {
            return true;
        }
    }
    false
}

/// Whether true and false are equal, or the two ends of a difference on the list.
pub(crate) fn has_clash<G: ClassGraph>(graph: &G, differs: &[(u32, u32)], found: &[u32]) -> bool
    requires differs { AreDiffers (length (terms_of (G.standing graph.now))) differs.now }
    requires found { All (λ d. d < length differs.now) found.now }
    ensures { IsTrue result ↔ (Same (G.standing graph.now) 0 1 ⊎ IsFoundClash (G.standing graph.now) differs.now found.now) }
{
    graph.same(0, 1) || has_found_clash(graph, differs, found)
}

/// Puts the numbers of the later differences, from the earlier ones on, behind those that were found. A refusal is want of
/// memory or of room.
pub(crate) fn push_later(
    earlier: usize,
    count: usize,
    found: &mut Vec<u32>,
) -> Result<(), AllocError>
    ensures gathers { OnOk result (Gathers found.old.items found.new.items) }
    ensures later { OnOk result ((d : ℕ) → earlier ≤ d → d < count → Contains found.new.items d) }
    ensures below { OnOk result (All (λ d. d < count) found.old.items → All (λ d. d < count) found.new.items) }
{
    for d in earlier..count {
        if d > u32::MAX as usize {
            return Err(AllocError);
        }
        found.push(d as u32)?;
    }
    Ok(())
}

/// Puts the shorter of the chains of the leaders of two terms behind what was found. A refusal is want of memory.
fn gather_at<G: ClassGraph>(
    graph: &G,
    chains: &Chains,
    left: u32,
    right: u32,
    literals: &mut Vec<u32>,
) -> Result<(), AllocError>
    requires left { left < length (terms_of (G.standing graph.now)) }
    requires right { right < length (terms_of (G.standing graph.now)) }
    requires have { HaveChains (length (terms_of (G.standing graph.now))) chains.now }
    ensures { OnOk result ((near : ℕ) × (IsLeader (G.standing graph.now) left near ⊎ IsLeader (G.standing graph.now) right near) × (literals.new.items ≡ literals.old.items ++ chain_at chains.now near)) }
{
    let _terms = graph.len();
    let of_left = graph.leader(left);
    let of_right = graph.leader(right);
    let (near, _far) = chains.sides(of_left, of_right);
    gather(chains, near, literals)
}

/// Puts the literals that are between the ends of a difference on the list behind what was found, and with them the others
/// of the shorter of the two chains. A refusal is want of memory.
pub(crate) fn gather_between<G: ClassGraph>(
    graph: &G,
    chains: &Chains,
    differs: &[(u32, u32)],
    found: &[u32],
    literals: &mut Vec<u32>,
) -> Result<(), AllocError>
    requires differs { AreDiffers (length (terms_of (G.standing graph.now))) differs.now }
    requires found { All (λ d. d < length differs.now) found.now }
    requires have { HaveChains (length (terms_of (G.standing graph.now))) chains.now }
    ensures between { OnOk result ((ends : List (ℕ × ℕ)) → Covers (Same (G.standing graph.now)) ends chains.now → HasBetween (G.standing graph.now) differs.now found.now ends literals.new.items) }
    ensures gathers { OnOk result (Gathers literals.old.items literals.new.items) }
    ensures below { OnOk result ((count : ℕ) → ItemsBelow count chains.now → All (λ item. item < count) literals.old.items → All (λ item. item < count) literals.new.items) }
{
    for i in 0..found.len() {
        let d = found[i] as usize;
        let left = differs[d].0;
        let right = differs[d].1;
        gather_at(graph, chains, left, right, literals)?;
    }
    Ok(())
}
