//! Labels on terms: two terms have one label exactly where they are equal.
ghost use Rattle.std.specs.Prelude.{◌≡◌, ◌^◌, ◌≢◌, ℕ, ◌<◌, ◌≤◌, length, map, sum, All, Contains, IfSome, IfNone, IsTrue, ◌↔◌};
ghost use Rattle.graph_terms.specs.Terms.{term_row, HasRow};
ghost use Rattle.graph_meaning.specs.Standing.{merges_of};
ghost use Rattle.graph_plain.specs.Labels.{AreOwn, label_of, AreMerged, AreCongruent, AreToJoin, AreSound, IsCongruentPair, IsCongruentToAll, joined_labels, relabelled, renamed_label};
ghost use Rattle.graph_meaning.specs.Lawful.{EndsBelow};

use graph_meaning::Done;
use graph_terms::TermTable;

/// The label in place of this one.
fn renamed(label: u32, gone: u32, kept: u32) -> u32
    ensures { result ≡ renamed_label gone kept label }
{
    if label == gone { kept } else { label }
}

/// Gives each term of one label the other.
fn relabel(labels: &mut [u32], gone: u32, kept: u32)
    ensures { labels.new ≡ relabelled gone kept labels.old }
{
    for label in labels.iter_mut() {
        *label = renamed(*label, gone, kept);
    }
}

/// An equation whose ends have two labels.
fn find_merge(standing: &[Done], labels: &[u32]) -> Option<(u32, u32)>
    requires { EndsBelow (merges_of standing.now) (length labels.now) }
    ensures found { IfSome result (λ ends. Contains (merges_of standing.now) ends) }
    ensures apart { IfSome result (λ ends. label_of labels.now ends.0 ≢ label_of labels.now ends.1) }
    ensures none { IfNone result (AreMerged (merges_of standing.now) labels.now) }
{
    for done in standing {
        if let Some((left, right)) = done.merged_ends() {
            if labels[left as usize] != labels[right as usize] {
                return Some((left, right));
            }
        }
    }
    None
}

/// Whether the terms at each place have one label.
fn same_labels(labels: &[u32], left: &[u32], right: &[u32]) -> bool
    requires left { All (λ term. term < length labels.now) left.now }
    requires right { All (λ term. term < length labels.now) right.now }
    ensures { IsTrue result ↔ (map (label_of labels.now) left.now ≡ map (label_of labels.now) right.now) }
{
    if left.len() != right.len() {
        return false;
    }
    for i in 0..left.len() {
        if labels[left[i] as usize] != labels[right[i] as usize] {
            return false;
        }
    }
    true
}

/// Whether two terms have one symbol, and arguments of one label each.
fn is_congruent(table: &TermTable, labels: &[u32], left: u32, right: u32) -> bool
    requires labels { length labels.now ≡ length table.now.rows }
    requires left { left < length table.now.rows }
    requires right { right < length table.now.rows }
    ensures { IsTrue result ↔ IsCongruentPair table.now.rows labels.now left right }
{
    let _terms = table.len();
    let left = table.row(left);
    let right = table.row(right);
    left.symbol == right.symbol && same_labels(labels, left.args.as_slice(), right.args.as_slice())
}

/// A term that is congruent to this one and has another label.
fn find_congruent_to(table: &TermTable, labels: &[u32], left: u32) -> Option<u32>
    requires labels { length labels.now ≡ length table.now.rows }
    requires left { left < length table.now.rows }
    ensures found { IfSome result (λ right. IsCongruentPair table.now.rows labels.now left right) }
    ensures apart { IfSome result (λ right. label_of labels.now left ≢ label_of labels.now right) }
    ensures within { IfSome result (λ right. right < length table.now.rows) }
    ensures none { IfNone result (IsCongruentToAll table.now.rows labels.now left) }
{
    for right in 0..table.len() {
        if labels[left as usize] != labels[right as usize]
            && is_congruent(table, labels, left, right)
        {
            return Some(right);
        }
    }
    None
}

/// Two congruent terms that have two labels.
fn find_congruent(table: &TermTable, labels: &[u32]) -> Option<(u32, u32)>
    requires { length labels.now ≡ length table.now.rows }
    ensures found { IfSome result (λ terms. IsCongruentPair table.now.rows labels.now terms.0 terms.1) }
    ensures apart { IfSome result (λ terms. label_of labels.now terms.0 ≢ label_of labels.now terms.1) }
    ensures left { IfSome result (λ terms. terms.0 < length table.now.rows) }
    ensures right { IfSome result (λ terms. terms.1 < length table.now.rows) }
    ensures none { IfNone result (AreCongruent table.now.rows labels.now) }
{
    for left in 0..table.len() {
        if let Some(right) = find_congruent_to(table, labels, left) {
            return Some((left, right));
        }
    }
    None
}

/// Two terms that an equation or congruence joins, and that have two labels.
fn find_apart(table: &TermTable, standing: &[Done], labels: &[u32]) -> Option<(u32, u32)>
    requires ends { EndsBelow (merges_of standing.now) (length table.now.rows) }
    requires sound { AreSound table.now.rows (merges_of standing.now) labels.now }
    ensures found { IfSome result (λ terms. AreToJoin table.now.rows (merges_of standing.now) labels.now terms.0 terms.1) }
    ensures merged { IfNone result (AreMerged (merges_of standing.now) labels.now) }
    ensures congruent { IfNone result (AreCongruent table.now.rows labels.now) }
{
    let _terms = table.len();
    match find_merge(standing, labels) {
        Some(ends) => Some(ends),
        None => find_congruent(table, labels),
    }
}

/// Gives the terms of two labels the earlier one.
fn join(labels: &mut [u32], left: u32, right: u32)
    requires left { left < length labels.old }
    requires right { right < length labels.old }
    ensures { labels.new ≡ joined_labels (label_of labels.old left) (label_of labels.old right) labels.old }
{
    let left = labels[left as usize];
    let right = labels[right as usize];
    relabel(labels, left.max(right), left.min(right));
}

/// Joins what equations and congruence join, until nothing is left to join.
pub fn close(table: &TermTable, standing: &[Done], labels: &mut [u32])
    requires ends { EndsBelow (merges_of standing.now) (length table.now.rows) }
    requires sound { AreSound table.now.rows (merges_of standing.now) labels.old }
    ensures sound { AreSound table.now.rows (merges_of standing.now) labels.new }
    ensures merged { AreMerged (merges_of standing.now) labels.new }
    ensures congruent { AreCongruent table.now.rows labels.new }
{
    while let Some((left, right)) = find_apart(table, standing, labels) {
        join(labels, left, right);
    }
}

/// Makes each term a class of its own.
pub fn reset(labels: &mut [u32])
    requires { length labels.old < 2 ^ 32 }
    ensures { AreOwn labels.new }
{
    for i in 0..labels.len() {
        labels[i] = i as u32;
    }
}
