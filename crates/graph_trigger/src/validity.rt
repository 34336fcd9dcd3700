//! Tests of a trigger, which take no memory.
ghost use Rattle.std.specs.Prelude.{◌≡◌, ◌<◌, ◌≤◌, ◌↔◌, length, slice_get, All, Contains, IsTrue, IfSome, IfNone};
ghost use Rattle.graph_trigger.specs.Trigger.{HasSize, IsApplication};
ghost use Rattle.graph_trigger.specs.Validity.{AreApplications, AreNew, AreReached, AreSmall, FitRows, FitsRow, HaveVariables, IsLarge, IsNewRow, IsPart, IsReached, IsSize, NameEarlier, VariableStands};

use crate::pattern_row::PatternRow;
use crate::pattern_rows::PatternRows;
use graph_terms::{MOST_ARGS, Numbers, are_below};

/// The most variables that a forall may have.
pub const MOST_VARIABLES: u32 = 32;

/// The most patterns that a trigger may have.
pub const MOST_PATTERNS: u32 = 16;

/// The most symbols and variables that a pattern may have, counted as a tree.
pub const MOST_SIZE: u32 = 256;

/// Whether the number is among these.
fn contains(numbers: &[u32], number: u32) -> bool
    ensures { IsTrue result ↔ Contains numbers.now number }
{
    numbers.contains(&number)
}

/// Whether the row names earlier rows, or a variable that there is.
fn fits_row(row: &PatternRow, place: u32, variables: u32) -> bool
    ensures { IsTrue result ↔ FitsRow variables place row.now }
{
    match row {
        PatternRow::Var { index } => *index < variables,
        PatternRow::App { args, .. } => {
            args.len() <= MOST_ARGS && are_below(args.as_slice(), place)
        }
    }
}

/// Whether each row names earlier rows, or a variable that there is.
pub fn fit_rows(rows: &PatternRows, variables: u32) -> bool
    ensures { IsTrue result ↔ FitRows variables rows.now }
{
    for place in 0..rows.len() {
        if !fits_row(rows.get(place), place, variables) {
            return false;
        }
    }
    true
}

/// Whether two rows are equal.
fn is_same_row(left: &PatternRow, right: &PatternRow) -> bool
    ensures { IsTrue result ↔ (left.now ≡ right.now) }
{
    match (left, right) {
        (PatternRow::Var { index: left }, PatternRow::Var { index: right }) => left == right,
        (
            PatternRow::App {
                symbol: left,
                args: left_args,
            },
            PatternRow::App {
                symbol: right,
                args: right_args,
            },
        ) => left == right && left_args.as_slice() == right_args.as_slice(),
        _ => false,
    }
}

/// Whether no earlier row is equal to the row at the place.
fn is_new_row(rows: &PatternRows, place: u32) -> bool
    requires { place < length rows.now }
    ensures { IsTrue result ↔ IsNewRow rows.now place }
{
    let row = rows.get(place);
    for earlier in 0..place {
        if is_same_row(rows.get(earlier), row) {
            return false;
        }
    }
    true
}

/// Whether no row stands twice.
pub fn are_new(rows: &PatternRows) -> bool
    ensures { IsTrue result ↔ AreNew rows.now }
{
    for place in 0..rows.len() {
        if !is_new_row(rows, place) {
            return false;
        }
    }
    true
}

/// Whether the row stands, and is an application.
fn is_application(rows: &PatternRows, row: u32) -> bool
    ensures { IsTrue result ↔ IsApplication rows.now row }
{
    if row >= rows.len() {
        return false;
    }
    match rows.get(row) {
        PatternRow::App { .. } => true,
        PatternRow::Var { .. } => false,
    }
}

/// Whether each root stands, and is an application.
pub fn are_applications(rows: &PatternRows, roots: &Numbers) -> bool
    ensures { IsTrue result ↔ AreApplications rows.now roots.now }
{
    for i in 0..roots.len() {
        if !is_application(rows, roots.get(i)) {
            return false;
        }
    }
    true
}

/// Whether the row is a part of an application.
fn is_part(rows: &PatternRows, row: u32) -> bool
    ensures { IsTrue result ↔ IsPart rows.now row }
{
    for above in 0..rows.len() {
        if let PatternRow::App { args, .. } = rows.get(above) {
            if contains(args.as_slice(), row) {
                return true;
            }
        }
    }
    false
}

/// Whether the row is a root or a part of an application.
fn is_reached(rows: &PatternRows, roots: &Numbers, row: u32) -> bool
    ensures { IsTrue result ↔ IsReached rows.now roots.now row }
{
    contains(roots.as_slice(), row) || is_part(rows, row)
}

/// Whether each row is a root or a part of an application.
pub fn are_reached(rows: &PatternRows, roots: &Numbers) -> bool
    ensures { IsTrue result ↔ AreReached rows.now roots.now }
{
    for row in 0..rows.len() {
        if !is_reached(rows, roots, row) {
            return false;
        }
    }
    true
}

/// Whether a row is this variable.
fn variable_stands(rows: &PatternRows, index: u32) -> bool
    ensures { IsTrue result ↔ VariableStands rows.now index }
{
    for row in 0..rows.len() {
        if let PatternRow::Var { index: found } = rows.get(row) {
            if *found == index {
                return true;
            }
        }
    }
    false
}

/// Whether each variable stands.
pub fn have_variables(rows: &PatternRows, variables: u32) -> bool
    ensures { IsTrue result ↔ HaveVariables rows.now variables }
{
    for index in 0..variables {
        if !variable_stands(rows, index) {
            return false;
        }
    }
    true
}

/// The size of the row's pattern as a tree, where it is at most so much.
fn tree_size(rows: &PatternRows, row: u32, most: u32) -> Option<u32>
    requires earlier { NameEarlier rows.now }
    requires row { row < length rows.now }
    ensures some { IfSome result (IsSize rows.now row most) }
    ensures none { IfNone result (IsLarge rows.now row most) }
{
    if most == 0 {
        return None;
    }
    match rows.get(row) {
        PatternRow::Var { .. } => Some(1),
        PatternRow::App { args, .. } => {
            let mut size = 1;
            for i in 0..args.len() {
                size += tree_size(rows, args.get(i), most - size)?;
            }
            Some(size)
        }
    }
}

/// Whether each root's pattern is small enough.
pub fn are_small(rows: &PatternRows, roots: &Numbers) -> bool
    requires earlier { NameEarlier rows.now }
    requires roots { AreApplications rows.now roots.now }
    ensures { IsTrue result ↔ AreSmall rows.now roots.now }
{
    for i in 0..roots.len() {
        if tree_size(rows, roots.get(i), MOST_SIZE).is_none() {
            return false;
        }
    }
    true
}
