//! Reads the tokens of a command as trees.
ghost use Rattle.std.specs.Prelude.{◌≡◌, ◌<◌, ◌+◌, ℕ, length, drop, true};
ghost use Rattle.smt_text.specs.Trees.{ahead, outermost, outer};
ghost use Rattle.smt_terms.specs.Reading.{from};
ghost use Rattle.smt_terms.specs.Cursor.{word_at, is_left, is_right, trees_from, Sees, MaySeeBinding};

use smt_text::{Kind, Place, Tree};

/// What comes next in the list that is open at a token.
#[derive(Clone, Copy, Debug, PartialEq, Eq)]
pub enum Seen {
    /// The list ends.
    End,
    /// A token.
    Token,
    /// A list, and the place behind it.
    List { after: u32 },
}

/// The kind of a token. Past the end there are symbols without a text.
pub fn kind_at(tree: &Tree, i: u32) -> Kind
    ensures { result ≡ (word_at tree.now i).kind }
{
    if i < tree.len() {
        tree.token(i).kind
    } else {
        Kind::Symbol
    }
}

/// The place of a token.
pub fn place_at(tree: &Tree, i: u32) -> Place
    ensures { result ≡ (word_at tree.now i).place }
{
    if i < tree.len() {
        tree.token(i).place
    } else {
        Place { line: 0, column: 0 }
    }
}

/// The text of a token.
pub fn text_at(tree: &Tree, i: u32) -> &[u8]
    ensures { result.now ≡ (word_at tree.now i).text }
{
    if i < tree.len() { tree.bytes(i) } else { &[] }
}

fn opens_list(kind: Kind) -> bool
    ensures { result ≡ is_left kind }
{
    kind == Kind::Left
}

fn closes_list(kind: Kind) -> bool
    ensures { result ≡ is_right kind }
{
    kind == Kind::Right
}

/// The place behind the list that begins at a left parenthesis.
fn after_list(tree: &Tree, i: u32) -> u32
    requires within { i < length tree.now }
    requires left { is_left (word_at tree.now i).kind ≡ true }
    ensures { outermost (ahead (drop result tree.now)) ≡ outermost (outer (ahead (drop (i + 1) tree.now))) }
{
    let _len = tree.len();
    tree.token(i).partner + 1
}

/// What comes next.
pub fn look(tree: &Tree, i: u32) -> Seen
    ensures { Sees tree.now i result }
{
    if i >= tree.len() {
        return Seen::End;
    }
    let kind = kind_at(tree, i);
    if closes_list(kind) {
        return Seen::End;
    }
    if opens_list(kind) {
        return Seen::List {
            after: after_list(tree, i),
        };
    }
    Seen::Token
}

/// The place behind the tree that comes next, and the same where none does.
pub fn behind_one(tree: &Tree, i: u32) -> u32
    ensures { trees_from tree.now result ≡ from 1 (trees_from tree.now i) }
{
    match look(tree, i) {
        Seen::End => i,
        Seen::Token => i + 1,
        Seen::List { after } => after,
    }
}

/// The place behind so many trees.
pub fn behind_some(tree: &Tree, i: u32, count: u32) -> u32
    ensures { trees_from tree.now result ≡ from count (trees_from tree.now i) }
{
    let mut at = i;
    let mut passed = 0;
    while passed < count {
        at = behind_one(tree, at);
        passed += 1;
    }
    at
}

/// A binding: the token of its name, and the place behind its list.
#[derive(Clone, Copy, Debug, PartialEq, Eq)]
pub struct Binding {
    pub name: u32,
    pub behind: u32,
}

/// The binding that comes next, a list that begins with a token.
pub fn binding_at(tree: &Tree, i: u32) -> Option<Binding>
    ensures { MaySeeBinding tree.now i result }
{
    match look(tree, i) {
        Seen::End => None,
        Seen::Token => None,
        Seen::List { after } => match look(tree, i + 1) {
            Seen::End => None,
            Seen::List { .. } => None,
            Seen::Token => Some(Binding {
                name: i + 1,
                behind: after,
            }),
        },
    }
}
