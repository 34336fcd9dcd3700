//! Items by number, each under a key that tells it from every other.
ghost use Rattle.std.specs.Prelude.{◌≡◌, ◌≤◌, ◌∷◌, None, length, ◌++◌, [], IfOk, OnOk, OnErr};
ghost use Rattle.std.specs.List.{position_from};
ghost use Rattle.formula_draft.specs.Items.{with_item, same_key, Puts};

use graph_terms::Memory;
use indexmap::IndexMap;
use std::alloc::Global;

/// A key of a kind and its numbers.
pub fn key_of(alloc: Global, kind: u32, numbers: &[u32]) -> Result<Vec<u32>, Memory>
    ensures { IfOk result (λ key. key.items ≡ kind ∷ numbers.now) }
{
    let mut key = Vec::new(alloc);
    key.push(kind)?;
    key.extend_from_slice(numbers)?;
    Ok(key)
}

/// Puts a new item last, under its key.
fn put_last<T: Drop>(
    items: &mut IndexMap<Vec<u32>, T>,
    key: Vec<u32>,
    item: T,
) -> Result<(), Memory>
    requires { position_from (same_key (key, item)) 0 items.old.entries ≡ None }
    ensures ok { OnOk result (items.new.entries ≡ items.old.entries ++ (key, item) ∷ []) }
    ensures err { OnErr result (items.new.entries ≡ items.old.entries) }
{
    items.insert(key, item)?;
    Ok(())
}

/// The number of the item under its key, which is put last where it is new and fewer than `most` stand.
/// `None` where it is new and as many stand.
pub fn put<T: Drop>(
    items: &mut IndexMap<Vec<u32>, T>,
    most: u32,
    key: Vec<u32>,
    item: T,
) -> Result<Option<u32>, Memory>
    requires within { length items.old.entries ≤ most }
    ensures ok { IfOk result (Puts (with_item same_key most (key, item) items.old.entries) items.old.entries items.new.entries) }
    ensures err { OnErr result (items.new.entries ≡ items.old.entries) }
{
    if let Some(n) = items.get_index_of(&key) {
        return Ok(Some(n as u32));
    }
    let n = items.len();
    if n >= most as usize {
        return Ok(None);
    }
    put_last(items, key, item)?;
    Ok(Some(n as u32))
}
