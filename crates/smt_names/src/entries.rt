//! Entries by number, each under a name.
ghost use Rattle.std.specs.Prelude.{◌≡◌, ◌<◌, ◌++◌, ◌∷◌, [], None, length, IfSome, OnOk, OnErr};
ghost use Rattle.smt_names.specs.Entries.{place_of, IsSmall};

use graph_terms::Memory;
use indexmap::IndexMap;
use std::alloc::Global;

/// The most entries: their numbers fit, and so do a few more.
const MOST: usize = 0xffff_fff0;

/// The number of the entry with this name.
pub(crate) fn find<T>(entries: &IndexMap<Vec<u8>, T>, name: &[u8]) -> Option<u32>
    requires { IsSmall entries.now.entries }
    ensures value { result ≡ place_of name.now entries.now.entries }
    ensures within { IfSome result (λ n. n < length entries.now.entries) }
{
    match entries.get_index_of(name) {
        None => None,
        Some(n) => Some(n as u32),
    }
}

/// Puts a new entry last.
pub(crate) fn put<T: Drop>(
    entries: &mut IndexMap<Vec<u8>, T>,
    name: Vec<u8>,
    item: T,
) -> Result<(), Memory>
    requires { place_of name.items entries.old.entries ≡ None }
    ensures ok { OnOk result (entries.new.entries ≡ entries.old.entries ++ (name, item) ∷ []) }
    ensures small { OnOk result (IsSmall entries.new.entries) }
    ensures err { OnErr result (entries.new.entries ≡ entries.old.entries) }
{
    if entries.len() >= MOST {
        return Err(Memory);
    }
    entries.insert(name, item)?;
    Ok(())
}
