//! The table of terms: a row stands once, and its number is its place.
ghost use Rattle.std.specs.Prelude.{◌≡◌, ◌+◌, ◌<◌, ◌≤◌, ◌∷◌, length, take, All, IfOk, IfSome, IfNone, OnOk, OnErr};
ghost use Rattle.indexmap.specs.IndexMap.{values};
ghost use Rattle.graph_terms.specs.Terms.{most_args, term_row, first_rows, HasRow, IsAbsent, IsFull, IsTable, Takes};
ghost use Rattle.graph_terms.specs.Entries.{IsKeyed, PutsRow};

use crate::memory::Memory;
use crate::numbers::Numbers;
use crate::table_fault::TableFault;
use crate::term_row::TermRow;
use indexmap::IndexMap;
use std::alloc::Global;
use std::marker::Model;

/// The most arguments that a row may have.
pub const MOST_ARGS: u32 = 255;

/// Room for a symbol and the most arguments, as a key that takes no memory.
type Key = [u32; 256];

/// The rows of terms by number, and the number of each row. No row stands twice, arguments are terms with lower numbers,
/// and the terms 0 and 1 are true and false.
#[derive(Drop)]
pub struct TermTable {
    limit: u32,
    rows: IndexMap<Vec<u32>, TermRow>,
}

impl Model for TermTable {
    ghost use Rattle.graph_terms.specs.Terms.{Table};

    ghost Value = { Table };

    ghost use Rattle.graph_terms.specs.TableInside.{table_of, IsSound};

    ghost view = { table_of };

    ghost invariant = { IsSound };
}

/// Writes a key to the front of the buffer.
fn write_key(buffer: &mut Key, symbol: u32, args: &[u32])
    requires { length args.now ≤ most_args }
    ensures { take (1 + length args.now) buffer.new ≡ symbol ∷ args.now }
{
    buffer[0] = symbol;
    buffer[1..=args.len()].copy_from_slice(args);
}

/// The key of a row that is to be kept.
fn row_key(alloc: Global, symbol: u32, args: &[u32]) -> Result<Vec<u32>, Memory>
    requires { length args.now ≤ most_args }
    ensures { IfOk result (λ key. key.items ≡ symbol ∷ args.now) }
{
    let mut buffer = [0; 256];
    write_key(&mut buffer, symbol, args);
    let key = Vec::from_slice(alloc, &buffer[..1 + args.len()])?;
    Ok(key)
}

/// Puts a new row last.
fn put_row(
    rows: &mut IndexMap<Vec<u32>, TermRow>,
    alloc: Global,
    symbol: u32,
    args: &[u32],
) -> Result<(), Memory>
    requires few { length args.now ≤ most_args }
    requires keyed { IsKeyed rows.old.entries }
    requires absent { IsAbsent (values rows.old) (term_row symbol args.now) }
    ensures ok { OnOk result (PutsRow rows.old.entries rows.new.entries (term_row symbol args.now)) }
    ensures err { OnErr result (rows.new.entries ≡ rows.old.entries) }
{
    let args_kept = Numbers::from_slice(alloc, args)?;
    let key = row_key(alloc, symbol, args)?;
    let row = TermRow {
        symbol,
        args: args_kept,
    };
    rows.insert(key, row)?;
    Ok(())
}

impl TermTable {
    /// A table with the rows of true and false alone, which may have `limit` rows, those two included. `Memory` comes where
    /// memory is refused.
    pub fn new(alloc: Global, limit: u32) -> Result<TermTable, Memory>
        requires { 2 ≤ limit }
        ensures rows { IfOk result (λ table. table.rows ≡ first_rows) }
        ensures limit { IfOk result (λ table. table.limit ≡ limit) }
    {
        let mut rows = IndexMap::new(alloc);
        put_row(&mut rows, alloc, 0, &[])?;
        put_row(&mut rows, alloc, 1, &[])?;
        Ok(TermTable { limit, rows })
    }

    /// The number of the row, which is put last where it is new. `Full` comes where it is new and as many rows stand as may,
    /// and `Memory` where memory is refused; the table is then as before.
    pub fn add(&mut self, symbol: u32, args: &[u32]) -> Result<u32, TableFault>
        requires terms { All (λ arg. arg < length self.old.rows) args.now }
        requires few { length args.now ≤ most_args }
        ensures ok { IfOk result (λ term. Takes self.old self.new (term_row symbol args.now) term) }
        ensures full { result ≡ Err TableFault.Full → IsFull self.old (term_row symbol args.now) }
        ensures err { OnErr result (self.new ≡ self.old) }
    {
        if let Some(term) = self.find(symbol, args) {
            return Ok(term);
        }
        let term = self.len();
        if term >= self.limit {
            return Err(TableFault::Full);
        }
        let alloc = *self.rows.allocator();
        put_row(&mut self.rows, alloc, symbol, args)?;
        Ok(term)
    }

    /// How many rows stand: from 2 up to `limit()`.
    pub fn len(&self) -> u32
        ensures value { result ≡ length self.now.rows }
        ensures table { IsTable self.now.rows }
        ensures within { length self.now.rows ≤ self.now.limit }
    {
        self.rows.len() as u32
    }

    /// How many rows it may have: what `new` was given.
    pub fn limit(&self) -> u32
        ensures { result ≡ self.now.limit }
    {
        self.limit
    }

    /// The number of the row with this symbol and these arguments, or `None` where no such row stands. Takes no memory.
    pub fn find(&self, symbol: u32, args: &[u32]) -> Option<u32>
        ensures found { IfSome result (λ term. HasRow self.now.rows term (term_row symbol args.now)) }
        ensures absent { IfNone result (IsAbsent self.now.rows (term_row symbol args.now)) }
    {
        // What a value keeps true of its fields is known once a field is read: so one is read before the first return.
        let rows = &self.rows;
        if args.len() > MOST_ARGS as usize {
            return None;
        }
        let mut buffer = [0; 256];
        write_key(&mut buffer, symbol, args);
        match rows.get_index_of(&buffer[..1 + args.len()]) {
            Some(term) => Some(term as u32),
            None => None,
        }
    }

    /// The row of the term with this number, which the caller sees to be below `len()`.
    pub fn row(&self, term: u32) -> &TermRow
        requires { term < length self.now.rows }
        ensures { HasRow self.now.rows term result.now }
    {
        self.rows.get_index(term as usize).unwrap().1
    }

    /// Keeps the first `len` rows, of which there are at least the two of true and false. Takes no memory.
    pub fn cut(&mut self, len: u32)
        requires first { 2 ≤ len }
        requires within { len ≤ length self.old.rows }
        ensures rows { self.new.rows ≡ take len self.old.rows }
        ensures limit { self.new.limit ≡ self.old.limit }
    {
        self.rows.truncate(len as usize);
    }
}
