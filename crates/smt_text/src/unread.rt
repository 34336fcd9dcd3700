//! Bytes that were taken from a source and not yet given as a command.
ghost use Rattle.std.specs.Prelude.{◌≡◌, ◌+◌, ◌≤◌, [], length, drop, Ok, IfOk, OnOk, OnErr, IsErrOf, vec_len, vec_capacity};
ghost use Rattle.em_outside.specs.Bytes.{Exhausts};
ghost use Rattle.em_outside.specs.Causes.{Rose};
ghost use Rattle.smt_text.specs.Reader.{Took, IsRefusal};

use crate::TextFault;
use em_outside::Source;
use std::alloc::{AllocError, Global};
use std::marker::Model;

/// How many bytes are asked of the source at a time.
const PIECE: usize = 4096;

/// Bytes that were taken from a source and not yet given as a command. A clause sees them as a list.
///
/// What was given stands before them in memory until more bytes are taken, so that a command is given without a copy
/// of what comes behind it.
#[derive(Drop)]
pub(crate) struct Unread {
    bytes: Vec<u8>,
    given: usize,
}

impl Model for Unread {
    ghost use Rattle.std.specs.Prelude.{List, ℕ, ◌≤◌, length, drop};

    ghost Value = { List ℕ };

    ghost view = { λ u. drop u.given u.bytes.items };

    ghost invariant = { λ u. u.given ≤ length u.bytes.items };
}

impl Unread {
    /// No bytes.
    pub(crate) fn new(alloc: Global) -> Unread
        ensures { result ≡ [] }
    {
        Unread {
            bytes: Vec::new(alloc),
            given: 0,
        }
    }

    /// The bytes, in order.
    pub(crate) fn as_slice(&self) -> &[u8]
        ensures { result.now ≡ self.now }
    {
        &self.bytes[self.given..]
    }

    /// Lets go of the first bytes, which were given.
    pub(crate) fn give(&mut self, count: usize)
        requires { count ≤ length self.old }
        ensures { self.new ≡ drop count self.old }
    {
        self.given += count;
    }

    /// Takes the next bytes from the source. None come only at its end. A refusal changes nothing but the source's count.
    pub(crate) fn take_more<S: Source>(&mut self, source: &mut S) -> Result<usize, TextFault>
        ensures took { Took self.old self.new (S.left source.old) (S.left source.new) }
        ensures count { IfOk result (λ n. length self.new ≡ length self.old + n) }
        ensures end { result ≡ Ok 0 → Exhausts (S.left source.old) [] }
        ensures err { OnErr result (self.new ≡ self.old) }
        ensures refusal { IsRefusal result }
        ensures later { S.fault_count source.old ≤ S.fault_count source.new }
        ensures read_fault { IsErrOf result TextFault.ReadFault → Rose (S.fault_count source.old) (S.fault_count source.new) }
        ensures calm { OnOk result (S.fault_count source.new ≡ S.fault_count source.old) }
        ensures quiet { (IsErrOf result TextFault.ReadFault → ⊥) → S.fault_count source.new ≡ S.fault_count source.old }
    {
        remove_front(&mut self.bytes, self.given);
        self.given = 0;
        take_piece(&mut self.bytes, source)
    }
}

/// Moves the bytes behind the first `count` to the front.
fn remove_front(bytes: &mut Vec<u8>, count: usize)
    requires { count ≤ vec_len bytes.old }
    ensures { bytes.new.items ≡ drop count bytes.old.items }
{
    if count == 0 {
        return;
    }
    let len = bytes.len();
    bytes.as_mut_slice().copy_within(count..len, 0);
    bytes.truncate(len - count);
}

/// Takes the next bytes from the source behind those held.
fn take_piece<S: Source>(held: &mut Vec<u8>, source: &mut S) -> Result<usize, TextFault>
    ensures took { Took held.old.items held.new.items (S.left source.old) (S.left source.new) }
    ensures count { IfOk result (λ n. length held.new.items ≡ length held.old.items + n) }
    ensures end { result ≡ Ok 0 → Exhausts (S.left source.old) [] }
    ensures err { OnErr result (held.new.items ≡ held.old.items) }
    ensures refusal { IsRefusal result }
    ensures later { S.fault_count source.old ≤ S.fault_count source.new }
    ensures read_fault { IsErrOf result TextFault.ReadFault → Rose (S.fault_count source.old) (S.fault_count source.new) }
    ensures calm { OnOk result (S.fault_count source.new ≡ S.fault_count source.old) }
    ensures quiet { (IsErrOf result TextFault.ReadFault → ⊥) → S.fault_count source.new ≡ S.fault_count source.old }
{
    if held.reserve(PIECE).is_err() {
        return Err(TextFault::Memory);
    }
    let mut piece = [0; PIECE];
    match source.read(&mut piece) {
        Ok(count) => {
            held.extend_from_slice(&piece[..count]).unwrap();
            Ok(count)
        }
        Err(_) => Err(TextFault::ReadFault),
    }
}
