//! A name: a list of bytes, which contracts see as a list.
ghost use Rattle.std.specs.Prelude.{◌≡◌, ◌<◌, length, slice_get, IfOk};

use crate::memory::Memory;
use std::alloc::Global;
use std::marker::Model;

/// The bytes of a name, of any values, at most `u32::MAX` of them.
#[derive(Debug, Drop)]
pub struct Name {
    bytes: Vec<u8>,
}

impl Model for Name {
    ghost use Rattle.std.specs.Prelude.{ℕ, List, ◌<◌, ◌^◌, vec_len};

    ghost Value = { List ℕ };

    ghost view = { λ name. name.bytes.items };

    ghost invariant = { λ name. vec_len name.bytes < 2 ^ 32 };
}

impl Name {
    /// The name with these bytes. `Memory` comes where memory is refused or there are more than `u32::MAX` of them.
    pub fn from_slice(alloc: Global, items: &[u8]) -> Result<Name, Memory>
        ensures { IfOk result (λ name. name ≡ items.now) }
    {
        if items.len() > u32::MAX as usize {
            return Err(Memory);
        }
        let bytes = Vec::from_slice(alloc, items)?;
        Ok(Name { bytes })
    }

    /// How many bytes it has: at most `u32::MAX`.
    pub fn len(&self) -> u32
        ensures { result ≡ length self.now }
    {
        self.bytes.len() as u32
    }

    /// The byte at the place `i`, counted from 0. The caller sees that it is below `len()`.
    pub fn get(&self, i: u32) -> u8
        requires { i < length self.now }
        ensures { slice_get self.now i ≡ Some result }
    {
        self.bytes[i as usize]
    }

    /// All its bytes, in order.
    pub fn as_slice(&self) -> &[u8]
        ensures { result.now ≡ self.now }
    {
        self.bytes.as_slice()
    }
}
