//! What stands between two commands.
ghost use Rattle.std.specs.Prelude.{◌≡◌, ◌≤◌, ◌+◌, ◌++◌, ◌∷◌, [], length, slice_get, get_or, ◌<◌, ◌^◌, option_copied, option_map, None, IfSome, OnOk, OnErr};
ghost use Rattle.smt_names.specs.Names.{Declared, at_start, cleared, level_of, pushed, popped, head_of, named_by, is_known, is_head, DefinedAt, sort_number, word_of, new_function_name, new_sort_name, sort_of_token, other_sort_of_token, signature_of, with_sort, with_function, with_definition};
ghost use Rattle.smt_names.specs.Makes.{Checks};

use crate::connective::Connective;
use crate::definition::Definition;
use crate::entries::{find, put};
use crate::head::Head;
use crate::level::Level;
use crate::names::{check_new_name, connective_of, is_symbol};
use crate::refusal::Refusal;
use crate::signature::Signature;
use crate::stop::Stop;
use em_outside::Limits;
use graph_terms::Memory;
use indexmap::IndexMap;
use smt_text::{Kind, Place};
use std::alloc::Global;
use std::marker::Model;

/// What stands between two commands: the limits, whether success is printed, the sorts, functions and definitions by their names,
/// and what stood when each open level was opened.
#[derive(Drop)]
pub struct SessionState {
    limits: Limits,
    prints_success: bool,
    sorts: IndexMap<Vec<u8>, ()>,
    functions: IndexMap<Vec<u8>, Signature>,
    definitions: IndexMap<Vec<u8>, Definition>,
    levels: Vec<Level>,
}

impl Model for SessionState {
    ghost use Rattle.smt_names.specs.Names.{State};

    ghost Value = { State };

    ghost use Rattle.smt_names.specs.StateInside.{state_of, IsSound};

    ghost view = { state_of };

    ghost invariant = { IsSound };
}

/// Whether something stands there.
fn is_something(head: Head) -> bool
    ensures { result ≡ is_head head }
{
    match head {
        Head::Core(_) => true,
        Head::Function(_) => true,
        Head::Definition(_) => true,
        Head::Unknown => false,
    }
}

impl SessionState {
    /// Nothing declared.
    pub fn new(alloc: Global, limits: &Limits) -> SessionState
        ensures { result ≡ at_start limits.now }
    {
        let _levels = limits.levels;
        SessionState {
            limits: *limits,
            prints_success: false,
            sorts: IndexMap::new(alloc),
            functions: IndexMap::new(alloc),
            definitions: IndexMap::new(alloc),
            levels: Vec::new(alloc),
        }
    }

    /// The limits.
    pub fn limits(&self) -> Limits
        ensures { result ≡ self.now.limits }
    {
        self.limits
    }

    /// Whether success is printed.
    pub fn prints_success(&self) -> bool
        ensures { result ≡ self.now.prints_success }
    {
        self.prints_success
    }

    /// Sets whether success is printed.
    pub fn set_prints_success(&mut self, prints: bool)
        ensures { self.new ≡ record self.old { prints_success = prints } }
    {
        self.prints_success = prints;
    }

    /// How many levels are open.
    pub fn levels(&self) -> u32
        ensures { result ≡ length self.now.levels }
    {
        self.levels.len() as u32
    }

    /// What a name stands for that is not bound.
    pub fn head(&self, name: &[u8]) -> Head
        ensures value { result ≡ head_of self.now name.now }
        ensures known { is_known (named_by self.now result) ≡ is_head result }
    {
        if let Some(connective) = connective_of(name) {
            return Head::Core(connective);
        }
        if let Some(index) = find(&self.functions, name) {
            return Head::Function(index);
        }
        match find(&self.definitions, name) {
            Some(index) => Head::Definition(index),
            None => Head::Unknown,
        }
    }

    /// The sorts of the function at a place.
    pub fn signature(&self, index: u32) -> Option<&Signature>
        ensures sorts { option_copied result ≡ option_map signature_of (slice_get self.now.functions index) }
        ensures fits { IfSome result (λ _. index + 2 < 2 ^ 32) }
    {
        match self.functions.get_index(index as usize) {
            None => None,
            Some((_, signature)) => Some(signature),
        }
    }

    /// The definition at a place.
    pub fn definition(&self, index: u32) -> Option<&Definition>
        ensures { DefinedAt (slice_get self.now.definitions index) (option_copied result) }
    {
        match self.definitions.get_index(index as usize) {
            None => None,
            Some((_, definition)) => Some(definition),
        }
    }

    /// The name of the function at a place.
    pub fn function_name(&self, index: u32) -> Option<&[u8]>
        ensures { option_copied result ≡ option_map (λ (f : Declared). f.name) (slice_get self.now.functions index) }
    {
        match self.functions.get_index(index as usize) {
            None => None,
            Some((name, _)) => Some(name.as_slice()),
        }
    }

    /// The number of the sort with this name: Bool is 0, and the declared sorts count from 1.
    pub fn sort(&self, name: &[u8]) -> Option<u32>
        ensures { result ≡ sort_number self.now name.now }
    {
        if name == b"Bool".as_slice() {
            return Some(0);
        }
        match find(&self.sorts, name) {
            None => None,
            Some(index) => Some(index + 1),
        }
    }

    /// A name that a function or a definition may get: a lawful one that stands for nothing.
    pub fn check_function_name(&self, kind: Kind, place: Place, name: &[u8]) -> Result<(), Stop>
        ensures check { Checks result (new_function_name self.now (word_of kind place name.now)) }
        ensures new { OnOk result (head_of self.now name.now ≡ Head.Unknown) }
    {
        let alloc = *self.levels.allocator();
        check_new_name(alloc, kind, place, name)?;
        if is_something(self.head(name)) {
            Err(Stop::of_name(alloc, Refusal::AlreadyDeclared, place, name))
        } else {
            Ok(())
        }
    }

    /// A name that a sort may get: a lawful one that is no sort.
    pub fn check_sort_name(&self, kind: Kind, place: Place, name: &[u8]) -> Result<(), Stop>
        ensures check { Checks result (new_sort_name self.now (word_of kind place name.now)) }
        ensures new { OnOk result (sort_number self.now name.now ≡ None) }
    {
        let alloc = *self.levels.allocator();
        check_new_name(alloc, kind, place, name)?;
        match self.sort(name) {
            Some(_) => Err(Stop::of_name(alloc, Refusal::AlreadyDeclared, place, name)),
            None => Ok(()),
        }
    }

    /// The number of the sort that a token names.
    pub fn sort_of_token(&self, kind: Kind, place: Place, name: &[u8]) -> Result<u32, Stop>
        ensures { Checks result (sort_of_token self.now (word_of kind place name.now)) }
    {
        let alloc = *self.levels.allocator();
        if !is_symbol(kind) {
            return Err(Stop::at(alloc, Refusal::BadForm, place));
        }
        match self.sort(name) {
            None => Err(Stop::of_name(alloc, Refusal::UnknownName, place, name)),
            Some(sort) => Ok(sort),
        }
    }

    /// The number of the sort that a token names, where Bool is not supported.
    pub fn other_sort_of_token(&self, kind: Kind, place: Place, name: &[u8]) -> Result<u32, Stop>
        ensures { Checks result (other_sort_of_token self.now (word_of kind place name.now)) }
    {
        match self.sort_of_token(kind, place, name) {
            Err(stop) => Err(stop),
            Ok(sort) => {
                if sort == 0 {
                    let alloc = *self.levels.allocator();
                    Err(Stop::at(alloc, Refusal::NotInProfile, place))
                } else {
                    Ok(sort)
                }
            }
        }
    }

    /// Declares a sort whose name is new.
    pub fn declare_sort(&mut self, name: &[u8]) -> Result<(), Memory>
        requires { sort_number self.old name.now ≡ None }
        ensures ok { OnOk result (self.new ≡ with_sort name.now self.old) }
        ensures err { OnErr result (self.new ≡ self.old) }
    {
        let alloc = *self.sorts.allocator();
        let key = Vec::from_slice(alloc, name)?;
        put(&mut self.sorts, key, ())
    }

    /// Declares a function whose name stands for nothing.
    pub fn declare_function(&mut self, name: &[u8], signature: Signature) -> Result<(), Memory>
        requires { head_of self.old name.now ≡ Head.Unknown }
        ensures ok { OnOk result (self.new ≡ with_function name.now signature self.old) }
        ensures err { OnErr result (self.new ≡ self.old) }
    {
        let alloc = *self.functions.allocator();
        let key = Vec::from_slice(alloc, name)?;
        put(&mut self.functions, key, signature)
    }

    /// Defines a name that stands for nothing.
    pub fn define(&mut self, name: &[u8], definition: Definition) -> Result<(), Memory>
        requires { head_of self.old name.now ≡ Head.Unknown }
        ensures ok { OnOk result (self.new ≡ with_definition name.now definition self.old) }
        ensures err { OnErr result (self.new ≡ self.old) }
    {
        let alloc = *self.definitions.allocator();
        let key = Vec::from_slice(alloc, name)?;
        put(&mut self.definitions, key, definition)
    }

    /// What stands.
    fn level(&self) -> Level
        ensures { result ≡ level_of self.now }
    {
        Level {
            sorts: self.sorts.len() as u32,
            functions: self.functions.len() as u32,
            definitions: self.definitions.len() as u32,
        }
    }

    /// What stood when a level was opened, or what stands.
    fn level_at(&self, n: usize) -> Level
        ensures { result ≡ get_or self.now.levels n (level_of self.now) }
    {
        match self.levels.get(n) {
            Some(level) => *level,
            None => self.level(),
        }
    }

    /// Opens levels, where so many more may be open.
    pub fn push(&mut self, count: u32) -> Result<(), Memory>
        requires { length self.old.levels + count ≤ self.old.limits.levels }
        ensures ok { OnOk result (self.new ≡ pushed count self.old) }
        ensures err { OnErr result (self.new ≡ self.old) }
    {
        let level = self.level();
        let wanted = self.levels.len() + count as usize;
        self.levels.resize(wanted, level)?;
        Ok(())
    }

    /// Closes the last levels, with what was declared and defined in them.
    pub fn pop(&mut self, count: u32)
        requires { count ≤ length self.old.levels }
        ensures { self.new ≡ popped count self.old }
    {
        let kept = self.levels.len() - count as usize;
        let level = self.level_at(kept);
        self.sorts.truncate(level.sorts as usize);
        self.functions.truncate(level.functions as usize);
        self.definitions.truncate(level.definitions as usize);
        self.levels.truncate(kept);
    }

    /// Closes all levels, and takes back all that was declared and defined. Options stay.
    pub fn clear(&mut self)
        ensures { self.new ≡ cleared self.old }
    {
        self.sorts.truncate(0);
        self.functions.truncate(0);
        self.definitions.truncate(0);
        self.levels.truncate(0);
    }

    /// All as at the start.
    pub fn reset(&mut self)
        ensures { self.new ≡ at_start self.old.limits }
    {
        self.clear();
        self.prints_success = false;
    }
}
