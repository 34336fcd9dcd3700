//! The log of what happened to claims.
ghost use Rattle.std.specs.Prelude.{◌≡◌, ℕ, ◌+◌, ◌-◌, ◌^◌, ◌<◌, ◌≤◌, ◌++◌, ◌∷◌, [], true, false, length, take, slice_get, Some, None, IfOk, OnOk, OnErr, if◌then◌else◌};
ghost use Rattle.indexmap.specs.IndexMap.{ContainsKey, Updates};
ghost use Rattle.match_owed.specs.LogInside.{gives_at, is_same, key_of, last_place, PutsOwed};
ghost use Rattle.match_owed.specs.OwedLog.{discharged, gave, AreOwed, CountsOwed, IsLastGift, Owes};

use crate::claim_key::ClaimKey;
use crate::event::Event;
use crate::noted::Noted;
use graph_meaning::Claim;
use graph_terms::Memory;
use indexmap::IndexMap;
use std::alloc::Global;
use std::marker::Model;

/// Events in the order in which they came. Whether a claim is owed is known at once, and the log can be cut back without
/// memory. Contracts see a list.
#[derive(Drop)]
pub struct ClaimLog {
    alloc: Global,
    /// The events. There is room for the discharge of each claim that is owed.
    notes: Vec<Noted>,
    /// Of each claim with an event the place of its last one.
    last: IndexMap<ClaimKey, usize>,
    /// How many claims are owed.
    owed: usize,
}

impl Model for ClaimLog {
    ghost use Rattle.std.specs.Prelude.{List};
    ghost use Rattle.match_owed.specs.declared.event.Event.{Event};
    ghost use Rattle.match_owed.specs.LogInside.{log_of, IsKept};
    ghost use Rattle.std.specs.Vec.{vec_capacity};

    ghost Value = { List Event };

    ghost view = { λ log. log_of log.notes.items };

    ghost invariant = { λ log. IsKept log.notes.items log.last log.owed (vec_capacity log.notes) };
}

/// The claim as a key.
fn key_from(claim: Claim) -> ClaimKey
    ensures { result ≡ key_of claim }
{
    ClaimKey {
        trigger: claim.trigger,
        start: claim.start,
        root: claim.root,
    }
}

/// Puts the place back that the key had before, or takes the key out. Takes no memory, as the key is there.
fn put_back(last: &mut IndexMap<ClaimKey, usize>, key: ClaimKey, before: Option<usize>)
    requires { ContainsKey is_same last.old key }
    ensures { Updates is_same last.old last.new key before }
{
    match before {
        Some(place) => match last.insert(key, place) {
            Ok(_) => {}
            Err(_) => unreachable!(),
        },
        None => {
            let _place = last.swap_remove(&key);
        }
    }
}

/// What is noted at the place.
fn note_at(notes: &[Noted], place: usize) -> Noted
    requires { place < length notes.now }
    ensures { slice_get notes.now place ≡ Some result }
{
    notes[place]
}

/// The count, one less where a claim leaves, one more where one comes.
fn recounted(count: usize, leaves: bool, comes: bool) -> usize
    requires leaves { leaves ≡ true → 0 < count }
    requires comes { leaves ≡ false → comes ≡ true → count < 2 ^ 64 - 1 }
    ensures { result + (if leaves then 1 else 0) ≡ count + (if comes then 1 else 0) }
{
    if leaves {
        if comes { count } else { count - 1 }
    } else {
        if comes { count + 1 } else { count }
    }
}

impl ClaimLog {
    /// No events.
    pub fn new(alloc: Global) -> ClaimLog
        ensures { result ≡ [] }
    {
        ClaimLog {
            alloc,
            notes: Vec::new(alloc),
            last: IndexMap::new(alloc),
            owed: 0,
        }
    }

    /// How many events there are.
    pub fn len(&self) -> usize
        ensures { result ≡ length self.now }
    {
        let _last = &self.last;
        let _owed = self.owed;
        self.notes.len()
    }

    /// How many claims are owed.
    pub fn owed(&self) -> usize
        ensures { CountsOwed self.now result }
    {
        let _notes = &self.notes;
        let _last = &self.last;
        self.owed
    }

    /// The place of the last event of a claim.
    fn last_of(&self, claim: Claim) -> Option<usize>
        ensures { result ≡ last_place self.now (key_of claim) }
    {
        let _notes = &self.notes;
        let _owed = self.owed;
        self.last.get(&key_from(claim)).copied()
    }

    /// Whether there is an event at the place, and it gives its claim.
    fn gives(&self, place: Option<usize>) -> bool
        ensures { result ≡ gives_at self.now place }
    {
        let _last = &self.last;
        let _owed = self.owed;
        match place {
            Some(place) => match self.notes.get(place) {
                Some(noted) => noted.event.gives,
                None => false,
            },
            None => false,
        }
    }

    /// Where the claim was given last, if it is owed.
    pub fn gift(&self, claim: Claim) -> Option<usize>
        ensures some { (place : ℕ) → result ≡ Some place → IsLastGift self.now claim place }
        ensures none { result ≡ None → Owes self.now claim → ⊥ }
    {
        let last = self.last_of(claim);
        if self.gives(last) { last } else { None }
    }

    /// Puts an event last, that the claim was given. `Memory` comes where memory is refused; all is then as before.
    pub fn give(&mut self, claim: Claim) -> Result<(), Memory>
        ensures ok { OnOk result (self.new ≡ self.old ++ gave claim ∷ []) }
        ensures err { OnErr result (self.new ≡ self.old) }
    {
        let before = self.last_of(claim);
        let was_owed = self.gives(before);
        if self.owed >= usize::MAX - 2 {
            return Err(Memory);
        }
        self.notes.reserve(self.owed + 2)?;
        self.last.insert(key_from(claim), self.notes.len())?;
        self.notes.push_reserved(Noted {
            event: Event { claim, gives: true },
            before,
        });
        self.owed = recounted(self.owed, was_owed, true);
        Ok(())
    }

    /// Puts an event last, that the claim was discharged. Takes no memory. The caller sees that the claim is owed.
    pub fn discharge(&mut self, claim: Claim)
        requires { Owes self.old claim }
        ensures { self.new ≡ self.old ++ discharged claim ∷ [] }
    {
        let before = self.last_of(claim);
        let place = self.notes.len();
        put_back(&mut self.last, key_from(claim), Some(place));
        self.notes.push_reserved(Noted {
            event: Event {
                claim,
                gives: false,
            },
            before,
        });
        self.owed -= 1;
    }

    /// Takes the last event away.
    fn take_last(&mut self)
        requires { 0 < length self.old }
        ensures { self.new ≡ take (length self.old - 1) self.old }
    {
        let place = self.notes.len() - 1;
        let noted = note_at(&self.notes, place);
        let was_owed = self.gives(noted.before);
        self.notes.truncate(place);
        put_back(&mut self.last, key_from(noted.event.claim), noted.before);
        self.owed = recounted(self.owed, noted.event.gives, was_owed);
    }

    /// Keeps the first events. Takes no memory.
    pub fn cut(&mut self, len: usize)
        requires { len ≤ length self.old }
        ensures { self.new ≡ take len self.old }
    {
        while self.len() > len {
            self.take_last();
        }
    }

    /// Puts a claim last in the list, where the event at the place is the last one of its claim and gives it.
    fn put_owed(&self, place: usize, claims: &mut Vec<Claim>) -> Result<(), Memory>
        requires { place < length self.now }
        ensures { OnOk result (PutsOwed self.now place claims.old.items claims.new.items) }
    {
        let event = note_at(&self.notes, place).event;
        if let Some(last) = self.gift(event.claim) {
            if last == place {
                claims.push(event.claim)?;
            }
        }
        Ok(())
    }

    /// The claims that are owed, each once. `Memory` comes where memory is refused.
    pub fn claims(&self) -> Result<Vec<Claim>, Memory>
        ensures { IfOk result (λ claims. AreOwed self.now claims.items) }
    {
        let mut claims = Vec::new(self.alloc);
        for place in 0..self.len() {
            self.put_owed(place, &mut claims)?;
        }
        Ok(claims)
    }
}
