//! The store: values under slots, and their history.
ghost use Rattle.std.specs.Prelude.{◌≡◌, ℕ, ◌+◌, ◌<◌, ◌≤◌, ◌↔◌, None, IsTrue, OnOk, OnErr};
ghost use Rattle.std.specs.Option.{option_copied};
ghost use Rattle.etx_undo.specs.History.{place, present, at, IsSet, SameUpTo};

use crate::slot::Slot;
use crate::table::Table;
use std::alloc::{AllocError, Global};
use std::cmp::Ordering;
use std::marker::Model;

/// A place in the history of a store: the number of sets that stand since the store was made or last forgot.
///
/// A mark is live where it is at most the place of the store now.
#[derive(Clone, Copy, Debug, PartialEq, Eq)]
pub struct Mark {
    pub place: usize,
}

/// A set, as it is taken back: the slot, and what it had before.
#[derive(Drop)]
struct Saved<V> {
    slot: Slot,
    before: Option<V>,
}

/// Values under slots, and the values that sets took the place of, the oldest first.
///
/// Contracts see the values as a map from slots, and what the map was at each place up to the place now.
#[derive(Drop)]
pub struct Store<V> {
    entries: Table<V>,
    saved: Vec<Saved<V>>,
}

impl<V> Model for Store<V> {
    ghost use Rattle.std.specs.Prelude.{map};
    ghost use Rattle.etx_undo.specs.History.{Kept, kept_code, IsBacked};

    ghost Value = { Kept V };

    ghost coded = { kept_code V.code };

    ghost view = { λ s. record { entries = s.entries; saved = map (λ e. (e.slot, e.before)) s.saved.items } };

    ghost invariant = { λ s. IsBacked s.entries (map (λ e. (e.slot, e.before)) s.saved.items) };
}

impl<V: Drop> Store<V> {
    /// The empty store, at place 0. Takes no memory.
    pub fn new(alloc: Global) -> Store<V>
        ensures place { place result ≡ 0 }
        ensures empty { (q : Slot) → present result q ≡ None }
    {
        Store {
            entries: Table::new(alloc),
            saved: Vec::new(alloc),
        }
    }

    /// The value under the slot now. `None` exactly where the map hasn't the slot.
    pub fn get(&self, slot: Slot) -> Option<&V>
        ensures { option_copied result ≡ present self.now slot }
    {
        self.entries.get(slot)
    }

    /// The place now. Takes no memory.
    pub fn mark(&self) -> Mark
        ensures place { result.place ≡ place self.now }
        ensures now { (q : Slot) → at self.now result.place q ≡ present self.now q }
    {
        Mark {
            place: self.saved.len(),
        }
    }

    /// Says whether the mark is at most the place now.
    pub fn is_live(&self, mark: Mark) -> bool
        ensures { IsTrue result ↔ (mark.place ≤ place self.now) }
    {
        mark.place <= self.saved.len()
    }

    /// Puts the value under the slot, which is one place more. What the store was at every place up to now stays known.
    ///
    /// After want of memory the store is as before.
    pub fn set(&mut self, slot: Slot, value: V) -> Result<(), AllocError>
        ensures ok { OnOk result (IsSet self.old self.new slot value) }
        ensures err { OnErr result (self.new ≡ self.old) }
    {
        self.saved.reserve(1)?;
        let before = self.entries.put(slot, value)?;
        self.saved.push_reserved(Saved { slot, before });
        Ok(())
    }

    /// The value under the slot at the mark. `None` exactly where the map hadn't the slot then.
    ///
    /// Takes time by the number of sets since the mark, and no memory.
    pub fn value_at(&self, mark: Mark, slot: Slot) -> Option<&V>
        requires { mark.place ≤ place self.now }
        ensures { option_copied result ≡ at self.now mark.place slot }
    {
        for saved in &self.saved[mark.place..] {
            if saved.slot.cmp(&slot) == Ordering::Equal {
                return saved.before.as_ref();
            }
        }
        self.entries.get(slot)
    }

    /// Takes back the last set.
    fn take_back(&mut self)
        requires { 0 < place self.old }
        ensures place { place self.new + 1 ≡ place self.old }
        ensures same { SameUpTo (place self.new) self.old self.new }
    {
        if let Some(last) = self.saved.pop() {
            let Saved { slot, before } = last;
            self.entries.restore(slot, before);
        }
    }

    /// Takes back the sets since the mark: the store is what it was there, and earlier marks keep theirs.
    ///
    /// Takes no memory.
    pub fn back_to(&mut self, mark: Mark)
        requires { mark.place ≤ place self.old }
        ensures place { place self.new ≡ mark.place }
        ensures now { (q : Slot) → present self.new q ≡ at self.old mark.place q }
        ensures same { SameUpTo mark.place self.old self.new }
    {
        while self.mark().place > mark.place {
            self.take_back();
        }
    }

    /// The map stays as it is now, its history is gone, and the place is 0. Takes no memory.
    pub fn forget(&mut self)
        ensures place { place self.new ≡ 0 }
        ensures same { (q : Slot) → present self.new q ≡ present self.old q }
    {
        self.saved.clear();
    }
}
