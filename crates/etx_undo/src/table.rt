//! Values under slots.
ghost use Rattle.std.specs.Prelude.{◌≡◌, ◌≢◌, ◌≤◌, ◌<◌, if◌then◌else◌, Some, None, IsSome, IfOk, OnOk, OnErr};
ghost use Rattle.std.specs.Option.{option_copied};
ghost use Rattle.etx_undo.specs.Slots.{same, row_len};
ghost use Rattle.etx_undo.specs.Tables.{look, held, IsPut};

use crate::row::Row;
use crate::slot::{Slot, row_len};
use std::alloc::{AllocError, Global};
use std::collections::BTreeMap;
use std::marker::Model;

/// Values under slots: the first ones of kind 0 in a row of their own, the first ones of all other kinds in one row, and the
/// rest in a map.
#[derive(Drop)]
pub struct Table<V> {
    names: Row<V>,
    small: Row<V>,
    large: BTreeMap<Slot, V>,
}

impl<V> Model for Table<V> {
    ghost use Rattle.etx_undo.specs.Tables.{Entries, entries_code};

    ghost Value = { Entries V };

    ghost coded = { entries_code V.code };

    ghost view = { λ t. record { names = t.names; small = t.small; large = t.large.entries } };
}

impl<V: Drop> Table<V> {
    /// No values. Takes no memory.
    pub fn new(alloc: Global) -> Table<V>
        ensures { (q : Slot) → look result q ≡ None }
    {
        Table {
            names: Row::new(alloc),
            small: Row::new(alloc),
            large: BTreeMap::new(alloc),
        }
    }

    /// The value under the slot.
    pub fn get(&self, slot: Slot) -> Option<&V>
        ensures { option_copied result ≡ look self.now slot }
    {
        if slot.at >= row_len(slot.kind) {
            return self.large.get(&slot);
        }
        if slot.kind == 0 {
            return self.names.get(slot.at as usize);
        }
        self.small.get(slot.place())
    }

    /// Puts a value under the slot, and gives what was there. After want of memory the table is as before.
    pub fn put(&mut self, slot: Slot, value: V) -> Result<Option<V>, AllocError>
        ensures before { IfOk result (λ o. o ≡ look self.old slot) }
        ensures now { OnOk result (IsPut self.old self.new slot (Some value)) }
        ensures err { OnErr result (self.new ≡ self.old) }
    {
        if slot.at >= row_len(slot.kind) {
            return self.put_large(slot, value);
        }
        if slot.kind == 0 {
            return self.put_name(slot, value);
        }
        self.put_small(slot, value)
    }

    fn put_name(&mut self, slot: Slot, value: V) -> Result<Option<V>, AllocError>
        requires kind { slot.kind ≡ 0 }
        requires small { slot.at < row_len slot.kind }
        ensures before { IfOk result (λ o. o ≡ look self.old slot) }
        ensures now { OnOk result (IsPut self.old self.new slot (Some value)) }
        ensures err { OnErr result (self.new ≡ self.old) }
    {
        let before = self.names.put(slot.at as usize, Some(value))?;
        Ok(before)
    }

    fn put_small(&mut self, slot: Slot, value: V) -> Result<Option<V>, AllocError>
        requires kind { slot.kind ≢ 0 }
        requires small { slot.at < row_len slot.kind }
        ensures before { IfOk result (λ o. o ≡ look self.old slot) }
        ensures now { OnOk result (IsPut self.old self.new slot (Some value)) }
        ensures err { OnErr result (self.new ≡ self.old) }
    {
        let before = self.small.put(slot.place(), Some(value))?;
        Ok(before)
    }

    fn put_large(&mut self, slot: Slot, value: V) -> Result<Option<V>, AllocError>
        requires { row_len slot.kind ≤ slot.at }
        ensures before { IfOk result (λ o. o ≡ look self.old slot) }
        ensures now { OnOk result (IsPut self.old self.new slot (Some value)) }
        ensures err { OnErr result (self.new ≡ self.old) }
    {
        let before = self.large.insert(slot, value)?;
        Ok(before)
    }

    /// Puts under the slot what it had before, which takes no memory.
    pub fn restore(&mut self, slot: Slot, before: Option<V>)
        requires { IsSome (look self.old slot) }
        ensures { IsPut self.old self.new slot before }
    {
        if slot.at >= row_len(slot.kind) {
            self.restore_large(slot, before);
        } else if slot.kind == 0 {
            self.restore_name(slot, before);
        } else {
            self.restore_small(slot, before);
        }
    }

    fn restore_name(&mut self, slot: Slot, before: Option<V>)
        requires kind { slot.kind ≡ 0 }
        requires small { slot.at < row_len slot.kind }
        requires some { IsSome (look self.old slot) }
        ensures { IsPut self.old self.new slot before }
    {
        self.names.restore(slot.at as usize, before);
    }

    fn restore_small(&mut self, slot: Slot, before: Option<V>)
        requires kind { slot.kind ≢ 0 }
        requires small { slot.at < row_len slot.kind }
        requires some { IsSome (look self.old slot) }
        ensures { IsPut self.old self.new slot before }
    {
        self.small.restore(slot.place(), before);
    }

    fn restore_large(&mut self, slot: Slot, before: Option<V>)
        requires large { row_len slot.kind ≤ slot.at }
        requires some { IsSome (look self.old slot) }
        ensures { IsPut self.old self.new slot before }
    {
        restore_in(&mut self.large, slot, before);
    }
}

/// Puts under the slot what it had before. Takes no memory, since the slot has a value already.
fn restore_in<V: Drop>(entries: &mut BTreeMap<Slot, V>, slot: Slot, before: Option<V>)
    requires { IsSome (held entries.old.entries slot) }
    ensures { (q : Slot) → held entries.new.entries q ≡ (if same slot q then before else held entries.old.entries q) }
{
    match before {
        Some(value) => {
            let _ = entries.insert(slot, value);
        }
        None => {
            let _ = entries.remove(&slot);
        }
    }
}
