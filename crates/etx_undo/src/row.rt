//! A row of values.
ghost use Rattle.std.specs.Prelude.{◌≡◌, ℕ, ◌==◌, ◌+◌, ◌≤◌, ◌<◌, ◌^◌, length, None, IfOk, OnOk, OnErr, if◌then◌else◌, slice_set};
ghost use Rattle.std.specs.Option.{option_copied};
ghost use Rattle.etx_undo.specs.Rows.{value_at};

use std::alloc::{AllocError, Global};
use std::marker::Model;

/// Values under numbers, of which each that is not past the end of the row takes its place, also where it has no value.
#[derive(Drop)]
pub struct Row<V> {
    cells: Vec<Option<V>>,
}

impl<V> Model for Row<V> {
    ghost use Rattle.std.specs.Prelude.{List, Option};
    ghost use Rattle.std.specs.Coded.{coded_list, coded_option};

    ghost Value = { List (Option V) };

    ghost coded = { coded_list (coded_option V.code) };

    ghost view = { λ r. r.cells.items };
}

impl<V> Row<V> {
    /// No values. Takes no memory.
    pub fn new(alloc: Global) -> Row<V>
        ensures { (i : ℕ) → value_at result i ≡ None }
    {
        Row {
            cells: Vec::new(alloc),
        }
    }

    /// The value under the number.
    #[tactic(auto, using(crate::proofs::Rows::at_index, crate::proofs::Rows::past))]
    pub fn get(&self, at: usize) -> Option<&V>
        ensures { option_copied result ≡ value_at self.now at }
    {
        if at < self.cells.len() {
            self.cells[at].as_ref()
        } else {
            None
        }
    }
}

impl<V: Drop> Row<V> {
    /// Makes room for the number. After an `Err` the row is what it was.
    #[tactic(auto, using(crate::proofs::Rows::longer))]
    fn reach(&mut self, at: usize) -> Result<(), AllocError>
        requires { at < 2 ^ 32 }
        ensures same { (i : ℕ) → value_at self.new i ≡ value_at self.old i }
        ensures long { OnOk result (at < length self.new) }
        ensures err { OnErr result (self.new ≡ self.old) }
    {
        let len = self.cells.len();
        if at < len {
            return Ok(());
        }
        self.cells.reserve(at - len + 1)?;
        while self.cells.len() <= at {
            self.cells.push_reserved(None);
        }
        Ok(())
    }

    /// Puts a value, or none, under a number that has a place already, which takes no memory.
    #[tactic(auto, using(crate::proofs::Rows::changed))]
    pub fn restore(&mut self, at: usize, value: Option<V>)
        requires { at < length self.old }
        ensures { (i : ℕ) → value_at self.new i ≡ (if at == i then value else value_at self.old i) }
    {
        let _ = self.replace(at, value);
    }

    /// The same, and gives what stood there.
    fn replace(&mut self, at: usize, value: Option<V>) -> Option<V>
        requires { at < length self.old }
        ensures before { result ≡ value_at self.old at }
        ensures now { self.new ≡ slice_set self.old at value }
    {
        std::mem::replace(&mut self.cells[at], value)
    }

    /// Puts a value, or none, under the number, and gives what stood there. After an `Err` the row is what it was.
    #[tactic(auto, using(crate::proofs::Rows::changed))]
    pub fn put(&mut self, at: usize, value: Option<V>) -> Result<Option<V>, AllocError>
        requires { at < 2 ^ 32 }
        ensures before { IfOk result (λ o. o ≡ value_at self.old at) }
        ensures now { OnOk result ((i : ℕ) → value_at self.new i ≡ (if at == i then value else value_at self.old i)) }
        ensures err { OnErr result (self.new ≡ self.old) }
    {
        self.reach(at)?;
        Ok(self.replace(at, value))
    }
}
