//! The stack of what the mouth is in the middle of.
ghost use Rattle.std.specs.Prelude.{◌≡◌, ◌↔◌, ◌∷◌, [], length, slice_get, IsTrue, OnOk, OnErr, MatchOption};
ghost use Rattle.std.specs.Option.{option_copied};

use crate::scan::Entry;
use std::alloc::{AllocError, Global};
use std::marker::Model;

/// What the mouth is in the middle of: scans, values, and tokens that are kept. Contracts see a list, what was pushed last
/// first.
///
/// They have no limit of their own; the machine ends the job where there are more than 10000.
#[derive(Drop)]
pub struct Entries {
    items: Vec<Entry>,
}

impl Model for Entries {
    ghost use Rattle.std.specs.Prelude.{List, reverse};
    ghost use Rattle.etx_state.specs.declared.scan.Entry.{Entry};

    ghost Value = { List Entry };

    ghost view = { λ e. reverse e.items.items };
}

impl Entries {
    /// No entries. Takes no memory.
    pub fn new(alloc: Global) -> Entries
        ensures { result ≡ [] }
    {
        Entries {
            items: Vec::new(alloc),
        }
    }

    /// How many entries there are.
    pub fn len(&self) -> usize
        ensures { result ≡ length self.now }
    {
        self.items.len()
    }

    /// Whether there are none.
    pub fn is_empty(&self) -> bool
        ensures { IsTrue result ↔ (self.now ≡ []) }
    {
        self.items.is_empty()
    }

    /// The entry at `i`, counted from the top, from 0. `None` exactly past the end.
    #[tactic(auto, using(crate::proofs::Stacks::at_in_reverse, crate::proofs::Stacks::past_reverse))]
    pub fn at(&self, i: usize) -> Option<&Entry>
        ensures { option_copied result ≡ slice_get self.now i }
    {
        let len = self.items.len();
        if i < len {
            self.items.get(len - 1 - i)
        } else {
            None
        }
    }

    /// One more entry. After an `Err` the entries are what they were.
    pub fn push(&mut self, entry: Entry) -> Result<(), AllocError>
        ensures ok { OnOk result (self.new ≡ entry ∷ self.old) }
        ensures err { OnErr result (self.new ≡ self.old) }
    {
        self.items.push(entry)?;
        Ok(())
    }

    /// Takes the entry that was pushed last. `None` exactly where there is none.
    pub fn pop(&mut self) -> Option<Entry>
        ensures { MatchOption result ((self.old ≡ []) × (self.new ≡ [])) (λ entry. self.old ≡ entry ∷ self.new) }
    {
        self.items.pop()
    }

    /// Drops all entries. Takes no memory.
    pub fn clear(&mut self)
        ensures { self.new ≡ [] }
    {
        self.items.clear();
    }
}
