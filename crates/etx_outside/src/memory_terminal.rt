// A terminal in memory, some of whose calls fail.
ghost use Rattle.std.specs.Prelude.{◌≡◌, ◌≤◌, ◌++◌, [], List, ℕ, ⊤, true, false, IfOk, OnOk, IsErrOf};
ghost use Rattle.etx_outside.specs.Memory.{is_failing, half, terminal_shown, with_fault};

use crate::{TermFault, Terminal};
use etx_lists::Bytes;
use std::alloc::{AllocError, Global};
use std::marker::Model;

/// A terminal in memory. Its calls are numbered from 1, each call behind number 2^64-1 having that number too, and
/// those whose numbers are listed fail. A call that answers want of memory changes nothing, and isn't counted.
#[derive(Debug, Drop)]
pub struct MemTerminal {
    text: Bytes,
    failing: Vec<u64>,
    calls: u64,
    faults: u64,
}

impl Model for MemTerminal {
    ghost use Rattle.etx_outside.specs.Memory.{TerminalState};

    ghost Value = { TerminalState };

    ghost view = { λ t. record { text = t.text; failing = t.failing.items; calls = t.calls; faults = t.faults } };
}

impl MemTerminal {
    /// A terminal on which nothing was said yet, whose calls with these numbers will fail.
    pub fn new(alloc: Global, failing: Vec<u64>) -> Result<MemTerminal, AllocError>
        ensures { IfOk result (λ t. t ≡ record { text = []; failing = failing.items; calls = 0; faults = 0 }) }
    {
        Ok(MemTerminal {
            text: Bytes::new(alloc),
            failing,
            calls: 0,
            faults: 0,
        })
    }

    /// What was said so far.
    pub fn text(&self) -> &[u8]
        ensures { result.now ≡ self.now.text }
    {
        self.text.as_slice()
    }

    /// How many calls were made, up to 2^64-1.
    pub fn calls(&self) -> u64
        ensures { result ≡ self.now.calls }
    {
        self.calls
    }

    /// How many calls failed, up to 2^64-1.
    pub fn faults(&self) -> u64
        ensures { result ≡ self.now.faults }
    {
        self.faults
    }
}

impl Terminal for MemTerminal {
    ghost tells = { ⊤ };

    ghost text = { λ t. t.text };

    ghost faults = { λ t. t.faults };

    ghost counts_only_faults = { ⊤ };

    /// Says all of the bytes, or the first half of them, rounded down, where the number of the call is listed.
    fn say(&mut self, _alloc: Global, bytes: &[u8]) -> Result<(), TermFault>
        ensures said { OnOk result ((is_failing self.old.failing self.old.calls ≡ false) × (self.new ≡ terminal_shown bytes.now self.old)) }
        ensures failed { IsErrOf result TermFault.Failed →
            (is_failing self.old.failing self.old.calls ≡ true) × (self.new ≡ with_fault (terminal_shown (half bytes.now) self.old)) }
        ensures later { self.old.faults ≤ self.new.faults }
        ensures out_of_memory { IsErrOf result TermFault.OutOfMemory → self.new ≡ self.old }
    {
        let number = self.calls.saturating_add(1);
        if self.failing.contains(&number) {
            self.text.extend_from_slice(&bytes[..bytes.len() / 2])?;
            self.calls = number;
            self.faults = self.faults.saturating_add(1);
            return Err(TermFault::Failed);
        }
        self.text.extend_from_slice(bytes)?;
        self.calls = number;
        Ok(())
    }
}
