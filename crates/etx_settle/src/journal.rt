//! Deeds that wait.
ghost use Rattle.std.specs.Prelude.{◌≡◌, ◌++◌, [], ◌∷◌, List, ℕ, OnOk, OnErr, IsErrOf};
ghost use Rattle.etx_outside.specs.Outside.{Outside, outside_of, after, Front, faults_of, NoneFell, WriteRose};
ghost use Rattle.etx_settle.specs.Deeds.{JournalState, first_pen, entries, pen_after_all, AllOpen};

use crate::FlushFault;
use crate::pen::Pen;
use etx_matter::Deed;
use etx_outside::{Terminal, Tree};
use std::alloc::{AllocError, Global};
use std::marker::Model;

/// Deeds that wait to be written.
#[derive(Drop)]
pub struct Journal {
    alloc: Global,
    pen: Pen,
    waiting: Vec<Deed>,
}

impl Model for Journal {
    ghost use Rattle.etx_settle.specs.Deeds.{JournalState};

    ghost Value = { JournalState };

    ghost view = { λ j. record { pen = j.pen; waiting = j.waiting.items } };
}

/// Writes deeds in order.
fn settle_all<F: Tree, T: Terminal>(
    alloc: Global,
    pen: &mut Pen,
    deeds: &[Deed],
    tree: &mut F,
    terminal: &mut T,
) -> Result<(), FlushFault>
    requires { AllOpen (F.is_open tree.old) pen.old.created }
    ensures pen { OnOk result (pen.new ≡ pen_after_all pen.old deeds.now) }
    ensures ok { OnOk result (F.tells → T.tells →
        outside_of F.files F.asked T.text tree.new terminal.new ≡ after (entries pen.old deeds.now) (outside_of F.files F.asked T.text tree.old terminal.old)) }
    ensures front { F.tells → T.tells →
        Front (entries pen.old deeds.now) (outside_of F.files F.asked T.text tree.old terminal.old) (outside_of F.files F.asked T.text tree.new terminal.new) }
    ensures open { OnOk result (AllOpen (F.is_open tree.new) pen.new.created) }
    ensures later { NoneFell (faults_of F.faults T.faults tree.old terminal.old) (faults_of F.faults T.faults tree.new terminal.new) }
    ensures steady { OnOk result (F.counts_only_faults → T.counts_only_faults → faults_of F.faults T.faults tree.new terminal.new ≡ faults_of F.faults T.faults tree.old terminal.old) }
    ensures cause { IsErrOf result FlushFault.WriteFault → WriteRose (faults_of F.faults T.faults tree.old terminal.old) (faults_of F.faults T.faults tree.new terminal.new) }
{
    for deed in deeds {
        pen.settle(alloc, deed, tree, terminal)?;
    }
    Ok(())
}

impl Journal {
    /// A journal of a job that has done nothing. Takes no memory.
    pub fn new(alloc: Global) -> Self
        ensures { result ≡ record { pen = first_pen; waiting = [] } }
    {
        Journal {
            alloc,
            pen: Pen::new(alloc),
            waiting: Vec::new(alloc),
        }
    }

    /// Whether an error was reported by a deed that was written.
    pub fn has_erred(&self) -> bool
        ensures { result ≡ self.now.pen.has_erred }
    {
        self.pen.has_erred()
    }

    /// Lets a deed wait. After an `Err`, which is want of memory, the journal is only dropped.
    pub fn push(&mut self, deed: Deed) -> Result<(), AllocError>
        ensures { OnOk result (self.new ≡ record self.old { waiting = self.old.waiting ++ deed ∷ [] }) }
    {
        self.waiting.push(deed)?;
        Ok(())
    }

    /// Writes what waits, in order.
    ///
    /// `WriteFault` comes only where a count of faults of the tree or of the terminal rose. After an `Err` some first
    /// entries of what waited were written, and the journal is only dropped.
    pub fn flush<F: Tree, T: Terminal>(
        &mut self,
        tree: &mut F,
        terminal: &mut T,
    ) -> Result<(), FlushFault>
        requires { AllOpen (F.is_open tree.old) self.old.pen.created }
        ensures journal { OnOk result (self.new ≡ record { pen = pen_after_all self.old.pen self.old.waiting; waiting = [] }) }
        ensures ok { OnOk result (F.tells → T.tells →
            outside_of F.files F.asked T.text tree.new terminal.new ≡ after (entries self.old.pen self.old.waiting) (outside_of F.files F.asked T.text tree.old terminal.old)) }
        ensures front { F.tells → T.tells →
            Front (entries self.old.pen self.old.waiting) (outside_of F.files F.asked T.text tree.old terminal.old) (outside_of F.files F.asked T.text tree.new terminal.new) }
        ensures open { OnOk result (AllOpen (F.is_open tree.new) self.new.pen.created) }
        ensures later { NoneFell (faults_of F.faults T.faults tree.old terminal.old) (faults_of F.faults T.faults tree.new terminal.new) }
        ensures steady { OnOk result (F.counts_only_faults → T.counts_only_faults → faults_of F.faults T.faults tree.new terminal.new ≡ faults_of F.faults T.faults tree.old terminal.old) }
        ensures cause { IsErrOf result FlushFault.WriteFault → WriteRose (faults_of F.faults T.faults tree.old terminal.old) (faults_of F.faults T.faults tree.new terminal.new) }
    {
        settle_all(self.alloc, &mut self.pen, &self.waiting, tree, terminal)?;
        self.waiting = Vec::new(self.alloc);
        Ok(())
    }
}
