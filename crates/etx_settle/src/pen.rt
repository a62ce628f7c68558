//! Writes one deed.
ghost use Rattle.std.specs.Prelude.{◌≡◌, ◌++◌, [], Bool, List, ℕ, ◌∷◌, take, OnOk, OnErr, IsErrOf};
ghost use Rattle.etx_outside.specs.Entries.{files_after, Made};
ghost use Rattle.etx_outside.specs.Outside.{Outside, outside_of, after, Front, faults_of, NoneFell, WriteRose};
ghost use Rattle.etx_outside.specs.Faults.{Later, Rose};
ghost use Rattle.etx_settle.specs.Deeds.{PenState, first_pen, is_among, log_of, to_file, written_by, text_written, error_reported, file_made, deed_entries, pen_after, AllOpen};

use crate::FlushFault;
use crate::text::{error_text, inside_line, is_at_start, is_shown};
use etx_lists::Bytes;
use etx_matter::{Audience, Deed};
use etx_outside::{Terminal, Tree};
use std::alloc::Global;
use std::marker::Model;

fn is_created(created: &[Bytes], name: &[u8]) -> bool
    ensures { result ≡ is_among name.now created.now }
{
    created.iter().any(|q| q.as_slice() == name)
}

/// The name of the log, which is the first file that was created.
fn find_log(created: &[Bytes]) -> &[u8]
    ensures { result.now ≡ log_of created.now }
{
    match created {
        [] => b"",
        [log, ..] => log.as_slice(),
    }
}

/// Adds bytes to a file, if it was created.
fn add_to_created<F: Tree>(
    alloc: Global,
    created: &[Bytes],
    name: &[u8],
    bytes: &[u8],
    tree: &mut F,
) -> Result<(), FlushFault>
    requires { AllOpen (F.is_open tree.old) created.now }
    ensures ok { OnOk result (F.tells → F.files tree.new ≡ files_after (to_file created.now name.now bytes.now) (F.files tree.old)) }
    ensures err { OnErr result (F.tells → (n : ℕ) × (F.files tree.new ≡ files_after (to_file created.now name.now (take n bytes.now)) (F.files tree.old))) }
    ensures asked { F.tells → F.asked tree.new ≡ F.asked tree.old }
    ensures open { (q : List ℕ) → F.is_open tree.old q → F.is_open tree.new q }
    ensures later { Later (F.faults tree.old) (F.faults tree.new) }
    ensures steady { OnOk result (F.counts_only_faults → F.faults tree.new ≡ F.faults tree.old) }
    ensures cause { IsErrOf result FlushFault.WriteFault → Rose (F.faults tree.old).writes (F.faults tree.new).writes }
{
    if is_created(created, name) {
        tree.append(alloc, name, bytes)?;
    }
    Ok(())
}

/// Adds bytes to a file, if it was created, and then to the terminal, if they are shown.
fn write<F: Tree, T: Terminal>(
    alloc: Global,
    created: &[Bytes],
    name: &[u8],
    bytes: &[u8],
    is_shown: bool,
    tree: &mut F,
    terminal: &mut T,
) -> Result<(), FlushFault>
    requires { AllOpen (F.is_open tree.old) created.now }
    ensures ok { OnOk result (F.tells → T.tells →
        outside_of F.files F.asked T.text tree.new terminal.new ≡ after (written_by created.now name.now bytes.now is_shown) (outside_of F.files F.asked T.text tree.old terminal.old)) }
    ensures front { F.tells → T.tells →
        Front (written_by created.now name.now bytes.now is_shown) (outside_of F.files F.asked T.text tree.old terminal.old) (outside_of F.files F.asked T.text tree.new terminal.new) }
    ensures open { (q : List ℕ) → F.is_open tree.old q → F.is_open tree.new q }
    ensures later { NoneFell (faults_of F.faults T.faults tree.old terminal.old) (faults_of F.faults T.faults tree.new terminal.new) }
    ensures steady { OnOk result (F.counts_only_faults → T.counts_only_faults → faults_of F.faults T.faults tree.new terminal.new ≡ faults_of F.faults T.faults tree.old terminal.old) }
    ensures cause { IsErrOf result FlushFault.WriteFault → WriteRose (faults_of F.faults T.faults tree.old terminal.old) (faults_of F.faults T.faults tree.new terminal.new) }
{
    add_to_created(alloc, created, name, bytes, tree)?;
    if is_shown {
        terminal.say(alloc, bytes)?;
    }
    Ok(())
}

/// Creates a file. The terminal stays as it is.
fn create<F: Tree, T: Terminal>(
    alloc: Global,
    created: &mut Vec<Bytes>,
    name: &[u8],
    tree: &mut F,
    terminal: &T,
) -> Result<(), FlushFault>
    requires { AllOpen (F.is_open tree.old) created.old.items }
    ensures created { OnOk result (created.new.items ≡ created.old.items ++ name.now ∷ []) }
    ensures ok { OnOk result (F.tells → T.tells →
        outside_of F.files F.asked T.text tree.new terminal.now ≡ after (Made name.now ∷ []) (outside_of F.files F.asked T.text tree.old terminal.now)) }
    ensures front { F.tells → T.tells →
        Front (Made name.now ∷ []) (outside_of F.files F.asked T.text tree.old terminal.now) (outside_of F.files F.asked T.text tree.new terminal.now) }
    ensures open { OnOk result (AllOpen (F.is_open tree.new) created.new.items) }
    ensures later { NoneFell (faults_of F.faults T.faults tree.old terminal.now) (faults_of F.faults T.faults tree.new terminal.now) }
    ensures steady { OnOk result (F.counts_only_faults → T.counts_only_faults → faults_of F.faults T.faults tree.new terminal.now ≡ faults_of F.faults T.faults tree.old terminal.now) }
    ensures cause { IsErrOf result FlushFault.WriteFault → WriteRose (faults_of F.faults T.faults tree.old terminal.now) (faults_of F.faults T.faults tree.new terminal.now) }
{
    let kept = Bytes::from_slice(alloc, name)?;
    tree.create(alloc, name)?;
    created.push(kept)?;
    Ok(())
}

/// What the entries of a deed depend on.
#[derive(Drop)]
pub struct Pen {
    created: Vec<Bytes>,
    at_start: bool,
    has_erred: bool,
}

impl Model for Pen {
    ghost use Rattle.etx_settle.specs.Deeds.{PenState};

    ghost Value = { PenState };

    ghost view = { λ p. record { created = p.created.items; at_start = p.at_start; has_erred = p.has_erred } };
}

impl Pen {
    /// The pen of a job that has done nothing. Takes no memory.
    pub fn new(alloc: Global) -> Self
        ensures { result ≡ first_pen }
    {
        Pen {
            created: Vec::new(alloc),
            at_start: true,
            has_erred: false,
        }
    }

    /// Writes a text. Of an empty one nothing is asked of the tree and the terminal.
    #[tactic(auto, unfolding(crate::specs::Deeds::text_written))]
    fn write_text<F: Tree, T: Terminal>(
        &mut self,
        alloc: Global,
        text: &[u8],
        audience: Audience,
        tree: &mut F,
        terminal: &mut T,
    ) -> Result<(), FlushFault>
        requires { AllOpen (F.is_open tree.old) self.old.created }
        ensures pen { OnOk result (self.new ≡ (text_written self.old text.now audience).pen) }
        ensures ok { OnOk result (F.tells → T.tells →
            outside_of F.files F.asked T.text tree.new terminal.new ≡ after (text_written self.old text.now audience).entries (outside_of F.files F.asked T.text tree.old terminal.old)) }
        ensures front { F.tells → T.tells →
            Front (text_written self.old text.now audience).entries (outside_of F.files F.asked T.text tree.old terminal.old) (outside_of F.files F.asked T.text tree.new terminal.new) }
        ensures open { OnOk result (AllOpen (F.is_open tree.new) self.new.created) }
        ensures later { NoneFell (faults_of F.faults T.faults tree.old terminal.old) (faults_of F.faults T.faults tree.new terminal.new) }
        ensures steady { OnOk result (F.counts_only_faults → T.counts_only_faults → faults_of F.faults T.faults tree.new terminal.new ≡ faults_of F.faults T.faults tree.old terminal.old) }
        ensures cause { IsErrOf result FlushFault.WriteFault → WriteRose (faults_of F.faults T.faults tree.old terminal.old) (faults_of F.faults T.faults tree.new terminal.new) }
    {
        if text.is_empty() {
            return Ok(());
        }
        let log = find_log(&self.created);
        write(
            alloc,
            &self.created,
            log,
            text,
            is_shown(audience),
            tree,
            terminal,
        )?;
        self.at_start = is_at_start(self.at_start, text);
        Ok(())
    }

    /// Creates a file. The terminal stays as it is.
    #[tactic(auto, unfolding(crate::specs::Deeds::file_made))]
    fn make_file<F: Tree, T: Terminal>(
        &mut self,
        alloc: Global,
        name: &[u8],
        tree: &mut F,
        terminal: &mut T,
    ) -> Result<(), FlushFault>
        requires { AllOpen (F.is_open tree.old) self.old.created }
        ensures pen { OnOk result (self.new ≡ (file_made self.old name.now).pen) }
        ensures ok { OnOk result (F.tells → T.tells →
            outside_of F.files F.asked T.text tree.new terminal.new ≡ after (file_made self.old name.now).entries (outside_of F.files F.asked T.text tree.old terminal.old)) }
        ensures front { F.tells → T.tells →
            Front (file_made self.old name.now).entries (outside_of F.files F.asked T.text tree.old terminal.old) (outside_of F.files F.asked T.text tree.new terminal.new) }
        ensures open { OnOk result (AllOpen (F.is_open tree.new) self.new.created) }
        ensures later { NoneFell (faults_of F.faults T.faults tree.old terminal.old) (faults_of F.faults T.faults tree.new terminal.new) }
        ensures steady { OnOk result (F.counts_only_faults → T.counts_only_faults → faults_of F.faults T.faults tree.new terminal.new ≡ faults_of F.faults T.faults tree.old terminal.old) }
        ensures cause { IsErrOf result FlushFault.WriteFault → WriteRose (faults_of F.faults T.faults tree.old terminal.old) (faults_of F.faults T.faults tree.new terminal.new) }
    {
        create(alloc, &mut self.created, name, tree, terminal)
    }

    /// Reports an error.
    #[tactic(auto, unfolding(crate::specs::Deeds::error_reported))]
    fn report<F: Tree, T: Terminal>(
        &mut self,
        alloc: Global,
        text: &[u8],
        line: u32,
        audience: Audience,
        tree: &mut F,
        terminal: &mut T,
    ) -> Result<(), FlushFault>
        requires { AllOpen (F.is_open tree.old) self.old.created }
        ensures pen { OnOk result (self.new ≡ (error_reported self.old text.now line audience).pen) }
        ensures ok { OnOk result (F.tells → T.tells →
            outside_of F.files F.asked T.text tree.new terminal.new ≡ after (error_reported self.old text.now line audience).entries (outside_of F.files F.asked T.text tree.old terminal.old)) }
        ensures front { F.tells → T.tells →
            Front (error_reported self.old text.now line audience).entries (outside_of F.files F.asked T.text tree.old terminal.old) (outside_of F.files F.asked T.text tree.new terminal.new) }
        ensures open { OnOk result (AllOpen (F.is_open tree.new) self.new.created) }
        ensures later { NoneFell (faults_of F.faults T.faults tree.old terminal.old) (faults_of F.faults T.faults tree.new terminal.new) }
        ensures steady { OnOk result (F.counts_only_faults → T.counts_only_faults → faults_of F.faults T.faults tree.new terminal.new ≡ faults_of F.faults T.faults tree.old terminal.old) }
        ensures cause { IsErrOf result FlushFault.WriteFault → WriteRose (faults_of F.faults T.faults tree.old terminal.old) (faults_of F.faults T.faults tree.new terminal.new) }
    {
        let text = error_text(alloc, self.at_start, text, line)?;
        self.write_text(alloc, text.as_slice(), audience, tree, terminal)?;
        self.has_erred = true;
        Ok(())
    }

    /// Whether an error was reported.
    pub fn has_erred(&self) -> bool
        ensures { result ≡ self.now.has_erred }
    {
        self.has_erred
    }

    /// Writes one deed. After an `Err` the pen is only dropped.
    pub fn settle<F: Tree, T: Terminal>(
        &mut self,
        alloc: Global,
        deed: &Deed,
        tree: &mut F,
        terminal: &mut T,
    ) -> Result<(), FlushFault>
        requires { AllOpen (F.is_open tree.old) self.old.created }
        ensures pen { OnOk result (self.new ≡ pen_after self.old deed.now) }
        ensures ok { OnOk result (F.tells → T.tells →
            outside_of F.files F.asked T.text tree.new terminal.new ≡ after (deed_entries self.old deed.now) (outside_of F.files F.asked T.text tree.old terminal.old)) }
        ensures front { F.tells → T.tells →
            Front (deed_entries self.old deed.now) (outside_of F.files F.asked T.text tree.old terminal.old) (outside_of F.files F.asked T.text tree.new terminal.new) }
        ensures open { OnOk result (AllOpen (F.is_open tree.new) self.new.created) }
        ensures later { NoneFell (faults_of F.faults T.faults tree.old terminal.old) (faults_of F.faults T.faults tree.new terminal.new) }
        ensures steady { OnOk result (F.counts_only_faults → T.counts_only_faults → faults_of F.faults T.faults tree.new terminal.new ≡ faults_of F.faults T.faults tree.old terminal.old) }
        ensures cause { IsErrOf result FlushFault.WriteFault → WriteRose (faults_of F.faults T.faults tree.old terminal.old) (faults_of F.faults T.faults tree.new terminal.new) }
    {
        match deed {
            Deed::Fresh(audience) => {
                let text = inside_line(self.at_start, b"\n");
                self.write_text(alloc, text, *audience, tree, terminal)
            }
            Deed::Space(audience) => {
                let text = inside_line(self.at_start, b" ");
                self.write_text(alloc, text, *audience, tree, terminal)
            }
            Deed::Text { bytes, audience } => {
                self.write_text(alloc, bytes.as_slice(), *audience, tree, terminal)
            }
            Deed::Error {
                text,
                line,
                audience,
            } => self.report(alloc, text.as_slice(), *line, *audience, tree, terminal),
            Deed::Create(name) => self.make_file(alloc, name.as_slice(), tree, terminal),
        }
    }
}
